//! Reboots of a machine on which a run was cut, and the start-ups that follow, which may be cut too.
use super::ends::{show_changing_end, sink_of, status_of};
use super::statuses::show_all_but_the_journal;
use super::troubles::trouble;
use host_memory::MemoryHost;
use host_trait::World;
use reboot_model::after_reboot;
use rehearse::Cut;
use std::alloc::Global;
use std::test::Fail;
use switch_names::{Bytes, SystemName};
use world_text::{Lines, host_of, show_leaves, text_of};

/// Shows how a run of some words over the world of these places ends, which is cut where the number says, or isn't where it
/// says `-`, and then the start-up after a reboot: of both, what is other in the world then than before the first.
pub fn show_reboot(
    alloc: Global,
    lines: &mut Lines,
    (number, words): (&Bytes, &Bytes),
    places: &[Bytes],
) -> Result<(), Fail> {
    let before = host_of(alloc, places)?;
    let mut host = host_of(alloc, places)?;
    let number = text_of(number)?;
    if number != "-" {
        trouble(alloc, &mut host, "cut", number.parse::<u64>()?)?;
    }
    show_changing_end(
        alloc,
        lines,
        before.world(),
        &mut host,
        ("-", text_of(words)?),
    )?;
    host.reboot(alloc, 0)?;
    show_changing_end(alloc, lines, before.world(), &mut host, ("-", "start-up"))
}

/// The accounts and what stands below `etc`.
fn activated(alloc: Global, world: &World) -> Result<Lines, Fail> {
    let mut lines = Lines::new(alloc);
    show_leaves(alloc, &mut lines, world, "etc")?;
    show_leaves(alloc, &mut lines, world, "var/lib/nixos")?;
    Ok(lines)
}

/// A world but for its journal.
fn seen(alloc: Global, world: &World) -> Result<Lines, Fail> {
    let mut lines = Lines::new(alloc);
    show_all_but_the_journal(alloc, &mut lines, world)?;
    Ok(lines)
}

/// A host over the world of some places, on which a run of some words was cut at its changing call of this number, and
/// whether it was.
fn cut_host(
    alloc: Global,
    words: &str,
    places: &[Bytes],
    number: u64,
) -> Result<(MemoryHost, bool), Fail> {
    let mut host = host_of(alloc, places)?;
    host.arm(number, number);
    let mut sink = sink_of(alloc, "-")?;
    let _status = status_of(alloc, &mut host, &mut sink, words)?;
    let was_cut = host.faults() > 0;
    Ok((host, was_cut))
}

/// What came of reboots.
#[derive(Drop)]
struct Counts {
    /// How many reboots there were after a cut run.
    reboots: u64,
    /// In how many of them the machine booted into the system of the run.
    into_new: u64,
    /// How many start-ups were cut after one of them.
    cut_start_ups: u64,
    /// How many worlds weren't as they should be.
    others: u64,
}

impl Counts {
    /// Counts a world that is shown so and should be shown otherwise.
    fn compare(&mut self, shown: &Lines, wanted: &Lines) {
        if shown.as_str() != wanted.as_str() {
            self.others = self.others.saturating_add(1);
        }
    }
}

/// The start-up after the reboot of this host is cut at every ninth of its calls, and made again from there, or from a further
/// reboot: each comes to the end of the one that isn't cut, in the second case as far as the accounts and `/etc` go.
fn try_start_ups(
    alloc: Global,
    (words, places, number): (&str, &[Bytes], u64),
    uncut: &World,
    counts: &mut Counts,
) -> Result<(), Fail> {
    let whole = seen(alloc, uncut)?;
    let kept = activated(alloc, uncut)?;
    let mut after = number % 9;
    for _ in 0..u64::MAX {
        let (mut again, _was) = cut_host(alloc, words, places, number)?;
        let cut = Cut { after, pick: after };
        let rebooting = after_reboot(alloc, &mut again, number, &[cut])?;
        counts.compare(&seen(alloc, again.world())?, &whole);
        if rebooting.summary.runs == 1 {
            return Ok(());
        }
        counts.cut_start_ups = counts.cut_start_ups.saturating_add(1);
        let (mut further, _was) = cut_host(alloc, words, places, number)?;
        further.reboot(alloc, number)?;
        further.arm(after, after);
        let mut sink = sink_of(alloc, "-")?;
        let _status = status_of(alloc, &mut further, &mut sink, "start-up")?;
        let _rebooting = after_reboot(alloc, &mut further, after, &[])?;
        counts.compare(&activated(alloc, further.world())?, &kept);
        after = after.saturating_add(9);
    }
    Ok(())
}

/// A run of some words over the world of these places is cut at each of its changing calls, the machine rebooted, and its
/// start-up cut at a ninth of its calls too, at others with each number. Where it boots into this system the accounts and
/// `/etc` end as after the run that isn't cut. Shows how many reboots and cut start-ups there were, and how many of their ends were others.
pub fn show_all_reboots(
    alloc: Global,
    lines: &mut Lines,
    (words, system): (&Bytes, &Bytes),
    places: &[Bytes],
) -> Result<(), Fail> {
    let words = text_of(words)?;
    let system = SystemName::parse(alloc, text_of(system)?)?;
    let (end, _was) = cut_host(alloc, words, places, u64::MAX / 2)?;
    let switched = activated(alloc, end.world())?;
    let mut counts = Counts {
        reboots: 0,
        into_new: 0,
        cut_start_ups: 0,
        others: 0,
    };
    for number in 0..u64::MAX {
        let (mut host, was_cut) = cut_host(alloc, words, places, number)?;
        let rebooting = after_reboot(alloc, &mut host, number, &[])?;
        counts.reboots = counts.reboots.saturating_add(1);
        if let Some(booted) = &rebooting.booted {
            if booted == &system {
                counts.into_new = counts.into_new.saturating_add(1);
                counts.compare(&activated(alloc, host.world())?, &switched);
            }
        }
        try_start_ups(alloc, (words, places, number), host.world(), &mut counts)?;
        if !was_cut {
            break;
        }
    }
    lines.add_word("reboots");
    lines.add_value(&counts.reboots);
    lines.end_line();
    lines.add_word("into the new system");
    lines.add_value(&counts.into_new);
    lines.end_line();
    lines.add_word("cut start-ups");
    lines.add_value(&counts.cut_start_ups);
    lines.end_line();
    lines.add_word("others");
    lines.add_value(&counts.others);
    lines.end_line();
    Ok(())
}
