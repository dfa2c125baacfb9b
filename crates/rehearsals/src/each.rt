//! A command that is cut at each of its changing calls, and fails at each of its calls, and is run again.
use super::ended::{summary_of, word_of};
use host_memory::MemoryHost;
use host_trait::World;
use rehearse::{Cut, Summary, Trouble};
use std::alloc::Global;
use std::test::Fail;
use switch_engine::Command;
use world_text::Lines;

/// How a command has ended on a host.
struct Ended {
    host: MemoryHost,
    summary: Summary,
}

/// One call: a derived drop is proved anew in each function that lets one go.
impl Drop for Ended {
    fn drop(self) {
        let Ended {
            host: _,
            summary: _,
        } = self;
    }
}

/// How a command ends under these troubles, from a world.
fn ended_from(
    alloc: Global,
    world: &World,
    command: &Command,
    troubles: &[Trouble],
) -> Result<Ended, Fail> {
    let mut host = MemoryHost::new(alloc, world.copy(alloc)?);
    let summary = summary_of(alloc, &mut host, command, troubles)?;
    Ok(Ended { host, summary })
}

/// Whether two runs under one trouble have ended as one without a trouble.
fn is_alike(whole: &Ended, other: &Ended) -> bool {
    other.summary.runs == 2
        && word_of(&other.summary.end) == word_of(&whole.summary.end)
        && other.host.world().same_seen(whole.host.world())
}

/// Shows a trouble under which a command ends otherwise.
fn show_other(
    alloc: Global,
    lines: &mut Lines,
    (world, command): (&World, &Command),
    whole: &Ended,
    trouble: Trouble,
) -> Result<(), Fail> {
    let other = ended_from(alloc, world, command, &[trouble])?;
    if !is_alike(whole, &other) {
        lines.add_word("differs");
        lines.add_value(&trouble);
        lines.end_line();
    }
    Ok(())
}

/// Shows the cuts, with the picks 0, 1 and 2, and the failing calls under which a command ends otherwise than without a trouble,
/// and that there were such to try.
pub fn show_each(
    alloc: Global,
    lines: &mut Lines,
    world: &World,
    command: &Command,
) -> Result<(), Fail> {
    let whole = ended_from(alloc, world, command, &[])?;
    for after in 0..whole.host.changes() {
        for pick in 0..3 {
            let cut = Trouble::Cut(Cut { after, pick });
            show_other(alloc, lines, (world, command), &whole, cut)?;
        }
    }
    for call in 0..whole.host.calls() {
        show_other(alloc, lines, (world, command), &whole, Trouble::Fail(call))?;
    }
    if whole.host.changes() > 0 {
        lines.add_word("each was tried");
        lines.end_line();
    }
    Ok(())
}

/// The word for whether two runs under one trouble have ended as one without a trouble.
fn likeness(whole: &Ended, other: &Ended) -> &'static str {
    if is_alike(whole, other) {
        "alike"
    } else {
        "differs"
    }
}

/// Shows how often a command is run under a trouble, how it ends, and whether it ends as without one.
pub fn show_alike(
    alloc: Global,
    lines: &mut Lines,
    world: &World,
    command: &Command,
    trouble: Trouble,
) -> Result<(), Fail> {
    let whole = ended_from(alloc, world, command, &[])?;
    let other = ended_from(alloc, world, command, &[trouble])?;
    lines.add_value(&other.summary.runs);
    lines.add_word("runs");
    lines.add_word(word_of(&other.summary.end));
    lines.add_word(likeness(&whole, &other));
    lines.end_line();
    Ok(())
}

/// How many entries the journal of a host has.
fn entries_of(ended: &Ended) -> usize {
    ended.host.world().journal().as_slice().len()
}

/// Shows how many entries a command leaves in the journal and how it ends, and then how many it leaves that is cut once each
/// of its changing calls is finished, where that is another number than with the call before, and whether it ends alike.
pub fn show_entered(
    alloc: Global,
    lines: &mut Lines,
    world: &World,
    command: &Command,
) -> Result<(), Fail> {
    let whole = ended_from(alloc, world, command, &[])?;
    let mut last = entries_of(&whole);
    lines.add_value(&last);
    lines.add_word("entries");
    lines.add_word(word_of(&whole.summary.end));
    lines.end_line();
    for after in 0..whole.host.changes() {
        let cut = Trouble::Cut(Cut { after, pick: 1 });
        let other = ended_from(alloc, world, command, &[cut])?;
        let entries = entries_of(&other);
        let ending = likeness(&whole, &other);
        if entries != last || ending != "alike" {
            lines.add_value(&entries);
            lines.add_word(ending);
            lines.end_line();
        }
        last = entries;
    }
    Ok(())
}
