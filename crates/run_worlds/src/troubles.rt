//! Runs whose calls fail or are cut, and the same runs or others made then.
use super::ends::{show_changing_end, show_outcome, sink_of, status_of};
use super::statuses::{show_all_but_the_journal, show_status};
use host_memory::MemoryHost;
use std::alloc::{AllocError, Global};
use std::test::Fail;
use switch_names::Bytes;
use world_text::{Lines, host_of, list_of, text_of};

/// Shows the status of a run of these words.
fn show_status_of(
    alloc: Global,
    lines: &mut Lines,
    host: &mut MemoryHost,
    words: &str,
) -> Result<(), Fail> {
    let mut sink = sink_of(alloc, "-")?;
    let status = status_of(alloc, host, &mut sink, words)?;
    show_status(alloc, lines, &status)
}

/// Shows the statuses of a run and of the same run over the host that is revived, with the faults
/// between them, and what is seen of the world then.
fn show_both_ends(
    alloc: Global,
    lines: &mut Lines,
    host: &mut MemoryHost,
    words: &str,
) -> Result<(), Fail> {
    show_status_of(alloc, lines, host, words)?;
    lines.add_word("faults");
    lines.add_value(&host.faults());
    lines.end_line();
    host.revive();
    show_status_of(alloc, lines, host, words)?;
    show_all_but_the_journal(alloc, lines, host.world())
}

/// Has a call of a host fail: that with this number, or the cut with this number.
///
/// Each call that changes something has three cuts, as the host picks them: before it, at its next moment, and at the one
/// after that, where it has so many.
pub fn trouble(
    alloc: Global,
    host: &mut MemoryHost,
    kind: &str,
    number: u64,
) -> Result<(), AllocError> {
    match kind {
        "cut" | "twice" => host.arm(number / 3, number % 3),
        _ => host.fail(list_of(alloc, number)?),
    }
    Ok(())
}

/// How a run over the world of some places ends of which a call fails: with the whole world, or made again, which may be
/// cut there once more before. Answers whether a call has failed.
fn show_trouble(
    alloc: Global,
    lines: &mut Lines,
    (kind, words, places): (&str, &str, &[Bytes]),
    number: u64,
) -> Result<bool, Fail> {
    let mut host = host_of(alloc, places)?;
    trouble(alloc, &mut host, kind, number)?;
    if kind == "fail" {
        show_outcome(alloc, lines, &mut host, "-", words)?;
        return Ok(host.faults() > 0);
    }
    if kind == "twice" {
        show_status_of(alloc, lines, &mut host, words)?;
        host.revive();
        trouble(alloc, &mut host, kind, number)?;
    }
    show_both_ends(alloc, lines, &mut host, words)?;
    Ok(host.faults() > 0)
}

/// Adds what a run gives, with the number of the call that fails, where that is something else than with
/// the call before.
fn add_other(lines: &mut Lines, last: &Lines, next: &Lines, number: u64) {
    if next.as_str() != last.as_str() {
        lines.add_word("from");
        lines.add_value(&number);
        lines.end_line();
        lines.add_all(next);
    }
}

/// Shows how a run ends of which each call fails in turn, where that is another end than with the call
/// before. The last end is that of the run in which no call fails.
pub fn show_troubles(
    alloc: Global,
    lines: &mut Lines,
    kind: &str,
    words: &Bytes,
    places: &[Bytes],
) -> Result<(), Fail> {
    let words = text_of(words)?;
    let mut last = Lines::new(alloc);
    for number in 0..u64::MAX {
        let mut next = Lines::new(alloc);
        let has_failed = show_trouble(alloc, &mut next, (kind, words, places), number)?;
        add_other(lines, &last, &next, number);
        last = next;
        if !has_failed {
            break;
        }
    }
    Ok(())
}

/// Shows how a run of some words over the world of these places ends, which is cut where the number says, and then a run
/// of other words: of both, what is other in the world then than before the first.
pub fn show_cut_and_then(
    alloc: Global,
    lines: &mut Lines,
    (number, words, then): (&Bytes, &Bytes, &Bytes),
    places: &[Bytes],
) -> Result<(), Fail> {
    let before = host_of(alloc, places)?;
    let mut host = host_of(alloc, places)?;
    trouble(alloc, &mut host, "cut", text_of(number)?.parse::<u64>()?)?;
    let cut_run = ("-", text_of(words)?);
    show_changing_end(alloc, lines, before.world(), &mut host, cut_run)?;
    host.revive();
    let next_run = ("-", text_of(then)?);
    show_changing_end(alloc, lines, before.world(), &mut host, next_run)
}
