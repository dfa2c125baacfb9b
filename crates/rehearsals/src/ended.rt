//! How a command ends that is run again.
use host_memory::MemoryHost;
use host_trait::World;
use rehearse::{End, Summary, Trouble, is_repeatable, through_all};
use std::alloc::Global;
use std::test::Fail;
use switch_engine::Command;
use world_text::{Lines, misread, show_journal, show_leaves, show_states};

/// The word for an end.
pub fn word_of(end: &End) -> &'static str {
    match end {
        End::Done => "done",
        End::UnitsFailed => "failed",
        End::Refused(_) => "refused",
    }
}

/// How a command ends that is run under these troubles on a host.
pub fn summary_of(
    alloc: Global,
    host: &mut MemoryHost,
    command: &Command,
    troubles: &[Trouble],
) -> Result<Summary, Fail> {
    if !is_repeatable(command) {
        return misread();
    }
    Ok(through_all(alloc, host, command, troubles)?)
}

/// Shows what a command leaves: the states, the links to systems, and the journal.
fn show_left(alloc: Global, lines: &mut Lines, world: &World) -> Result<(), Fail> {
    show_states(lines, world);
    show_leaves(alloc, lines, world, "run")?;
    show_journal(lines, world);
    Ok(())
}

/// Shows how often a command was run on a host under these troubles, how it ended, and what it leaves.
pub fn show_ended(
    alloc: Global,
    lines: &mut Lines,
    host: &mut MemoryHost,
    command: &Command,
    troubles: &[Trouble],
) -> Result<(), Fail> {
    let summary = summary_of(alloc, host, command, troubles)?;
    lines.add_value(&summary.runs);
    lines.add_word("runs");
    lines.add_word(word_of(&summary.end));
    lines.end_line();
    show_left(alloc, lines, host.world())
}
