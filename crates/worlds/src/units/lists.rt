//! The lists of a world, and the log in which they are recorded.
ghost use Rattle.std.specs.Prelude.{◌≡◌, ◌∷◌, [], false, IfOk};
ghost use Rattle.host_trait.specs.World.{stage};
ghost use Rattle.owed_log.specs.Places.{log_place};
ghost use Rattle.tree_put.specs.WrittenPlace.{written};

use crate::fields::names_of;
use crate::writing::{show_names, show_value};
use host_memory::MemoryHost;
use host_trait::HostFault;
use log_text::{Lists, Which};
use owed_log::{LogState, LogWrite, StandingLists, clear, log_path, record};
use std::alloc::{AllocError, Global};
use std::test::Fail;
use switch_names::{Bytes, Listed};
use tree_put::{WrittenPlace, add_stage, first_in_the_way, nothing_found, unread};
use world_text::{Lines, misread, show_leaves};

/// The lists that stand on a host, and what stands at the place of the log.
pub fn standing_on(alloc: Global, host: &mut MemoryHost) -> Result<StandingLists, HostFault> {
    let mut findings = nothing_found(alloc);
    StandingLists::read(alloc, host, &mut findings)
}

/// Shows the three lists as they are read, a line each, and what stands at the place of the log.
pub fn show_lists(alloc: Global, lines: &mut Lines, host: &mut MemoryHost) -> Result<(), Fail> {
    let standing = standing_on(alloc, host)?;
    show_names(lines, "start", standing.lists.starts.as_slice());
    show_names(lines, "restart", standing.lists.restarts.as_slice());
    show_names(lines, "reload", standing.lists.reloads.as_slice());
    lines.add_word("log");
    show_value(lines, &standing.log);
    Ok(())
}

/// The lists of three fields.
fn lists_of(alloc: Global, given: &[Bytes]) -> Result<Lists, Fail> {
    let [starts, restarts, reloads, ..] = given else {
        return misread();
    };
    Ok(Lists {
        starts: names_of(alloc, starts)?,
        restarts: names_of(alloc, restarts)?,
        reloads: names_of(alloc, reloads)?,
    })
}

/// The places at which a log is put.
fn log_places(alloc: Global) -> Result<Listed<WrittenPlace>, AllocError>
    ensures { IfOk result (λ places. places ≡ written false stage ∷ written false log_place ∷ []) }
{
    let mut places = Listed::new(alloc);
    add_stage(alloc, &mut places)?;
    places.push(unread(log_path(alloc)?))?;
    Ok(places)
}

/// The word for what has to be written.
fn word_of(write: &LogWrite) -> &'static str {
    match write {
        LogWrite::Nothing => "nothing",
        LogWrite::Append(_) => "append",
        LogWrite::Put(_) => "put",
    }
}

/// Records lists on a host where nothing stands in the way of the log, and shows what has to be written.
fn record_lists(
    alloc: Global,
    lines: &mut Lines,
    host: &mut MemoryHost,
    lists: &Lists,
) -> Result<(), Fail> {
    let places = log_places(alloc)?;
    let mut findings = nothing_found(alloc);
    let None = first_in_the_way(alloc, host, &mut findings, places.as_slice())? else {
        return misread();
    };
    let standing = StandingLists::read(alloc, host, &mut findings)?;
    let write = standing.log.prepare(alloc, lists)?;
    lines.add_word(word_of(&write));
    lines.end_line();
    Ok(record(alloc, host, &write)?)
}

/// Clears the restart list, where a whole log stands.
fn clear_restarts(alloc: Global, host: &mut MemoryHost) -> Result<(), Fail> {
    let mut findings = nothing_found(alloc);
    let standing = StandingLists::read(alloc, host, &mut findings)?;
    if let LogState::Whole(_) = standing.log {
        clear(alloc, host, Which::Restarts)?;
    }
    Ok(())
}

/// Records the lists of three fields, and shows what is read, what is read once the restart list is
/// cleared, and the files of the lists then.
pub fn show_record(
    alloc: Global,
    lines: &mut Lines,
    host: &mut MemoryHost,
    given: &[Bytes],
) -> Result<(), Fail> {
    let lists = lists_of(alloc, given)?;
    record_lists(alloc, lines, host, &lists)?;
    show_lists(alloc, lines, host)?;
    clear_restarts(alloc, host)?;
    show_lists(alloc, lines, host)?;
    show_leaves(alloc, lines, host.world(), "run/nixos")
}
