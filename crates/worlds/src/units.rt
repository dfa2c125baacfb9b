//! The cases of units.
mod calls;
mod changes;
mod definitions;
mod files;
mod lists;
mod pulls;

use self::calls::{show_calls_of, show_owed};
use self::changes::show_change;
use self::definitions::show_units;
use self::files::{show_file, show_file_values, show_sum};
use self::lists::{show_lists, show_record};
use host_memory::MemoryHost;
use std::alloc::Global;
use std::test::Fail;
use switch_names::Bytes;
use world_text::{Lines, host_of_systems, misread};

/// Shows what is asked of a host.
fn show_host(
    alloc: Global,
    lines: &mut Lines,
    command: &str,
    host: &mut MemoryHost,
    given: &[Bytes],
) -> Result<(), Fail> {
    match (command, given) {
        ("lists", _) => show_lists(alloc, lines, host),
        ("record", _) => show_record(alloc, lines, host, given),
        ("owed", _) => show_owed(alloc, lines, host),
        ("calls", _) => show_calls_of(alloc, lines, host.world().states(), given),
        (_, [units, ..]) => show_units(alloc, lines, command, host, units),
        _ => misread(),
    }
}

/// Shows the same of a host with the two systems, and what stands after so many fields.
fn show_systems(
    alloc: Global,
    lines: &mut Lines,
    command: &str,
    count: usize,
    given: &[Bytes],
) -> Result<(), Fail> {
    let Some((_, places)) = given.split_at_checked(count) else {
        return misread();
    };
    let mut host = host_of_systems(alloc, places)?;
    show_host(alloc, lines, command, &mut host, given)
}

/// Shows what a command of units gives, where it is one.
pub fn show_unit_case(
    alloc: Global,
    lines: &mut Lines,
    command: &str,
    given: &[Bytes],
) -> Option<Result<(), Fail>> {
    let shown = match (command, given) {
        ("values", [file]) => show_file_values(alloc, lines, file.as_slice()),
        ("add", [first, later]) => show_sum(alloc, lines, first.as_slice(), later.as_slice()),
        ("start" | "flags" | "sockets" | "assign", [file, asked @ ..]) => {
            show_file(alloc, lines, file.as_slice(), command, asked)
        }
        ("compare" | "decide", _) => show_change(alloc, lines, given),
        ("lists" | "owed", _) => show_systems(alloc, lines, command, 0, given),
        ("record", _) => show_systems(alloc, lines, command, 3, given),
        ("calls", _) => show_systems(alloc, lines, command, 5, given),
        ("found" | "wanted" | "pull", _) => show_systems(alloc, lines, command, 1, given),
        ("found without a system" | "wanted without a system" | "pull without a system", _) => {
            show_systems(alloc, lines, command, 1, given)
        }
        _ => return None,
    };
    Some(shown)
}
