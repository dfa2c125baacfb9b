//! Which units a system defines, by the rules of systemd.unit(5), and which each wants.
use super::pulls::show_pulls;
use crate::fields::names_of;
use crate::writing::{show_names, show_values};
use host_memory::MemoryHost;
use host_trait::States;
use std::alloc::Global;
use std::test::Fail;
use switch_names::{Bytes, Listed, SystemName, UnitName};
use unit_defs::{Defs, DefsFault};
use world_text::{Lines, misread, show_fault};

/// Shows the names that are defined, and for each of these units the values of `K` in the section `S`
/// of its text, or that it has none.
fn show_found(lines: &mut Lines, defs: &Defs, units: &[UnitName]) {
    show_names(lines, "defined", defs.names().as_slice());
    for unit in units {
        match defs.find(unit) {
            Some(text) => show_values(lines, text.values("S", "K")),
            None => lines.add_word("none"),
        }
        lines.end_last_line();
    }
}

/// Shows a line for each of these units, with what it wants.
fn show_wants(lines: &mut Lines, defs: &Defs, units: &[UnitName]) {
    for unit in units {
        lines.add_word(unit.as_str());
        show_names(lines, "wants", defs.wanted(unit).as_slice());
    }
}

/// Shows what definitions say of what is asked.
fn show_by_defs(
    alloc: Global,
    lines: &mut Lines,
    command: &str,
    (defs, states): (&Defs, &States),
    units: &Listed<UnitName>,
) -> Result<(), Fail> {
    match command {
        "found" | "found without a system" => show_found(lines, defs, units.as_slice()),
        "pull" | "pull without a system" => show_pulls(alloc, lines, defs, states, units)?,
        "wanted without a system" => show_wants(lines, defs, units.as_slice()),
        _ => return misread(),
    }
    Ok(())
}

/// Shows how many units a system has that are too many.
fn show_many(lines: &mut Lines, count: u64) {
    lines.add_word("too many");
    lines.add_value(&count);
    lines.end_line();
}

/// Shows what these units want in a new system, or how many it has that are too many, or the first unit with a fault and its
/// line.
fn show_wanted(
    alloc: Global,
    lines: &mut Lines,
    host: &mut MemoryHost,
    system: &SystemName,
    units: &[UnitName],
) -> Result<(), Fail> {
    match Defs::read(alloc, host, system) {
        Ok(defs) => show_wants(lines, &defs, units),
        Err(DefsFault::Many(count)) => show_many(lines, count),
        Err(DefsFault::Text { unit, line }) => show_fault(lines, &unit, line),
        Err(DefsFault::Host(_)) => return Err(Fail::new("a call on the host has failed")),
    }
    Ok(())
}

/// Shows what is asked of the units of a field.
pub fn show_units(
    alloc: Global,
    lines: &mut Lines,
    command: &str,
    host: &mut MemoryHost,
    field: &Bytes,
) -> Result<(), Fail> {
    let units = names_of(alloc, field)?;
    let system = SystemName::parse(alloc, "nix/store/a-sys")?;
    if command == "wanted" {
        return show_wanted(alloc, lines, host, &system, units.as_slice());
    }
    let defs = match command {
        "found" | "pull" => Defs::read_old(alloc, host, &system)?,
        _ => Defs::none(alloc),
    };
    show_by_defs(
        alloc,
        lines,
        command,
        (&defs, host.world().states()),
        &units,
    )
}
