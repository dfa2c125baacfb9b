//! The calls by which what is owed is given.
use super::lists::standing_on;
use crate::fields::names_of;
use crate::writing::show_names;
use host_memory::MemoryHost;
use host_trait::States;
use log_text::Lists;
use owed_plan::{Owed, calls, plan};
use start_order::Ordered;
use std::alloc::{AllocError, Global};
use std::test::Fail;
use switch_names::{Bytes, Listed, UnitName};
use unit_defs::Defs;
use world_text::{Lines, misread};

/// Units in their order, without an edge.
fn without_edges(alloc: Global, units: &[UnitName]) -> Result<Ordered, AllocError> {
    let mut ordered = Ordered {
        units: Listed::new(alloc),
        edges: Listed::new(alloc),
        broken: Listed::new(alloc),
        cycles: Listed::new(alloc),
    };
    for unit in units {
        ordered.units.push(unit.copy(alloc)?)?;
    }
    Ok(ordered)
}

/// Shows the units that are left, and the calls in some states, a line each.
fn show_calls(
    alloc: Global,
    lines: &mut Lines,
    owed: &Owed,
    states: &States,
) -> Result<(), AllocError> {
    show_names(lines, "left", owed.left.as_slice());
    let ordered = without_edges(alloc, owed.lists.starts.as_slice())?;
    let duties = calls(alloc, owed, &ordered, states)?;
    for duty in duties.as_slice() {
        lines.add_value(&duty.act);
        lines.add_word(duty.unit.as_str());
        lines.end_line();
    }
    Ok(())
}

/// Shows the units that are left, and the calls of what five fields give.
pub fn show_calls_of(
    alloc: Global,
    lines: &mut Lines,
    states: &States,
    given: &[Bytes],
) -> Result<(), Fail> {
    let [stops, reloads, restarts, starts, left, ..] = given else {
        return misread();
    };
    let owed = Owed {
        stops: names_of(alloc, stops)?,
        lists: Lists {
            starts: names_of(alloc, starts)?,
            restarts: names_of(alloc, restarts)?,
            reloads: names_of(alloc, reloads)?,
        },
        left: names_of(alloc, left)?,
    };
    Ok(show_calls(alloc, lines, &owed, states)?)
}

/// What is owed between two systems without units.
fn owed_without_units(alloc: Global, states: &States, lists: &Lists) -> Result<Owed, AllocError> {
    let none = Defs::none(alloc);
    plan(alloc, &none, &none, states, lists, &Listed::new(alloc))
}

/// Shows the units that are left between two systems without units, and the calls, by the states and
/// the lists of a host.
pub fn show_owed(alloc: Global, lines: &mut Lines, host: &mut MemoryHost) -> Result<(), Fail> {
    let standing = standing_on(alloc, host)?;
    let states = host.world().states();
    let owed = owed_without_units(alloc, states, &standing.lists)?;
    Ok(show_calls(alloc, lines, &owed, states)?)
}
