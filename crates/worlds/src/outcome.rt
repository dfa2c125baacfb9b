//! How calls on hosts end, and what hosts tell of units.
use crate::fields::no_memory;
use crate::writing::show_value;
use host_trait::{HostFault, States};
use std::test::Fail;
use switch_names::UnitName;
use world_text::Lines;

/// The word for how a call ended.
pub fn word_of<T>(answer: &Result<T, HostFault>) -> Result<&'static str, Fail> {
    match answer {
        Ok(_) => Ok("whole"),
        Err(HostFault::Device) => Ok("Device"),
        Err(HostFault::Memory) => no_memory(),
    }
}

/// Shows the count of a host's or a sink's faults, at the end of a line.
pub fn show_faults(lines: &mut Lines, faults: u64) {
    lines.add_word("faults");
    show_value(lines, &faults);
}

/// Shows the state that a host has told of a unit, or the fault.
pub fn show_told(
    lines: &mut Lines,
    told: &Result<States, HostFault>,
    unit: &UnitName,
) -> Result<(), Fail> {
    lines.add_word("told");
    match told {
        Ok(states) => lines.add_value(&states.of(unit)),
        Err(HostFault::Device) => lines.add_word("Device"),
        Err(HostFault::Memory) => return no_memory(),
    }
    Ok(())
}
