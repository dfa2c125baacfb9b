//! The units of fstabs, by fstab(5), systemd.mount(5) and systemd.swap(5).
use crate::writing::show_value;
use fstab_mounts::{FsUnit, mount_unit, parse, swap_unit};
use std::alloc::Global;
use std::test::Fail;
use switch_names::{Bytes, NameFault, UnitName};
use unit_text::UnitText;
use world_text::{Lines, text_of};

/// Shows the name of a unit, or why there is none.
fn show_unit_name(lines: &mut Lines, unit: &Result<UnitName, NameFault>) {
    match unit {
        Ok(unit) => lines.add_word(unit.as_str()),
        Err(fault) => lines.add_value(fault),
    }
}

/// Shows the name of the unit of a mount point.
pub fn show_mount(alloc: Global, lines: &mut Lines, text: &Bytes) -> Result<(), Fail> {
    show_unit_name(lines, &mount_unit(alloc, text_of(text)?));
    Ok(())
}

/// Shows the name of the unit of a swap device.
pub fn show_swap(alloc: Global, lines: &mut Lines, text: &Bytes) -> Result<(), Fail> {
    show_unit_name(lines, &swap_unit(alloc, text_of(text)?));
    Ok(())
}

/// Shows the names of the units of an fstab.
pub fn show_fstab(alloc: Global, lines: &mut Lines, text: &[u8]) -> Result<(), Fail> {
    let units = parse(alloc, text)?;
    for unit in units.as_slice() {
        lines.add_word(unit.unit.as_str());
        lines.end_line();
    }
    Ok(())
}

/// Shows each key that a line assigns in its unit's text after its section, with its values.
fn show_keys(lines: &mut Lines, text: &UnitText) {
    for at in text.parts().changed_keys {
        let (section, key) = (at.section.as_str(), at.key.as_str());
        lines.add_word(section);
        lines.add_word(key);
        show_value(lines, &text.values(section, key));
    }
}

/// Shows the name of a unit, whether it is started with the system, and what it says.
fn show_unit(lines: &mut Lines, unit: &FsUnit) {
    lines.add_word(unit.unit.as_str());
    lines.add_word("auto");
    show_value(lines, &unit.auto);
    show_keys(lines, &unit.text);
}

/// Shows the units of an fstab with what they say.
pub fn show_units(alloc: Global, lines: &mut Lines, text: &[u8]) -> Result<(), Fail> {
    let units = parse(alloc, text)?;
    for unit in units.as_slice() {
        show_unit(lines, unit);
    }
    Ok(())
}
