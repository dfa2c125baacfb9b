//! Reads an fstab line by line.
ghost use Rattle.std.specs.Prelude.{◌≡◌, ◌≢◌, ◌==◌, ◌||◌, ◌++◌, ◌∷◌, [], map, not, IfOk, OnOk};
ghost use Rattle.std.specs.List.{AllByRecursion, filter_map, slice_split};
ghost use Rattle.switch_names.specs.Names.{Name, has, is_name};
ghost use Rattle.fstab_mounts.specs.Fstab.{first_of_each, fstab_units, unit_of_entry, unit_of_fields, unit_of_line, units_in};

use crate::fields::{fields_of, is_word, unescaped};
use crate::fs_unit::{FsUnit, mount_of, swap_of};
use std::alloc::{AllocError, Global};
use std::collections::BTreeSet;
use switch_names::{Listed, UnitName};

/// The unit that the fields of a line give.
fn unit_of_entry(
    alloc: Global,
    what: &str,
    place: &str,
    kind: &str,
    options: &str,
) -> Result<Option<FsUnit>, AllocError>
    requires what { what.now ≢ [] }
    requires place { place.now ≢ [] }
    requires kind { kind.now ≢ [] }
    requires options { options.now ≢ [] }
    ensures { IfOk result (λ unit. unit ≡ unit_of_entry what.now place.now kind.now options.now) }
{
    if what.starts_with('#') {
        return Ok(None);
    }
    let what = unescaped(alloc, what)?;
    if is_word(kind, "swap") {
        return swap_of(alloc, what.as_str(), options);
    }
    let place = unescaped(alloc, place)?;
    if !place.as_str().starts_with('/') {
        return Ok(None);
    }
    mount_of(alloc, what.as_str(), place.as_str(), kind, options)
}

/// The unit that the fields of a line give, if there are enough of them.
fn unit_of_fields(alloc: Global, fields: &[&str]) -> Result<Option<FsUnit>, AllocError>
    requires { AllByRecursion (λ field. field.now ≢ []) fields.now }
    ensures { IfOk result (λ unit. unit ≡ unit_of_fields (map (λ field. field.now) fields.now)) }
{
    match fields {
        [what, place, kind, options, ..] => unit_of_entry(alloc, what, place, kind, options),
        _ => Ok(None),
    }
}

/// The unit that a line gives.
fn unit_of_line(alloc: Global, line: &[u8]) -> Result<Option<FsUnit>, AllocError>
    ensures { IfOk result (λ unit. unit ≡ unit_of_line line.now) }
{
    let Ok(text) = std::str::from_utf8(line) else {
        return Ok(None);
    };
    let fields = fields_of(alloc, text)?;
    unit_of_fields(alloc, fields.as_slice())
}

/// Adds the unit that a line gives, if it does.
fn add_line(alloc: Global, units: &mut Vec<FsUnit>, line: &[u8]) -> Result<(), AllocError>
    ensures { OnOk result (units.new.items ≡ units.old.items ++ filter_map unit_of_line (line.now ∷ [])) }
{
    if let Some(unit) = unit_of_line(alloc, line)? {
        units.push(unit)?;
    }
    Ok(())
}

/// The units of all lines, in their order.
fn units_in(alloc: Global, bytes: &[u8]) -> Result<Vec<FsUnit>, AllocError>
    ensures { IfOk result (λ units. units.items ≡ units_in bytes.now) }
{
    let mut units = Vec::new(alloc);
    for line in bytes.split(|byte| *byte == b'\n') {
        add_line(alloc, &mut units, line)?;
    }
    Ok(units)
}

/// The units without those that have the name of an earlier one.
fn first_of_each(alloc: Global, units: Vec<FsUnit>) -> Result<Listed<FsUnit>, AllocError>
    ensures { IfOk result (λ first. first ≡ first_of_each units.items) }
{
    let mut names = BTreeSet::new(alloc);
    let mut first = Listed::new(alloc);
    for unit in units {
        if names.insert(unit.unit.copy(alloc)?)? {
            first.push(unit)?;
        }
    }
    Ok(first)
}

/// Reads an fstab: fstab(5), and for what its lines give systemd.mount(5) and systemd.swap(5).
///
/// A line that gives no unit is passed over: a comment, one that isn't UTF-8 or has fewer than four
/// fields, one that is neither a swap nor mounted at an absolute path, and one whose unit's name
/// would be too long. Of two lines with one unit the first stands.
pub fn parse(alloc: Global, bytes: &[u8]) -> Result<Listed<FsUnit>, AllocError>
    ensures { IfOk result (λ units. units ≡ fstab_units bytes.now) }
{
    first_of_each(alloc, units_in(alloc, bytes)?)
}
