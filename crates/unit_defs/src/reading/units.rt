//! Makes the units of a system of what was found.
ghost use Rattle.std.specs.Prelude.{◌≡◌, IfOk, OnOk, Some, map, option_map, option_and_then};
ghost use Rattle.std.specs.BTreeMap.{keys};
ghost use Rattle.std.specs.List.Sorted.{IsStrictlySortedBy};
ghost use Rattle.std.specs.Option.{option_copied};
ghost use Rattle.switch_names.specs.UnitName.{template_of};
ghost use Rattle.host_trait.specs.World.{bytes_cmp};
ghost use Rattle.unit_defs.specs.Found.{files_in, unit_of};
ghost use Rattle.unit_defs.specs.Part.{line_part};
ghost use Rattle.unit_defs.specs.UnitFiles.{base_from, part_from, with_drop_ins};

use super::found::{FoundUnits, UnitFiles};
use crate::part::FilePart;
use crate::unit::{Unit, copies};
use std::alloc::{AllocError, Global};
use switch_names::{Listed, UnitName};

/// The file on which the text of a unit is based.
fn base<'a>(own: &'a UnitFiles, template: Option<&'a UnitFiles>) -> Option<&'a FilePart>
    ensures { option_copied result ≡ base_from own.now (option_copied template.entry) }
{
    if let Some(file) = &own.file {
        return Some(file);
    }
    if !own.has_drop_ins() {
        return None;
    }
    template?.file.as_ref()
}

/// Applies the drop-ins of a unit, after those of its template.
fn add_both(
    alloc: Global,
    own: &UnitFiles,
    template: Option<&UnitFiles>,
    part: &mut FilePart,
) -> Result<(), AllocError>
    ensures { OnOk result (part.new ≡ with_drop_ins own.now (option_copied template.entry) part.old) }
{
    if let Some(template) = template {
        template.add_drop_ins(alloc, part)?;
    }
    own.add_drop_ins(alloc, part)
}

/// What the files of a unit say.
fn file_part(
    alloc: Global,
    own: &UnitFiles,
    template: Option<&UnitFiles>,
) -> Result<Option<FilePart>, AllocError>
    ensures { IfOk result (λ part. part ≡ option_map (with_drop_ins own.now (option_copied template.entry)) (base_from own.now (option_copied template.entry))) }
{
    let Some(base) = base(own, template) else {
        return Ok(None);
    };
    let mut part = base.copy(alloc)?;
    add_both(alloc, own, template, &mut part)?;
    Ok(Some(part))
}

/// What the line of a unit in the fstab says.
fn line_part(alloc: Global, own: &UnitFiles) -> Result<Option<FilePart>, AllocError>
    ensures { IfOk result (λ part. part ≡ option_map line_part own.now.line) }
{
    match &own.line {
        Some(line) => Ok(Some(FilePart {
            text: line.copy(alloc)?,
            fault: None,
        })),
        None => Ok(None),
    }
}

/// What the files of a unit say, or else its line in the fstab.
fn own_part(
    alloc: Global,
    own: &UnitFiles,
    template: Option<&UnitFiles>,
) -> Result<Option<FilePart>, AllocError>
    ensures { IfOk result (λ part. part ≡ part_from own.now (option_copied template.entry)) }
{
    if let Some(part) = file_part(alloc, own, template)? {
        return Ok(Some(part));
    }
    line_part(alloc, own)
}

/// What was found of the template of a unit.
fn template_files<'a>(
    alloc: Global,
    found: &'a FoundUnits,
    name: &UnitName,
) -> Result<Option<&'a UnitFiles>, AllocError>
    ensures { IfOk result (λ files. option_copied files ≡ option_and_then (files_in found.now) (template_of name.now)) }
{
    match name.template(alloc)? {
        Some(template) => Ok(found.files(&template)),
        None => Ok(None),
    }
}

/// A unit, of which this was found.
fn unit_of(
    alloc: Global,
    found: &FoundUnits,
    name: &UnitName,
    own: &UnitFiles,
) -> Result<Unit, AllocError>
    requires { files_in found.now name.now ≡ Some own.now }
    ensures { IfOk result (λ unit. unit ≡ unit_of found.now name.now) }
{
    let template = template_files(alloc, found, name)?;
    Ok(Unit {
        name: name.copy(alloc)?,
        part: own_part(alloc, own, template)?,
        wants: copies(alloc, own.wants.as_slice())?,
    })
}

/// The units that were found, in byte order.
pub fn units_of(alloc: Global, found: &FoundUnits) -> Result<Listed<Unit>, AllocError>
    ensures units { IfOk result (λ units. units ≡ map (unit_of found.now) (keys found.now.units)) }
    ensures ordered { IsStrictlySortedBy bytes_cmp (keys found.now.units) }
{
    let mut units = Listed::new(alloc);
    for (name, own) in &found.units {
        units.push(unit_of(alloc, found, name, own)?)?;
    }
    Ok(units)
}
