//! What is found of the units of a system while their folder and the fstab are read.
ghost use Rattle.std.specs.Prelude.{◌≡◌, ◌==◌, not, length, [], List, ℕ, None, Some, Option, OnOk, if◌then◌else◌};
ghost use Rattle.std.specs.BTreeMap.{get};
ghost use Rattle.std.specs.Option.{option_copied, option_or};
ghost use Rattle.host_trait.specs.World.{bytes_cmp};
ghost use Rattle.unit_defs.specs.declared.place.UnitPlace.TheVariants.{File, DropIn, Want};
ghost use Rattle.unit_defs.specs.Found.{Joins, Takes, files_in};
ghost use Rattle.unit_defs.specs.Part.{added};
ghost use Rattle.unit_defs.specs.UnitFiles.{ordered_drop_ins};
ghost use Rattle.switch_names.specs.Names.{is_name};
ghost use Rattle.unit_defs.specs.declared.part.FilePart.{FilePart};

use crate::part::FilePart;
use std::alloc::{AllocError, Global};
use std::collections::BTreeMap;
use switch_names::{Listed, Text, UnitName};
use unit_text::UnitText;

/// What is found of one unit.
pub struct UnitFiles {
    /// Its file. A leaf without content is none.
    pub file: Option<FilePart>,
    /// Its drop-ins by their names before `.conf`.
    pub drop_ins: BTreeMap<Text, FilePart>,
    /// The text of its line in the fstab.
    pub line: Option<UnitText>,
    /// The names in its folders of units that it wants, and those that the fstab makes it want.
    pub wants: Listed<UnitName>,
}

/// One call: a derived drop is proved anew in each function that lets one go.
impl Drop for UnitFiles {
    fn drop(self) {
        let UnitFiles {
            file: _,
            drop_ins: _,
            line: _,
            wants: _,
        } = self;
    }
}

impl UnitFiles {
    /// Nothing is found.
    fn new(alloc: Global) -> UnitFiles
        ensures file { result.file ≡ None }
        ensures drop_ins { result.drop_ins.entries ≡ [] }
        ensures line { result.line ≡ None }
        ensures wants { result.wants ≡ [] }
    {
        UnitFiles {
            file: None,
            drop_ins: BTreeMap::new(alloc),
            line: None,
            wants: Listed::new(alloc),
        }
    }

    /// Whether the unit has drop-ins.
    pub fn has_drop_ins(&self) -> bool
        ensures { result ≡ not (length (ordered_drop_ins self.now) == 0) }
    {
        !self.drop_ins.is_empty()
    }

    /// Applies the drop-ins in the order of their names.
    pub fn add_drop_ins(&self, alloc: Global, part: &mut FilePart) -> Result<(), AllocError>
        ensures { OnOk result (part.new ≡ added part.old (ordered_drop_ins self.now)) }
    {
        for drop_in in self.drop_ins.values() {
            part.add(alloc, drop_in)?;
        }
        Ok(())
    }
}

/// What is found of units by their names.
pub struct FoundUnits {
    pub units: BTreeMap<UnitName, UnitFiles>,
}

/// One call: a derived drop is proved anew in each function that lets one go.
impl Drop for FoundUnits {
    fn drop(self) {
        let FoundUnits { units: _ } = self;
    }
}

impl FoundUnits {
    /// Nothing is found.
    pub fn new(alloc: Global) -> FoundUnits
        ensures { result.units.entries ≡ [] }
    {
        FoundUnits {
            units: BTreeMap::new(alloc),
        }
    }

    /// A unit's file is found, where the leaf has content.
    pub fn add_file(
        &mut self,
        alloc: Global,
        unit: UnitName,
        part: Option<FilePart>,
    ) -> Result<(), AllocError>
        ensures { OnOk result (Takes (Some (File unit)) part self.old self.new) }
    {
        let files = self.units.entry(unit)?.or_insert(UnitFiles::new(alloc));
        files.file = part;
        Ok(())
    }

    /// A drop-in of a unit is found, where the leaf has content.
    pub fn add_drop_in(
        &mut self,
        alloc: Global,
        unit: UnitName,
        name: Text,
        part: Option<FilePart>,
    ) -> Result<(), AllocError>
        ensures { OnOk result (Takes (Some (DropIn unit name)) part self.old self.new) }
    {
        let Some(part) = part else {
            return Ok(());
        };
        let files = self.units.entry(unit)?.or_insert(UnitFiles::new(alloc));
        insert_new(&mut files.drop_ins, name, part)
    }

    /// A unit is found that another one wants.
    pub fn add_want(
        &mut self,
        alloc: Global,
        unit: UnitName,
        name: UnitName,
    ) -> Result<(), AllocError>
        ensures { OnOk result ((part : Option FilePart) → Takes (Some (Want unit name)) part self.old self.new) }
    {
        let files = self.units.entry(unit)?.or_insert(UnitFiles::new(alloc));
        files.wants.push(name)
    }

    /// A line of an fstab is found that defines a unit. Of two lines the first stands.
    pub fn add_line(
        &mut self,
        alloc: Global,
        unit: UnitName,
        text: UnitText,
    ) -> Result<(), AllocError>
        ensures { OnOk result (Joins (λ other. if is_name unit other then Some text else None) (λ other. []) self.old self.new) }
    {
        let files = self.units.entry(unit)?.or_insert(UnitFiles::new(alloc));
        let first = files.line.take().unwrap_or(text);
        files.line = Some(first);
        Ok(())
    }

    /// What is found of a unit.
    pub fn files(&self, unit: &UnitName) -> Option<&UnitFiles>
        ensures { option_copied result ≡ files_in self.now unit.now }
    {
        self.units.get(unit)
    }
}

/// Puts a drop-in, where none of that name stands.
fn insert_new(
    drop_ins: &mut BTreeMap<Text, FilePart>,
    name: Text,
    part: FilePart,
) -> Result<(), AllocError>
    ensures { OnOk result ((other : List ℕ) → get bytes_cmp drop_ins.new other ≡ option_or (get bytes_cmp drop_ins.old other) (if is_name name other then Some part else None)) }
{
    drop_ins.entry(name)?.or_insert(part);
    Ok(())
}
