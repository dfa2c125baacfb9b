//! The units of a system.
ghost use Rattle.std.specs.Prelude.{◌≡◌, true, [], List, ℕ, None, Some, IfOk, OnOk, IsErrOf};
ghost use Rattle.std.specs.List.Sorted.{IsStrictlySortedBy};
ghost use Rattle.std.specs.Option.{option_copied};
ghost use Rattle.host_trait.specs.declared.tree.HostFault.TheVariants.{Device};
ghost use Rattle.host_trait.specs.Host.{Told};
ghost use Rattle.host_trait.specs.Reading.{IsReading, IsReadingOf};
ghost use Rattle.host_trait.specs.World.{bytes_cmp};
ghost use Rattle.unit_defs.specs.declared.defs_fault.DefsFault.TheVariants.{Many, Text, Host};
ghost use Rattle.unit_defs.specs.Count.{units_past};
ghost use Rattle.unit_defs.specs.Taken.{NotesLong, takes_units};
ghost use Rattle.unit_defs.specs.Defs.{AreDefsOf, AreNamesOf, AreSorted, first_faulty, found_in, own_in, wanted_in};
ghost use Rattle.unit_defs.specs.Units.{HasNoFault, IsFirstFault, can_be_wanted, first_fault_of};
ghost use Rattle.switch_names.specs.Names.{has};
ghost use Rattle.switch_names.specs.UnitName.{IsUnitName};

use crate::answering::fault::first_fault;
use crate::answering::search::{find_template, find_unit};
use crate::answering::wanting::{find_text, names_of, own_text, wants_of};
use crate::defs_fault::DefsFault;
use crate::reading::read_units;
use crate::unit::{Unit, Wants};
use host_trait::{HostFault, Tree};
use leaf_limits::{UNITS_MAX, past};
use std::alloc::{AllocError, Global};
use std::marker::Model;
use switch_names::{Listed, SystemName, UnitName};
use unit_text::UnitText;

/// The units of a system, and what each wants.
///
/// Contracts see what the folder of units and the fstab say of each unit: what its files say, or else
/// its line in the fstab, and the names in its folders `.wants` and `.requires` with those that the
/// fstab makes it want.
pub struct Defs {
    names: Listed<UnitName>,
    units: Listed<Unit>,
    wants: Listed<Wants>,
    nothing: Listed<UnitName>,
}

/// One call: a derived drop is proved anew in each function that lets one go.
impl Drop for Defs {
    fn drop(self) {
        let Defs {
            names: _,
            units: _,
            wants: _,
            nothing: _,
        } = self;
    }
}

impl Model for Defs {
    ghost use Rattle.std.specs.Prelude.{List};
    ghost use Rattle.unit_defs.specs.declared.unit.Unit.{Unit};
    ghost use Rattle.unit_defs.specs.Defs.{IsDefs};

    ghost Value = { List Unit };

    ghost view = { λ defs. defs.units };

    ghost invariant = { λ defs. IsDefs defs.names defs.units defs.wants defs.nothing };
}

impl Defs {
    /// The units of no system.
    pub fn none(alloc: Global) -> Defs
        ensures { result ≡ [] }
    {
        Defs {
            names: Listed::new(alloc),
            units: Listed::new(alloc),
            wants: Listed::new(alloc),
            nothing: Listed::new(alloc),
        }
    }

    fn from_units(
        alloc: Global,
        units: Listed<Unit>,
        names: Listed<UnitName>,
    ) -> Result<Defs, AllocError>
        requires sorted { AreSorted units }
        requires their_names { AreNamesOf units names }
        ensures { IfOk result (λ defs. defs ≡ units) }
    {
        let wants = wants_of(alloc, units.as_slice())?;
        Ok(Defs {
            names,
            units,
            wants,
            nothing: Listed::new(alloc),
        })
    }

    /// These units, where none of them has a faulty file.
    fn from_sound(
        alloc: Global,
        units: Listed<Unit>,
        names: Listed<UnitName>,
    ) -> Result<Defs, DefsFault>
        requires sorted { AreSorted units }
        requires their_names { AreNamesOf units names }
        ensures defs { IfOk result (λ defs. defs ≡ units) }
        ensures sound { OnOk result (None ≡ first_faulty units) }
        ensures text { (unit : List ℕ) (line : ℕ) → IsErrOf result (Text unit line) → Some (unit, line) ≡ first_faulty units }
        ensures named { (unit : List ℕ) (line : ℕ) → IsErrOf result (Text unit line) → IsUnitName unit }
        ensures few { (count : ℕ) → IsErrOf result (Many count) → ⊥ }
        ensures cause { IsErrOf result (Host Device) → ⊥ }
    {
        if let Some((unit, line)) = first_fault(alloc, units.as_slice())? {
            return Err(DefsFault::Text { unit, line });
        }
        Ok(Defs::from_units(alloc, units, names)?)
    }

    /// Reads the units of a system.
    ///
    /// It lists the folder of units once, and reads each unit file and drop-in and the fstab once.
    pub fn read<T: Tree>(
        alloc: Global,
        host: &mut T,
        system: &SystemName,
    ) -> Result<Defs, DefsFault>
        ensures defs { IfOk result (λ defs. Told (T.host host.old) (λ w. AreDefsOf w.leaves system.now defs)) }
        ensures many { (count : ℕ) → IsErrOf result (Many count) → Told (T.host host.old) (λ w. units_past w.leaves system.now ≡ Some count) }
        ensures few { OnOk result (Told (T.host host.old) (λ w. units_past w.leaves system.now ≡ None)) }
        ensures few_faulty { (unit : List ℕ) (line : ℕ) → IsErrOf result (Text unit line) → Told (T.host host.old) (λ w. units_past w.leaves system.now ≡ None) }
        ensures sound { OnOk result (Told (T.host host.old) (λ w. HasNoFault w.leaves system.now)) }
        ensures text { (unit : List ℕ) (line : ℕ) → IsErrOf result (Text unit line) → Told (T.host host.old) (λ w. IsFirstFault w.leaves system.now unit line) }

        // By the law `first_faults_are_found` that is the first fault among the units with files.
        ensures not_faulty { OnOk result (Told (T.host host.old) (λ w. first_fault_of w.leaves system.now ≡ None)) }
        ensures faulty { (unit : List ℕ) (line : ℕ) → IsErrOf result (Text unit line) → Told (T.host host.old) (λ w. first_fault_of w.leaves system.now ≡ Some (unit, line)) }

        ensures reads { IsReadingOf (T.host host.old) (T.host host.new) (IsErrOf result (Host Device)) }
    {
        let none = Defs::none(alloc);
        let mut long = false;
        Defs::read_beside(alloc, host, system, &none, &mut long)
    }

    /// Reads the units of a system as `read` does, beside those of another system. Where a content that is read has more
    /// than 16 MiB, that is noted.
    ///
    /// What was read of a unit's file there is shared where its bytes are the same here.
    pub fn read_beside<T: Tree>(
        alloc: Global,
        host: &mut T,
        system: &SystemName,
        other: &Defs,
        long: &mut bool,
    ) -> Result<Defs, DefsFault>
        ensures defs { IfOk result (λ defs. Told (T.host host.old) (λ w. AreDefsOf w.leaves system.now defs)) }
        ensures many { (count : ℕ) → IsErrOf result (Many count) → Told (T.host host.old) (λ w. units_past w.leaves system.now ≡ Some count) }
        ensures few { OnOk result (Told (T.host host.old) (λ w. units_past w.leaves system.now ≡ None)) }
        ensures few_faulty { (unit : List ℕ) (line : ℕ) → IsErrOf result (Text unit line) → Told (T.host host.old) (λ w. units_past w.leaves system.now ≡ None) }
        ensures sound { OnOk result (Told (T.host host.old) (λ w. HasNoFault w.leaves system.now)) }
        ensures text { (unit : List ℕ) (line : ℕ) → IsErrOf result (Text unit line) → Told (T.host host.old) (λ w. IsFirstFault w.leaves system.now unit line) }

        // By the law `first_faults_are_found` that is the first fault among the units with files.
        ensures not_faulty { OnOk result (Told (T.host host.old) (λ w. first_fault_of w.leaves system.now ≡ None)) }
        ensures faulty { (unit : List ℕ) (line : ℕ) → IsErrOf result (Text unit line) → Told (T.host host.old) (λ w. first_fault_of w.leaves system.now ≡ Some (unit, line)) }

        ensures short { OnOk result (Told (T.host host.old) (λ w. NotesLong long.old long.new (takes_units w.leaves system.now) w.leaves)) }
        ensures reads { IsReadingOf (T.host host.old) (T.host host.new) (IsErrOf result (Host Device)) }
    {
        let units = read_units(alloc, host, system, other, long)?;
        let names = names_of(alloc, units.as_slice())?;
        if let Some(count) = past(UNITS_MAX, names.as_slice().len() as u64) {
            return Err(DefsFault::Many(count));
        }
        Defs::from_sound(alloc, units, names)
    }

    /// Reads the units of a system that is in use. A file that can't be read counts as an empty one.
    pub fn read_old<T: Tree>(
        alloc: Global,
        host: &mut T,
        system: &SystemName,
    ) -> Result<Defs, HostFault>
        ensures defs { IfOk result (λ defs. Told (T.host host.old) (λ w. AreDefsOf w.leaves system.now defs)) }
        ensures reads { IsReading (T.host host.old) (T.host host.new) result }
    {
        let mut long = false;
        Defs::read_old_noted(alloc, host, system, &mut long)
    }

    /// Reads the units of a system as `read_old` does. Where a content that is read has more than 16 MiB, that is noted.
    pub fn read_old_noted<T: Tree>(
        alloc: Global,
        host: &mut T,
        system: &SystemName,
        long: &mut bool,
    ) -> Result<Defs, HostFault>
        ensures defs { IfOk result (λ defs. Told (T.host host.old) (λ w. AreDefsOf w.leaves system.now defs)) }
        ensures short { OnOk result (Told (T.host host.old) (λ w. NotesLong long.old long.new (takes_units w.leaves system.now) w.leaves)) }
        ensures reads { IsReading (T.host host.old) (T.host host.new) result }
    {
        let none = Defs::none(alloc);
        let old_units = read_units(alloc, host, system, &none, long)?;
        let names = names_of(alloc, old_units.as_slice())?;
        Ok(Defs::from_units(alloc, old_units, names)?)
    }

    /// The text that a unit has of its own.
    pub(crate) fn own_text(&self, unit: &UnitName) -> Option<&UnitText>
        ensures { option_copied result ≡ own_in self.now unit.now }
    {
        own_text(self.units.as_slice(), unit)
    }

    /// The text of a unit: its own, or else its template's.
    pub fn find(&self, unit: &UnitName) -> Option<&UnitText>
        ensures { option_copied result ≡ found_in self.now unit.now }
    {
        find_text(self.units.as_slice(), unit)
    }

    /// The names of the units that have a text of their own, in byte order.
    pub fn names(&self) -> &Listed<UnitName>
        ensures { AreNamesOf self.now result.now }
    {
        &self.names
    }

    /// The units that a unit wants, in byte order: those that are defined and no templates, among
    /// the names in its folders `.wants` and `.requires`, the words of `Wants` and `Requires` in the
    /// section `Unit` of its text, and what the fstab makes it want: for `local-fs.target` the mounts
    /// without `noauto`, and for `swap.target` the swaps.
    pub fn wanted(&self, unit: &UnitName) -> &Listed<UnitName>
        ensures wanted { result.now ≡ wanted_in self.now unit.now }

        // So they are sorted, and each of them is defined and no template.
        ensures sorted { IsStrictlySortedBy bytes_cmp result.now }
        ensures each { (name : List ℕ) → has result.now name ≡ true → can_be_wanted (own_in self.now) name ≡ true }
    {
        let _name = unit.as_str();
        if let Some(at) = find_unit(self.units.as_slice(), unit) {
            return &self.wants.as_slice()[at].whole;
        }
        match find_template(self.units.as_slice(), unit) {
            Some(at) => &self.wants.as_slice()[at].by_text,
            None => &self.nothing,
        }
    }
}
