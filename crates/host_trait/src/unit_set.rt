//! A set of units that contracts see as their names in order.
ghost use Rattle.std.specs.Prelude.{◌≡◌, ◌||◌, ◌+◌, ◌<◌, ◌^◌, [], not, length, true, IfOk, OnErr, OnOk, if◌then◌else◌};
ghost use Rattle.std.specs.Cmp.Lexicographic.{slice_cmp};
ghost use Rattle.std.specs.List.Sorted.{IsStrictlySortedBy};
ghost use Rattle.std.specs.Ordering.{nat_cmp};
ghost use Rattle.switch_names.specs.Names.{Name, has, is_name};

use std::alloc::{AllocError, Global};
use std::collections::BTreeSet;
use std::marker::Model;
use switch_names::{Listed, UnitName};

/// Names of units in byte order, each once.
pub struct UnitSet {
    units: BTreeSet<UnitName>,
}

/// One call: a derived drop is proved anew in each function that lets one go.
impl Drop for UnitSet {
    fn drop(self) {
        let UnitSet { units: _ } = self;
    }
}

impl Model for UnitSet {
    ghost use Rattle.std.specs.Prelude.{List, ℕ};

    ghost Value = { List (List ℕ) };

    ghost view = { λ set. set.units.keys };
}

impl UnitSet {
    /// The empty set.
    pub fn new(alloc: Global) -> UnitSet
        ensures { result ≡ [] }
    {
        UnitSet {
            units: BTreeSet::new(alloc),
        }
    }

    /// The units of a list.
    pub fn of(alloc: Global, units: &[UnitName]) -> Result<UnitSet, AllocError>
        ensures { IfOk result (λ set. (name : Name) → has set name ≡ has units.now name) }
    {
        let mut set = UnitSet::new(alloc);
        set.insert_all(alloc, units)?;
        Ok(set)
    }

    /// Adds a unit, and says whether it is new.
    ///
    /// Where memory is wanting, the set stays as it is and the name is dropped.
    pub fn insert(&mut self, unit: UnitName) -> Result<bool, AllocError>
        ensures added { OnOk result ((name : Name) → has self.new name ≡ (has self.old name || is_name name unit)) }
        ensures is_new { IfOk result (λ is_new. is_new ≡ not (has self.old unit)) }
        ensures len { IfOk result (λ is_new. length self.new ≡ length self.old + (if is_new then 1 else 0)) }
        ensures kept { OnErr result (self.new ≡ self.old) }
    {
        Ok(self.units.insert(unit)?)
    }

    /// Adds the units of a list.
    ///
    /// Where memory is wanting, some of them may be added, and no unit is lost.
    pub fn insert_all(&mut self, alloc: Global, units: &[UnitName]) -> Result<(), AllocError>
        ensures added { OnOk result ((name : Name) → has self.new name ≡ (has self.old name || has units.now name)) }
        ensures kept { OnErr result ((name : Name) → has self.old name ≡ true → has self.new name ≡ true) }
        ensures no_other { OnErr result ((name : Name) → has self.new name ≡ true → (has self.old name || has units.now name) ≡ true) }
    {
        for unit in units {
            self.insert(unit.copy(alloc)?)?;
        }
        Ok(())
    }

    /// Whether a unit is there.
    pub fn contains(&self, unit: &UnitName) -> bool
        ensures { result ≡ has self.now unit.now }
    {
        self.units.contains(unit)
    }

    /// How many units there are.
    pub fn len(&self) -> usize
        ensures len { result ≡ length self.now }
        ensures small { result < 2 ^ 63 }
    {
        self.units.len()
    }

    /// The names in byte order.
    pub fn into_names(self, alloc: Global) -> Result<Listed<UnitName>, AllocError>
        ensures names { IfOk result (λ names. names ≡ self) }
        ensures sorted { IsStrictlySortedBy (slice_cmp nat_cmp) self }
    {
        let UnitSet { units } = self;
        Listed::of_set(alloc, units)
    }
}
