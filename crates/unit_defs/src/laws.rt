//! Laws of the files of units, in the words of their names.
ghost use Rattle.std.specs.Prelude.{◌≡◌, ◌↔◌, true, is_some, List, ℕ, None, Some};
ghost use Rattle.std.specs.List.Sorted.{IsStrictlySortedBy};
ghost use Rattle.host_trait.specs.World.{Leaves, bytes_cmp};
ghost use Rattle.switch_names.specs.Names.{has};
ghost use Rattle.switch_names.specs.UnitName.{IsUnitName};
ghost use Rattle.unit_defs.specs.declared.unit.Unit.{Unit};
ghost use Rattle.unit_defs.specs.Count.{unit_names};
ghost use Rattle.unit_defs.specs.Defs.{AreDefsOf, AreNamesOf};
ghost use Rattle.unit_defs.specs.Place.{ArePlacesNamed};
ghost use Rattle.unit_defs.specs.Units.{HasNoFault, IsFirstFault, first_fault_of, own_text};

/// A leaf is a unit's file, a drop-in or a wanted unit exactly where its path says so: `<unit>`,
/// `<unit>.d/<name>.conf`, `<unit>.wants/<name>` or `<unit>.requires/<name>` in the folder of units.
///
/// Source: systemd.unit(5), "Description".
pub fn places_are_named()
    ensures { ArePlacesNamed }
{}

/// The first faulty unit among those with a file or a drop-in is the first of all units, and where
/// none of them is faulty, no unit is.
pub fn first_faults_are_found()
    ensures first { (leaves : Leaves) (system unit : List ℕ) (line : ℕ) → (first_fault_of leaves system ≡ Some (unit, line)) ↔ IsFirstFault leaves system unit line }
    ensures none { (leaves : Leaves) (system : List ℕ) → (first_fault_of leaves system ≡ None) ↔ HasNoFault leaves system }
{}

/// The units that are counted are those with a text of their own, each once, and the names that are
/// kept of a system are these.
pub fn units_are_counted()
    ensures sorted { (leaves : Leaves) (system : List ℕ) → IsStrictlySortedBy bytes_cmp (unit_names leaves system) }
    ensures exact { (leaves : Leaves) (system unit : List ℕ) → (has (unit_names leaves system) unit ≡ true) ↔ (IsUnitName unit × (is_some (own_text leaves system unit) ≡ true)) }
    ensures kept { (leaves : Leaves) (system : List ℕ) (units : List Unit) (names : List (List ℕ)) → AreDefsOf leaves system units → AreNamesOf units names → names ≡ unit_names leaves system }
{}
