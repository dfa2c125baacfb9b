//! The targets from which units are pulled.
ghost use Rattle.std.specs.Prelude.{◌≡◌, ◌||◌, IfOk, List, OnOk, filter};
ghost use Rattle.host_trait.specs.States.{state_of, units_of};
ghost use Rattle.log_text.specs.declared.lists.Lists.{Lists};
ghost use Rattle.switch_names.specs.Names.{IsListOf, Name, has};
ghost use Rattle.unit_defs.specs.declared.unit.Unit.{Unit};
ghost use Rattle.unit_defs.specs.Defs.{found_in};
ghost use Rattle.owed_plan.specs.Lists.{pending};
ghost use Rattle.owed_plan.specs.Pull.{IsRoot};
ghost use Rattle.owed_plan.specs.Roots.{is_defined_target, is_running_target, may_run};
ghost use Rattle.owed_plan.specs.Systems.{systems_in};

use host_trait::{States, UnitSet, UnitState};
use std::alloc::{AllocError, Global};
use switch_names::{Listed, UnitName};
use unit_decide::{is_target, may_start};
use unit_defs::Defs;

/// Whether a unit is a target that has a text.
fn is_defined_target(new: &Defs, unit: &UnitName) -> bool
    ensures { result ≡ is_defined_target (found_in new.now) unit.now }
{
    if !is_target(unit.kind()) {
        return false;
    }
    new.find(unit).is_some()
}

/// Whether a unit has a text by which a switch may start it.
fn may_run(new: &Defs, unit: &UnitName) -> bool
    ensures { result ≡ may_run (found_in new.now unit.now) }
{
    match new.find(unit) {
        Some(text) => may_start(text),
        None => false,
    }
}

/// Whether a unit is an Active target that may start.
fn is_running_target(new: &Defs, unit: &UnitState) -> bool
    ensures { result ≡ is_running_target (found_in new.now) unit.now }
{
    if !unit.state.is_active() || !is_target(unit.unit.kind()) {
        return false;
    }
    may_run(new, &unit.unit)
}

/// Adds those of some units that are Active targets and may start.
fn add_running(
    alloc: Global,
    new: &Defs,
    roots: &mut UnitSet,
    units: &[UnitState],
) -> Result<(), AllocError>
    ensures { OnOk result ((name : Name) → has roots.new name ≡ (has roots.old name || has (units_of (filter (is_running_target (found_in new.now)) units.now)) name)) }
{
    for unit in units {
        if is_running_target(new, unit) {
            roots.insert(unit.unit.copy(alloc)?)?;
        }
    }
    Ok(())
}

/// Adds those of some units that are targets and have a text.
fn add_pending(
    alloc: Global,
    new: &Defs,
    roots: &mut UnitSet,
    units: &[UnitName],
) -> Result<(), AllocError>
    ensures { OnOk result ((name : Name) → has roots.new name ≡ (has roots.old name || has (filter (is_defined_target (found_in new.now)) units.now) name)) }
{
    for unit in units {
        if is_defined_target(new, unit) {
            roots.insert(unit.copy(alloc)?)?;
        }
    }
    Ok(())
}

/// The targets from which units are pulled, in byte order: those of the new system that are Active
/// and may start, and those that wait for a start.
///
/// Source: systemd.unit(5), "Wants=", and NixOS manual, "Unit handling".
pub fn roots(
    alloc: Global,
    new: &Defs,
    states: &States,
    starts: &Listed<UnitName>,
) -> Result<Listed<UnitName>, AllocError>
    ensures { IfOk result (λ roots. (old : List Unit) (lists : Lists) → pending lists ≡ starts.now → IsListOf roots (IsRoot (systems_in old new.now) (state_of states.now) lists)) }
{
    let mut roots = UnitSet::new(alloc);
    add_running(alloc, new, &mut roots, states.list().as_slice())?;
    add_pending(alloc, new, &mut roots, starts.as_slice())?;
    roots.into_names(alloc)
}
