//! What is pulled from some units.
ghost use Rattle.std.specs.Prelude.{◌≡◌, ◌+◌, ◌<◌, ◌^◌, ◌||◌, ◌&&◌, not, IfOk, IsTrue, List, OnOk, length, vec_len};
ghost use Rattle.host_trait.specs.declared.unit_state.State.{State};
ghost use Rattle.log_text.specs.declared.lists.Lists.{Lists};
ghost use Rattle.switch_names.specs.Names.{IsListOf, Name, has, is_name};
ghost use Rattle.unit_defs.specs.declared.unit.Unit.{Unit};
ghost use Rattle.unit_defs.specs.Defs.{wanted_in};
ghost use Rattle.unit_defs.specs.Pull.{Reached};
ghost use Rattle.owed_plan.specs.Pull.{IsRoot, Pulled};
ghost use Rattle.owed_plan.specs.Systems.{systems_in};

use host_trait::UnitSet;
use std::alloc::{AllocError, Global};
use switch_names::{Listed, UnitName};
use unit_defs::Defs;

/// Adds a unit to those that are reached, and where it is new also to those that are left to walk.
fn reach(
    alloc: Global,
    reached: &mut UnitSet,
    left: &mut Vec<UnitName>,
    unit: &UnitName,
) -> Result<(), AllocError>
    ensures added { OnOk result ((name : Name) → has reached.new name ≡ (has reached.old name || is_name name unit.now)) }
    ensures pushed { OnOk result ((name : Name) → has left.new.items name ≡ (has left.old.items name || (is_name name unit.now && not (has reached.old name)))) }
    ensures as_many { OnOk result (vec_len left.new + length reached.old ≡ vec_len left.old + length reached.new) }
{
    if reached.insert(unit.copy(alloc)?)? {
        left.push(unit.copy(alloc)?)?;
    }
    Ok(())
}

/// Adds units to those that are reached, and the new ones also to those that are left to walk.
fn reach_all(
    alloc: Global,
    reached: &mut UnitSet,
    left: &mut Vec<UnitName>,
    units: &[UnitName],
) -> Result<(), AllocError>
    ensures added { OnOk result ((name : Name) → has reached.new name ≡ (has reached.old name || has units.now name)) }
    ensures pushed { OnOk result ((name : Name) → has left.new.items name ≡ (has left.old.items name || (has units.now name && not (has reached.old name)))) }
    ensures as_many { OnOk result (vec_len left.new + length reached.old ≡ vec_len left.old + length reached.new) }
    ensures fits { OnOk result (length reached.new < 2 ^ 63) }
{
    for unit in units {
        reach(alloc, reached, left, unit)?;
    }

    // A set has less than 2^63 names, and so there is an end to what is left to walk.
    let _count = reached.len();
    Ok(())
}

/// The least set of units that has the roots and what its members want, in byte order.
///
/// Source: systemd.unit(5), "Wants=".
pub fn pull(
    alloc: Global,
    new: &Defs,
    roots: &Listed<UnitName>,
) -> Result<Listed<UnitName>, AllocError>
    ensures reached { IfOk result (λ pulled. IsListOf pulled (Reached (wanted_in new.now) (λ unit. IsTrue (has roots.now unit)))) }
    ensures pulled { IfOk result (λ pulled. (old : List Unit) (states : Name → State) (lists : Lists) →
        IsListOf roots.now (IsRoot (systems_in old new.now) states lists) → IsListOf pulled (Pulled (systems_in old new.now) states lists)) }
{
    let mut reached = UnitSet::new(alloc);
    let mut left = Vec::new(alloc);
    reach_all(alloc, &mut reached, &mut left, roots.as_slice())?;
    while let Some(unit) = left.pop() {
        let wanted = new.wanted(&unit);
        reach_all(alloc, &mut reached, &mut left, wanted.as_slice())?;
    }
    reached.into_names(alloc)
}
