//! How many units the systems have.
ghost use Rattle.std.specs.Prelude.{◌≡◌, IfOk, Option, option_and_then};
ghost use Rattle.host_trait.specs.Host.{Told};
ghost use Rattle.host_trait.specs.Reading.{IsReading};
ghost use Rattle.host_trait.specs.World.{Leaves};
ghost use Rattle.owed_plan.specs.Systems.{AreOldDefs};
ghost use Rattle.switch_names.specs.Names.{Name};
ghost use Rattle.switch_parts.specs.Limits.{too_many};
ghost use Rattle.switch_parts.specs.declared.refusal.What.TheVariants.{Units};
ghost use Rattle.unit_defs.specs.Count.{units_past};
ghost use Rattle.unit_stage.specs.System.{old_units_past, units_too_many};

use crate::system::current_system;
use host_trait::{HostFault, Tree};
use leaf_limits::{UNITS_MAX, past};
use std::alloc::Global;
use switch_names::SystemName;
use switch_parts::{Refusal, What, too_many};
use unit_defs::{Defs, count};

/// How many units a system in use has, where these are too many.
pub fn old_past(old: &Defs) -> Option<u64>
    ensures { (leaves : Leaves) (system : Option Name) → AreOldDefs leaves system old.now → result ≡ option_and_then (units_past leaves) system }
{
    past(UNITS_MAX, old.names().as_slice().len() as u64)
}

/// The refusal of a system whose units are too many.
fn too_many_of<T: Tree>(
    alloc: Global,
    host: &mut T,
    system: &SystemName,
) -> Result<Option<Refusal>, HostFault>
    ensures refusal { IfOk result (λ why. Told (T.host host.old) (λ w. why ≡ too_many Units (units_past w.leaves system.now))) }
    ensures reads { IsReading (T.host host.old) (T.host host.new) result }
{
    let count = count(alloc, host, system)?;
    Ok(too_many(What::Units, past(UNITS_MAX, count)))
}

/// The refusal of the system in use, where its units are too many.
fn too_many_in_use<T: Tree>(alloc: Global, host: &mut T) -> Result<Option<Refusal>, HostFault>
    ensures refusal { IfOk result (λ why. Told (T.host host.old) (λ w. why ≡ too_many Units (old_units_past w.leaves))) }
    ensures reads { IsReading (T.host host.old) (T.host host.new) result }
{
    let Some(system) = current_system(alloc, host)? else {
        return Ok(None);
    };
    too_many_of(alloc, host, &system)
}

/// The refusal of too many units, where the system that would come into use has them, or else the
/// one in use.
///
/// It reads each unit file and drop-in of a system once. A switch needs no call of it, as
/// `plan_units` is refused by the same counts.
pub fn too_many_units<T: Tree>(
    alloc: Global,
    host: &mut T,
    system: &SystemName,
) -> Result<Option<Refusal>, HostFault>
    ensures refusal { IfOk result (λ why. Told (T.host host.old) (λ w. why ≡ units_too_many w.leaves system.now)) }
    ensures reads { IsReading (T.host host.old) (T.host host.new) result }
{
    if let Some(why) = too_many_of(alloc, host, system)? {
        return Ok(Some(why));
    }
    too_many_in_use(alloc, host)
}
