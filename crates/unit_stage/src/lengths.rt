//! How long the contents are that the units are read from.
ghost use Rattle.std.specs.Prelude.{◌≡◌, ◌++◌, false, None, Some, IfOk, IsErrOf, OnOk};
ghost use Rattle.host_trait.specs.declared.tree.HostFault.TheVariants.{Device};
ghost use Rattle.host_trait.specs.Host.{Told};
ghost use Rattle.host_trait.specs.Reading.{IsReading, IsReadingOf};
ghost use Rattle.leaf_limits.specs.Limits.{AreTaken};
ghost use Rattle.switch_parts.specs.declared.plan_fault.PlanFault.TheVariants.{Host, Refused};
ghost use Rattle.switch_parts.specs.declared.refusal.Refusal.{Refusal};
ghost use Rattle.unit_defs.specs.Taken.{NotesLong};
ghost use Rattle.unit_stage.specs.System.{current_system, takes_old, takes_switched, units_too_long};

use crate::system::current_system;
use host_trait::{HostFault, Tree};
use leaf_limits::long_past;
use std::alloc::{AllocError, Global};
use switch_names::{Listed, Path, SystemName};
use switch_parts::{PlanFault, Refusal, What, too_many};

/// Some paths and some more.
fn joined(places: Listed<Path>, more: Listed<Path>) -> Result<Listed<Path>, AllocError>
    ensures { IfOk result (λ all. all ≡ places ++ more) }
{
    let mut all = places.into_vec();
    let mut rest = more.into_vec();
    all.append(&mut rest)?;
    Ok(Listed::from_vec(all))
}

/// The paths of the contents that the units of the system in use are read from, where there is one.
fn taken_in_use<T: Tree>(alloc: Global, host: &mut T) -> Result<Listed<Path>, HostFault>
    ensures taken { IfOk result (λ places. Told (T.host host.old) (λ w. AreTaken places (takes_old w.leaves (current_system w.leaves)) w.leaves)) }
    ensures reads { IsReading (T.host host.old) (T.host host.new) result }
{
    match current_system(alloc, host)? {
        Some(system) => unit_defs::taken(alloc, host, &system),
        None => Ok(Listed::new(alloc)),
    }
}

/// The paths of the contents that a switch to a system takes for its units: the fstab, the unit files, and the drop-ins of
/// units whose files have a base, of that system and of the one in use.
///
/// It reads each unit file and drop-in of both systems once.
pub fn taken<T: Tree>(
    alloc: Global,
    host: &mut T,
    system: &SystemName,
) -> Result<Listed<Path>, HostFault>
    ensures taken { IfOk result (λ places. Told (T.host host.old) (λ w. AreTaken places (takes_switched w.leaves system.now) w.leaves)) }
    ensures reads { IsReading (T.host host.old) (T.host host.new) result }
{
    let places = unit_defs::taken(alloc, host, system)?;
    let in_use = taken_in_use(alloc, host)?;
    Ok(joined(places, in_use)?)
}

/// The refusal of the first content that is taken and too long.
fn too_long<T: Tree>(
    alloc: Global,
    host: &mut T,
    system: &SystemName,
) -> Result<Option<Refusal>, HostFault>
    ensures refusal { IfOk result (λ why. Told (T.host host.old) (λ w. why ≡ units_too_long w.leaves system.now)) }
    ensures reads { IsReading (T.host host.old) (T.host host.new) result }
{
    let places = taken(alloc, host, system)?;
    let past = long_past(alloc, host, places.as_slice())?;
    Ok(too_many(What::LeafBytes, past))
}

/// Refuses a content that is taken and too long, where one that is too long was noted.
pub fn check_lengths<T: Tree>(
    alloc: Global,
    host: &mut T,
    system: &SystemName,
    long: bool,
) -> Result<(), PlanFault>
    ensures not_refused { OnOk result (Told (T.host host.old) (λ w. NotesLong false long (takes_switched w.leaves system.now) w.leaves → units_too_long w.leaves system.now ≡ None)) }
    ensures refused { (why : Refusal) → IsErrOf result (Refused why) → Told (T.host host.old) (λ w. units_too_long w.leaves system.now ≡ Some why) }
    ensures reads { IsReadingOf (T.host host.old) (T.host host.new) (IsErrOf result (Host Device)) }
{
    if !long {
        return Ok(());
    }
    match too_long(alloc, host, system)? {
        Some(why) => Err(PlanFault::Refused(why)),
        None => Ok(()),
    }
}
