//! The system in use.
ghost use Rattle.std.specs.Prelude.{◌≡◌, IfOk, option_and_then};
ghost use Rattle.std.specs.Option.{option_copied};
ghost use Rattle.generations.specs.Places.{target_of};
ghost use Rattle.host_trait.specs.Reading.{IsReading};
ghost use Rattle.host_trait.specs.Host.{Told};
ghost use Rattle.unit_stage.specs.System.{current_place, current_system};
ghost use Rattle.unit_stage.specs.Waiting.{start_up_target};

use generations::target_of;
use host_trait::{HostFault, Leaf, Tree, fixed_path};
use std::alloc::{AllocError, Global};
use switch_names::{NameFault, Path, SystemName, UnitName};

/// Where the link to the system in use stands.
#[tactic(auto, unfolding(crate::specs::System::current_place))]
pub fn current_path(alloc: Global) -> Result<Path, AllocError>
    ensures { IfOk result (λ path. path ≡ current_place) }
{
    fixed_path(alloc, "run/current-system")
}

/// The target to which a machine starts up.
#[tactic(auto, unfolding(crate::specs::Waiting::start_up_target))]
pub fn start_up_target(alloc: Global) -> Result<UnitName, AllocError>
    ensures { IfOk result (λ unit. unit ≡ start_up_target) }
{
    UnitName::parse(alloc, "multi-user.target").map_err(|_fault: NameFault| AllocError)
}

/// The system that a leaf names, where it stands.
fn linked_system(alloc: Global, leaf: Option<&Leaf>) -> Result<Option<SystemName>, AllocError>
    ensures { IfOk result (λ system. system ≡ option_and_then target_of (option_copied leaf.entry)) }
{
    match leaf {
        Some(leaf) => target_of(alloc, leaf),
        None => Ok(None),
    }
}

/// The system in use, where a link names one.
pub fn current_system<T: Tree>(alloc: Global, host: &mut T) -> Result<Option<SystemName>, HostFault>
    ensures system { IfOk result (λ system. Told (T.host host.old) (λ w. system ≡ current_system w.leaves)) }
    ensures reads { IsReading (T.host host.old) (T.host host.new) result }
{
    let at = current_path(alloc)?;
    let leaf = host.read(alloc, &at)?;
    let system = linked_system(alloc, leaf.as_ref())?;
    Ok(system)
}
