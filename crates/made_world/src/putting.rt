//! Puts the files of a system.
ghost use Rattle.std.specs.Prelude.{◌≡◌, ◌∷◌, [], IfOk, OnOk};
ghost use Rattle.made_world.specs.Putting.{file_in, new_system, old_system, with_leaves};

use host_trait::{Leaf, World};
use std::alloc::{AllocError, Global};
use switch_names::{Bytes, SystemName};

/// The system that is in use on a made machine.
#[tactic(auto, unfolding(crate::specs::Putting::old_system))]
pub fn old_system(alloc: Global) -> Result<SystemName, AllocError>
    ensures { IfOk result (λ system. system ≡ old_system) }
{
    match SystemName::parse(alloc, "nix/store/old-sys") {
        Ok(system) => Ok(system),
        Err(_) => Err(AllocError),
    }
}

/// The system to which a made machine is switched.
#[tactic(auto, unfolding(crate::specs::Putting::new_system))]
pub fn new_system(alloc: Global) -> Result<SystemName, AllocError>
    ensures { IfOk result (λ system. system ≡ new_system) }
{
    match SystemName::parse(alloc, "nix/store/new-sys") {
        Ok(system) => Ok(system),
        Err(_) => Err(AllocError),
    }
}

/// Puts a file of a system at its place below the system.
///
/// Nothing is in the way of the files of a made machine, so that memory alone can be wanting.
pub(crate) fn put_file(
    alloc: Global,
    world: &mut World,
    system: &SystemName,
    place: &str,
    text: &str,
) -> Result<(), AllocError>
    ensures { OnOk result (world.new ≡ with_leaves (file_in system.now place.now text.now ∷ []) world.old) }
{
    let bytes = Bytes::from_slice(alloc, text.as_bytes())?;
    let Ok(at) = system.path().join(alloc, place) else {
        return Err(AllocError);
    };
    match world.set_leaf(alloc, at, Leaf::open_file(bytes)) {
        Ok(_was) => Ok(()),
        Err(_) => Err(AllocError),
    }
}
