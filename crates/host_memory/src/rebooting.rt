//! Reboots of a world.
ghost use Rattle.std.specs.Prelude.{◌≡◌, OnOk, OnErr};
ghost use Rattle.host_memory.specs.Reboots.{IsRebooted};

use host_trait::{World, WorldFault};
use std::alloc::{AllocError, Global};

/// Does what a reboot does. An odd pick leaves an empty file at the stage, where nothing is in its way.
pub(crate) fn reboot_world(world: &mut World, alloc: Global, pick: u64) -> Result<(), AllocError>
    ensures ok { OnOk result (IsRebooted pick world.old world.new) }
    ensures err { OnErr result (world.new ≡ world.old) }
{
    if pick % 2 == 0 {
        world.reboot(alloc);
        return Ok(());
    }
    match world.reboot_with_blank(alloc) {
        Ok(()) => Ok(()),
        Err(WorldFault::Memory) => Err(AllocError),
        Err(WorldFault::Blocked) => {
            world.reboot(alloc);
            Ok(())
        }
    }
}
