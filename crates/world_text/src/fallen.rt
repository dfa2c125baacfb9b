//! Hosts in memory without leaves.
ghost use Rattle.host_memory.specs.MemoryHost.{host_of};
ghost use Rattle.host_trait.specs.Host.{Told};
ghost use Rattle.world_text.specs.Leafless.{HasNoLeaf};

use host_memory::MemoryHost;
use host_trait::{Manager, World};
use std::alloc::Global;

/// A host in memory without leaves, on which nothing fails.
pub fn empty_host(alloc: Global) -> MemoryHost
    ensures { Told (host_of result) HasNoLeaf }
{
    MemoryHost::new(alloc, World::new(alloc))
}

/// A host in memory without leaves, on which a cut has fallen: each of its calls fails.
pub fn fallen_host(alloc: Global) -> MemoryHost
    ensures { Told (host_of result) HasNoLeaf }
{
    let mut host = MemoryHost::new(alloc, World::new(alloc));
    host.arm(0, 0);
    let _cut = host.daemon_reload(alloc);
    host
}
