//! What is planned for a collection, and why none is.
ghost use Rattle.std.specs.Prelude.{◌≡◌};
ghost use Rattle.host_trait.specs.declared.tree.HostFault.TheVariants.{Memory};
ghost use Rattle.store_collect.specs.declared.collection.CollectFault.TheVariants.{Host};

use boot_entries::BootTexts;
use host_trait::HostFault;
use std::alloc::AllocError;
use switch_names::{Listed, Path, SystemName};
use thiserror::Error;

/// What is planned for a collection.
pub struct Collection {
    /// The links of the generations that go, by ascending number.
    pub links: Listed<Path>,
    /// The dead store paths, in byte order.
    pub names: Listed<SystemName>,
    /// Their leaves, store path by store path: in each `nixos-version` first, and then the others in byte order.
    pub leaves: Listed<Path>,
    /// The boot menu of the generations that are kept.
    pub texts: BootTexts,
}

/// One call: a derived drop is proved anew in each function that lets one go.
impl Drop for Collection {
    fn drop(self) {
        let Collection {
            links: _,
            names: _,
            leaves: _,
            texts: _,
        } = self;
    }
}

/// Why a collection is refused.
#[derive(Debug, Drop, Error)]
pub enum CollectRefusal {
    /// A switch is unfinished: a leaf stands where it records what it owes, or its goal.
    #[error("a switch is unfinished")]
    Unfinished,
    /// A file that the boot menu is made of is longer than 16 MiB: how many bytes it has. Of such files the first in byte order
    /// is told of.
    #[error("a file is too long")]
    LeafBytes(u64),
    /// A leaf stands in the way of this place of the boot menu, or of the stage.
    #[error("a leaf is in the way")]
    InTheWay(Path),
}

/// Why no collection is planned.
#[derive(Debug, Drop, Error)]
pub enum CollectFault {
    /// The collection is refused.
    #[error("the collection is refused")]
    Refused(CollectRefusal),
    /// A call on the host has failed.
    #[error("the host has failed")]
    Host(HostFault),
}

impl From<HostFault> for CollectFault {
    ghost from_gives = { λ fault given. given ≡ Host fault };

    fn from(fault: HostFault) -> CollectFault {
        CollectFault::Host(fault)
    }
}

impl From<AllocError> for CollectFault {
    ghost from_gives = { λ _ given. given ≡ Host Memory };

    fn from(_error: AllocError) -> CollectFault {
        CollectFault::Host(HostFault::Memory)
    }
}
