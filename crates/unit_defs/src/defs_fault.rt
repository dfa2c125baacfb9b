//! Why the units of a system can't be read.
ghost use Rattle.std.specs.Prelude.{◌≡◌};
ghost use Rattle.host_trait.specs.declared.tree.HostFault.TheVariants.{Memory};
ghost use Rattle.unit_defs.specs.declared.defs_fault.DefsFault.TheVariants.{Host};

use host_trait::HostFault;
use std::alloc::AllocError;
use switch_names::UnitName;
use thiserror::Error;

/// Why the units of a system can't be read.
#[derive(Debug, Drop, Error)]
pub enum DefsFault {
    /// The system has more units with a text of their own than 16,384, those of its fstab included.
    #[error("the system has too many units")]
    Many(u64),
    /// A file of this unit can't be read.
    #[error("a unit file can't be read")]
    Text {
        /// The first such unit in byte order.
        unit: UnitName,
        /// The line of the first fault of its files, in the order in which they are applied.
        line: u32,
    },
    /// A call on the host has failed.
    #[error("the host has failed")]
    Host(HostFault),
}

impl From<HostFault> for DefsFault {
    ghost from_gives = { λ fault given. given ≡ Host fault };

    fn from(fault: HostFault) -> DefsFault {
        DefsFault::Host(fault)
    }
}

impl From<AllocError> for DefsFault {
    ghost from_gives = { λ _ given. given ≡ Host Memory };

    fn from(_error: AllocError) -> DefsFault {
        DefsFault::Host(HostFault::Memory)
    }
}
