//! Why a world refuses a leaf.
ghost use Rattle.std.specs.Prelude.{◌≡◌};
ghost use Rattle.host_trait.specs.declared.world_fault.WorldFault.TheVariants.{Memory};

use std::alloc::{AllocError, AllocFailed};
use thiserror::Error;

/// Why a world refuses a leaf.
#[derive(Clone, Copy, Debug, PartialEq, Eq, Error)]
pub enum WorldFault {
    /// A leaf stands strictly above or below the path.
    #[error("a leaf stands above or below the path")]
    Blocked,
    /// There was no memory.
    #[error("out of memory")]
    Memory,
}

impl From<AllocError> for WorldFault {
    ghost from_gives = { λ _ fault. fault ≡ Memory };

    fn from(_error: AllocError) -> WorldFault {
        WorldFault::Memory
    }
}

impl<T: Drop> From<AllocFailed<T>> for WorldFault {
    ghost from_gives = { λ _ fault. fault ≡ Memory };

    fn from(_error: AllocFailed<T>) -> WorldFault {
        WorldFault::Memory
    }
}
