//! Why accounts aren't merged.
ghost use Rattle.std.specs.Prelude.{◌≡◌};
ghost use Rattle.users_merge.specs.declared.merge_fault.MergeFault.TheVariants.{Memory};

use std::alloc::{AllocError, AllocFailed};
use switch_names::Text;
use thiserror::Error;

/// Why accounts aren't merged.
#[derive(Debug, Drop, Error)]
pub enum MergeFault {
    /// Each id of the range for the account of this name is used, or remembered for another name.
    #[error("no id is free for an account")]
    NoFreeId(Text),
    /// The group of a declared user is neither declared nor in the group table that results.
    #[error("the group of a user is unknown")]
    UnknownGroup {
        /// The name of the user.
        user: Text,
        /// The name of its group.
        group: Text,
    },
    /// There was no memory.
    #[error("out of memory")]
    Memory,
}

impl From<AllocError> for MergeFault {
    ghost from_gives = { λ _ fault. fault ≡ Memory };

    fn from(_error: AllocError) -> MergeFault {
        MergeFault::Memory
    }
}

impl<T: Drop> From<AllocFailed<T>> for MergeFault {
    ghost from_gives = { λ _ fault. fault ≡ Memory };

    fn from(_error: AllocFailed<T>) -> MergeFault {
        MergeFault::Memory
    }
}
