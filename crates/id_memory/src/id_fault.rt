//! Why bytes are no map of ids.
ghost use Rattle.std.specs.Prelude.{◌≡◌};
ghost use Rattle.id_memory.specs.declared.id_fault.IdFault.TheVariants.{Memory};

use std::alloc::{AllocError, AllocFailed};
use thiserror::Error;

/// Why bytes are no map of ids.
#[derive(Debug, Drop, Error)]
pub enum IdFault {
    /// The bytes are no JSON object, or one of its values is no id.
    #[error("not a JSON object of ids")]
    Form,
    /// There was no memory.
    #[error("out of memory")]
    Memory,
}

impl From<AllocError> for IdFault {
    ghost from_gives = { λ _ fault. fault ≡ Memory };

    fn from(_error: AllocError) -> IdFault {
        IdFault::Memory
    }
}

impl<T: Drop> From<AllocFailed<T>> for IdFault {
    ghost from_gives = { λ _ fault. fault ≡ Memory };

    fn from(_error: AllocFailed<T>) -> IdFault {
        IdFault::Memory
    }
}
