//! Why bytes are no account table.
ghost use Rattle.std.specs.Prelude.{◌≡◌};
ghost use Rattle.account_text.specs.declared.row_fault.RowFault.TheVariants.{Memory};

use std::alloc::{AllocError, AllocFailed};
use thiserror::Error;

/// Why bytes are no account table.
#[derive(Debug, Drop, Error)]
pub enum RowFault {
    /// The line of this number is no row.
    ///
    /// Lines are counted from 1, empty ones too, and numbers past 4,294,967,295 are given as that
    /// number.
    #[error("a line is no row of its table")]
    Line(u32),
    /// There was no memory.
    #[error("out of memory")]
    Memory,
}

impl From<AllocError> for RowFault {
    ghost from_gives = { λ _ fault. fault ≡ Memory };

    fn from(_error: AllocError) -> RowFault {
        RowFault::Memory
    }
}

impl<T: Drop> From<AllocFailed<T>> for RowFault {
    ghost from_gives = { λ _ fault. fault ≡ Memory };

    fn from(_error: AllocFailed<T>) -> RowFault {
        RowFault::Memory
    }
}
