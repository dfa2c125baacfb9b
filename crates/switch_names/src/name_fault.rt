//! Why a text is no name.
ghost use Rattle.std.specs.Prelude.{◌≡◌, None, Some, IfErr, IfOk};
ghost use Rattle.switch_names.specs.declared.name_fault.NameFault.TheVariants.{Memory};

use std::alloc::{AllocError, AllocFailed};
use thiserror::Error;

/// Why a text is no path, unit name, system name or link target.
#[derive(Debug, Drop, Error)]
pub enum NameFault {
    /// The text, or a name within it, is empty.
    #[error("a name is empty")]
    Empty,
    /// A name within the text is `.` or `..`.
    #[error("a name is one or two dots")]
    Dot,
    /// The byte at this place, counted from 0, stands in no such name.
    #[error("the name has a byte that is not allowed")]
    Byte(usize),
    /// The text is longer than such a name may be.
    #[error("the name is too long")]
    Long,
    /// The text doesn't begin or end as a name of this kind does.
    #[error("the name is of no known kind")]
    Kind,
    /// There was no memory.
    #[error("out of memory")]
    Memory,
}

impl From<AllocError> for NameFault {
    ghost from_gives = { λ _ fault. fault ≡ Memory };

    fn from(_error: AllocError) -> NameFault {
        NameFault::Memory
    }
}

impl<T: Drop> From<AllocFailed<T>> for NameFault {
    ghost from_gives = { λ _ fault. fault ≡ Memory };

    fn from(_error: AllocFailed<T>) -> NameFault {
        NameFault::Memory
    }
}

impl NameFault {
    /// What a reader of names read, and none where the text is no such name.
    pub fn or_none<T: Drop>(read: Result<T, NameFault>) -> Result<Option<T>, AllocError>
        ensures named { IfOk read (λ name. IfOk result (λ found. found ≡ Some name)) }
        ensures refused { IfErr read (λ fault. IfOk result (λ found. (found ≡ None) × (fault ≡ Memory → ⊥))) }
    {
        match read {
            Ok(name) => Ok(Some(name)),
            Err(NameFault::Memory) => Err(AllocError),
            Err(_) => Ok(None),
        }
    }
}
