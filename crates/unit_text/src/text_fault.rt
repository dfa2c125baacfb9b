//! Why bytes are no unit text.
ghost use Rattle.std.specs.Prelude.{◌≡◌};
ghost use Rattle.unit_text.specs.declared.text_fault.TextFault.TheVariants.{Memory};

use std::alloc::{AllocError, AllocFailed};
use thiserror::Error;

/// Why bytes are no unit text, with the number of the line.
///
/// Lines are numbered from 1, a joined line has the number of its first line, and numbers past
/// 4,294,967,295 are given as that number.
#[derive(Debug, Drop, Error)]
pub enum TextFault {
    /// A line begins with `[` and is no section.
    #[error("a line is no section")]
    Section(u32),
    /// A line has no `=`, or no key before it.
    #[error("a line is no assignment")]
    Key(u32),
    /// An assignment stands before any section.
    #[error("an assignment stands before any section")]
    NoSection(u32),
    /// A line isn't UTF-8.
    #[error("a line is not UTF-8")]
    Utf8(u32),
    /// There was no memory.
    #[error("out of memory")]
    Memory,
}

impl From<AllocError> for TextFault {
    ghost from_gives = { λ _ fault. fault ≡ Memory };

    fn from(_error: AllocError) -> TextFault {
        TextFault::Memory
    }
}

impl<T: Drop> From<AllocFailed<T>> for TextFault {
    ghost from_gives = { λ _ fault. fault ≡ Memory };

    fn from(_error: AllocFailed<T>) -> TextFault {
        TextFault::Memory
    }
}
