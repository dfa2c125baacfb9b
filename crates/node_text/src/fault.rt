//! Why a text is no leaf's.
ghost use Rattle.std.specs.Prelude.{◌≡◌};
ghost use Rattle.node_text.specs.declared.fault.NodeFault.TheVariants.{Memory};

use std::alloc::{AllocError, AllocFailed};
use thiserror::Error;

/// Why a text is no leaf's.
#[derive(Debug, Drop, Error)]
pub enum NodeFault {
    /// The first two bytes are neither those of a file nor those of a link.
    #[error("the text has no tag of a leaf")]
    Tag,
    /// The byte at this place, counted from 0, can't go on as a leaf's text does, or the text ends
    /// there too soon.
    #[error("the text's header is no leaf's")]
    Header(usize),
    /// The target of a link isn't UTF-8.
    #[error("the target is not UTF-8")]
    Utf8,
    /// There was no memory.
    #[error("out of memory")]
    Memory,
}

impl From<AllocError> for NodeFault {
    ghost from_gives = { λ _ fault. fault ≡ Memory };

    fn from(_error: AllocError) -> NodeFault {
        NodeFault::Memory
    }
}

impl<T: Drop> From<AllocFailed<T>> for NodeFault {
    ghost from_gives = { λ _ fault. fault ≡ Memory };

    fn from(_error: AllocFailed<T>) -> NodeFault {
        NodeFault::Memory
    }
}
