//! Why bytes are no manager's text.
ghost use Rattle.std.specs.Prelude.{◌≡◌};
ghost use Rattle.manager_core.specs.declared.state_fault.StateFault.TheVariants.{Memory};

use std::alloc::AllocError;
use thiserror::Error;

/// Why bytes are no manager's text.
#[derive(Clone, Copy, Debug, PartialEq, Eq, Error)]
pub enum StateFault {
    /// The line with this number, from 1, is the first that can't stand in its place, or isn't
    /// there or isn't ended. A number past 4,294,967,295 is given as that.
    #[error("a line of the manager's state can't be read")]
    Line(u32),
    /// There was no memory.
    #[error("out of memory")]
    Memory,
}

impl From<AllocError> for StateFault {
    ghost from_gives = { λ _ fault. fault ≡ Memory };

    fn from(_error: AllocError) -> StateFault {
        StateFault::Memory
    }
}
