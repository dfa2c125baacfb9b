//! Why bytes are no account specification.
ghost use Rattle.std.specs.Prelude.{◌≡◌};
ghost use Rattle.users_spec.specs.declared.spec_fault.SpecFault.TheVariants.{Memory};

use crate::place::Place;
use std::alloc::{AllocError, AllocFailed};
use switch_names::Text;
use thiserror::Error;

/// Why bytes are no account specification.
#[derive(Debug, Drop, Error)]
pub enum SpecFault {
    /// The bytes are no JSON value.
    #[error("the specification is not JSON")]
    Json,
    /// The value of this key has another form, or stands where none may or not where one must. The
    /// key is empty where the place itself is no object.
    #[error("a key of the specification has another form")]
    Field(Place, Text),
    /// A second group or a second user of this name.
    #[error("two groups or two users have one name")]
    Twice(Text),
    /// The name of this place, the group of a user or a member is no name of an account.
    #[error("a name of the specification is not allowed")]
    Name(Place),
    /// There was no memory.
    #[error("out of memory")]
    Memory,
}

impl From<AllocError> for SpecFault {
    ghost from_gives = { λ _ fault. fault ≡ Memory };

    fn from(_error: AllocError) -> SpecFault {
        SpecFault::Memory
    }
}

impl<T: Drop> From<AllocFailed<T>> for SpecFault {
    ghost from_gives = { λ _ fault. fault ≡ Memory };

    fn from(_error: AllocFailed<T>) -> SpecFault {
        SpecFault::Memory
    }
}
