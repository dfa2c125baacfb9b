//! Assignments of a unit file.
ghost use Rattle.std.specs.Prelude.{◌≡◌, IfOk};

use crate::unit_key::UnitKey;
use std::alloc::{AllocError, Global};
use switch_names::Text;

/// A value that a key is given. An empty one clears the earlier values.
pub struct Assignment {
    pub at: UnitKey,
    pub value: Text,
}

/// One call: a derived drop is proved anew in each function that lets one go.
impl Drop for Assignment {
    fn drop(self) {
        let Assignment { at: _, value: _ } = self;
    }
}

impl Assignment {
    /// The key and the value, without a copy.
    pub fn into_parts(self) -> (UnitKey, Text)
        ensures key { result.0 ≡ self.at }
        ensures value { result.1 ≡ self.value }
    {
        let Assignment { at, value } = self;
        (at, value)
    }

    /// An equal assignment.
    pub fn copy(&self, alloc: Global) -> Result<Assignment, AllocError>
        ensures { IfOk result (λ copied. copied ≡ self.now) }
    {
        Ok(Assignment {
            at: self.at.copy(alloc)?,
            value: self.value.copy(alloc)?,
        })
    }
}
