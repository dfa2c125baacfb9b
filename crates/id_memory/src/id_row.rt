//! The id of one account.
ghost use Rattle.std.specs.Prelude.{◌≡◌, IfOk};

use std::alloc::{AllocError, Global};
use switch_names::Text;

/// The name of an account and its id.
#[derive(Debug)]
pub struct IdRow {
    pub name: Text,
    pub id: u32,
}

/// One call: a derived drop is proved anew in each function that lets one go.
impl Drop for IdRow {
    fn drop(self) {
        let IdRow { name: _, id: _ } = self;
    }
}

impl IdRow {
    /// An equal row.
    pub fn copy(&self, alloc: Global) -> Result<IdRow, AllocError>
        ensures { IfOk result (λ copied. copied ≡ self.now) }
    {
        Ok(IdRow {
            name: self.name.copy(alloc)?,
            id: self.id,
        })
    }
}
