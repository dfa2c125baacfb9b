//! Rows that are copied.
ghost use Rattle.std.specs.Prelude.{◌≡◌, IfOk};

use account_text::{GroupRow, PasswdRow, ShadowRow};
use std::alloc::{AllocError, Global};
use switch_names::{Listed, Text};

/// What can be copied where there is memory.
pub trait Copied: Drop {
    /// An equal row.
    fn copied(&self, alloc: Global) -> Result<Self, AllocError>
        ensures { IfOk result (λ copied. copied ≡ self.now) };
}

/// Equal names.
fn copied_names(alloc: Global, names: &[Text]) -> Result<Listed<Text>, AllocError>
    ensures { IfOk result (λ copied. copied ≡ names.now) }
{
    let mut copied = Listed::new(alloc);
    for name in names {
        copied.push(name.copy(alloc)?)?;
    }
    Ok(copied)
}

impl Copied for GroupRow {
    fn copied(&self, alloc: Global) -> Result<GroupRow, AllocError> {
        Ok(GroupRow {
            name: self.name.copy(alloc)?,
            password: self.password.copy(alloc)?,
            gid: self.gid,
            members: copied_names(alloc, self.members.as_slice())?,
        })
    }
}

impl Copied for PasswdRow {
    fn copied(&self, alloc: Global) -> Result<PasswdRow, AllocError> {
        Ok(PasswdRow {
            name: self.name.copy(alloc)?,
            password: self.password.copy(alloc)?,
            uid: self.uid,
            gid: self.gid,
            gecos: self.gecos.copy(alloc)?,
            home: self.home.copy(alloc)?,
            shell: self.shell.copy(alloc)?,
        })
    }
}

impl Copied for ShadowRow {
    fn copied(&self, alloc: Global) -> Result<ShadowRow, AllocError> {
        Ok(ShadowRow {
            name: self.name.copy(alloc)?,
            password: self.password.copy(alloc)?,
            rest: self.rest.copy(alloc)?,
        })
    }
}
