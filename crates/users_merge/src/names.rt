//! The names that are declared now, and those that were declared before.
ghost use Rattle.std.specs.Prelude.{◌≡◌, ◌++◌, map, IfOk};
ghost use Rattle.switch_names.specs.Names.{Name, has};
ghost use Rattle.users_merge.specs.Staying.{stays_by, undeclared};
ghost use Rattle.users_merge.specs.Stored.{ordered};

use crate::name_set::NameSet;
use crate::named::Named;
use crate::staying::Staying;
use std::alloc::{AllocError, Global};
use switch_names::{Listed, Text};

/// The names that are declared now, in byte order.
pub fn now_names<N: Named>(alloc: Global, now: &[N]) -> Result<Listed<Text>, AllocError>
    ensures { IfOk result (λ names. names ≡ ordered (map N.name_of now.now)) }
{
    NameSet::of(alloc, now)?.into_names(alloc)
}

/// Names in byte order, each once.
pub fn ordered_names(alloc: Global, names: &[Text]) -> Result<Listed<Text>, AllocError>
    ensures { IfOk result (λ list. list ≡ ordered names.now) }
{
    now_names(alloc, names)
}

/// The names that are declared now or were so before, in byte order.
pub fn all_names<N: Named>(
    alloc: Global,
    before: &[Text],
    now: &[N],
) -> Result<Listed<Text>, AllocError>
    ensures { IfOk result (λ names. names ≡ ordered (before.now ++ ordered (map N.name_of now.now))) }
{
    let mut names = NameSet::of(alloc, before)?;
    names.insert_all(alloc, now)?;
    names.into_names(alloc)
}

/// The names of one kind of account.
pub struct Names {
    declared: NameSet,
    earlier: NameSet,
}

/// One call: a derived drop is proved anew in each function that lets one go.
impl Drop for Names {
    fn drop(self) {
        let Names {
            declared: _,
            earlier: _,
        } = self;
    }
}

impl Names {
    /// The names that are declared now, and those that were before.
    pub fn of<N: Named>(alloc: Global, now: &[N], before: &[Text]) -> Result<Names, AllocError>
        ensures declared { IfOk result (λ names. (name : Name) → has names.declared name ≡ has (map N.name_of now.now) name) }
        ensures earlier { IfOk result (λ names. (name : Name) → has names.earlier name ≡ has before.now name) }
    {
        Ok(Names {
            declared: NameSet::of(alloc, now)?,
            earlier: NameSet::of(alloc, before)?,
        })
    }

    /// What decides which accounts of other names stay.
    pub fn staying(&self, mutable: bool) -> Staying<'_>
        ensures { (name : Name) → stays_by result name ≡ undeclared mutable self.now.declared self.now.earlier name }
    {
        Staying {
            mutable,
            declared: &self.declared,
            earlier: &self.earlier,
        }
    }
}
