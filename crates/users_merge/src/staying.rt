//! Rows and members that no declaration speaks of.
ghost use Rattle.std.specs.Prelude.{◌≡◌, ◌++◌, ◌∷◌, [], ◌||◌, ◌&&◌, filter, OnOk};
ghost use Rattle.switch_names.specs.Names.{Name, has, is_name};
ghost use Rattle.users_merge.specs.Staying.{stays_by};

use crate::copied::Copied;
use crate::name_set::NameSet;
use crate::named::Named;
use std::alloc::{AllocError, Global};
use switch_names::Text;

/// What decides whether an account that isn't declared stays.
///
/// Source: NixOS manual, option `users.mutableUsers`.
#[derive(Clone, Copy)]
pub struct Staying<'a> {
    /// Whether such accounts stay.
    pub mutable: bool,
    /// The names that are declared now.
    pub declared: &'a NameSet,
    /// The names that were declared before.
    pub earlier: &'a NameSet,
}

impl Staying<'_> {
    /// Whether the account of a name stays although it isn't declared.
    pub fn stays(self, name: &Text) -> bool
        ensures { result ≡ stays_by self.entry name.now }
    {
        self.mutable && !self.declared.contains(name) && !self.earlier.contains(name)
    }
}

/// Adds a row, where it stays.
fn add_staying_row<R: Named + Copied>(
    alloc: Global,
    staying: Staying<'_>,
    rows: &mut Vec<R>,
    row: &R,
) -> Result<(), AllocError>
    ensures { OnOk result (rows.new.items ≡ rows.old.items ++ filter (λ row. stays_by staying.entry (R.name_of row)) (row.now ∷ [])) }
{
    if staying.stays(row.name()) {
        rows.push(row.copied(alloc)?)?;
    }
    Ok(())
}

/// Adds the rows that stay.
pub fn add_staying_rows<R: Named + Copied>(
    alloc: Global,
    staying: Staying<'_>,
    rows: &mut Vec<R>,
    table: &[R],
) -> Result<(), AllocError>
    ensures { OnOk result (rows.new.items ≡ rows.old.items ++ filter (λ row. stays_by staying.entry (R.name_of row)) table.now) }
{
    for row in table {
        add_staying_row(alloc, staying, rows, row)?;
    }
    Ok(())
}

/// Adds a member, where it stays.
fn add_staying_member(
    alloc: Global,
    staying: Staying<'_>,
    names: &mut NameSet,
    member: &Text,
) -> Result<(), AllocError>
    ensures { OnOk result ((name : Name) → has names.new name ≡ (has names.old name || (stays_by staying.entry member.now && is_name name member.now))) }
{
    if staying.stays(member) {
        names.insert(member.copy(alloc)?)?;
    }
    Ok(())
}

/// Adds the members that stay.
pub fn add_staying_members(
    alloc: Global,
    staying: Staying<'_>,
    names: &mut NameSet,
    members: &[Text],
) -> Result<(), AllocError>
    ensures { OnOk result ((name : Name) → has names.new name ≡ (has names.old name || has (filter (stays_by staying.entry) members.now) name)) }
{
    for member in members {
        add_staying_member(alloc, staying, names, member)?;
    }
    Ok(())
}
