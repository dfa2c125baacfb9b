//! The rows of groups.
ghost use Rattle.std.specs.Prelude.{◌≡◌, ◌++◌, true, List, map, filter, option_map, IfOk};
ghost use Rattle.account_text.specs.Group.{group_name};
ghost use Rattle.account_text.specs.Order.{IsInOrder, group_key, row_named};
ghost use Rattle.account_text.specs.Table.{are_distinct};
ghost use Rattle.users_merge.specs.ByName.{found_in};
ghost use Rattle.users_merge.specs.GroupRows.{given_group, group_by, members_by, merged_groups};
ghost use Rattle.users_merge.specs.Rows.{group_password};
ghost use Rattle.users_merge.specs.Staying.{stays_by};

use crate::by_name::ByName;
use crate::giving::Given;
use crate::name_set::NameSet;
use crate::staying::{Staying, add_staying_members, add_staying_rows};
use account_text::GroupRow;
use std::alloc::{AllocError, Global};
use switch_names::{Listed, Text};
use users_spec::GroupSpec;

/// The password of a group's row, or `x`.
fn password(alloc: Global, old: Option<&GroupRow>) -> Result<Text, AllocError>
    ensures { IfOk result (λ password. password ≡ group_password (option_map (λ row. row.now) old.entry)) }
{
    match old {
        Some(row) => row.password.copy(alloc),
        None => Text::from_str(alloc, "x"),
    }
}

/// The members of a declared group, in byte order.
fn members(
    alloc: Global,
    users: Staying<'_>,
    group: &GroupSpec,
    old: Option<&GroupRow>,
) -> Result<Listed<Text>, AllocError>
    ensures { IfOk result (λ members. members ≡ members_by (stays_by users.entry) group.now (option_map (λ row. row.now) old.entry)) }
{
    let mut names = NameSet::of(alloc, group.members.as_slice())?;
    if let Some(row) = old {
        add_staying_members(alloc, users, &mut names, row.members.as_slice())?;
    }
    names.into_names(alloc)
}

/// The row of a declared group.
fn group_row(
    alloc: Global,
    users: Staying<'_>,
    group: &GroupSpec,
    gid: u32,
    old: Option<&GroupRow>,
) -> Result<GroupRow, AllocError>
    ensures { IfOk result (λ row. row ≡ group_by (stays_by users.entry) group.now gid (option_map (λ row. row.now) old.entry)) }
{
    Ok(GroupRow {
        name: group.name.copy(alloc)?,
        password: password(alloc, old)?,
        gid,
        members: members(alloc, users, group, old)?,
    })
}

/// The rows of the declared groups.
fn declared_rows(
    alloc: Global,
    users: Staying<'_>,
    old: &ByName<'_, GroupRow>,
    given: &[Given<'_, GroupSpec>],
) -> Result<Vec<GroupRow>, AllocError>
    ensures { IfOk result (λ rows. rows.items ≡ map (given_group (stays_by users.entry) (found_in old.now.rows)) given.now) }
{
    let mut rows = Vec::with_capacity(alloc, given.len())?;
    for one in given {
        let row = old.find(&one.account.name);
        rows.push(group_row(alloc, users, one.account, one.id, row)?)?;
    }
    Ok(rows)
}

/// The group rows that a merge leaves.
///
/// Source: nixpkgs, update-users-groups.pl.
pub fn merged_groups(
    alloc: Global,
    table: &[GroupRow],
    given: &[Given<'_, GroupSpec>],
    groups: Staying<'_>,
    users: Staying<'_>,
) -> Result<Vec<GroupRow>, AllocError>
    ensures { IfOk result (λ rows. rows.items ≡ merged_groups (stays_by groups.entry) (stays_by users.entry) given.now table.now) }
{
    let old = ByName::of(alloc, table)?;
    let mut rows = declared_rows(alloc, users, &old, given)?;
    add_staying_rows(alloc, groups, &mut rows, table)?;
    Ok(rows)
}
