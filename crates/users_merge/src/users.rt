//! The passwd rows of users.
ghost use Rattle.std.specs.Prelude.{◌≡◌, ◌⊎◌, ◌++◌, None, Some, filter, option_map, IfOk, IfErr, OnOk};
ghost use Rattle.std.specs.List.{filter_map};
ghost use Rattle.users_merge.specs.ByName.{found_in};
ghost use Rattle.users_merge.specs.Given.{given_accounts, given_ids};
ghost use Rattle.users_merge.specs.Merge.{user_fault};
ghost use Rattle.users_merge.specs.Rows.{declared_row};
ghost use Rattle.users_merge.specs.Staying.{stays_by};
ghost use Rattle.users_merge.specs.UserRows.{gid_in, gid_named, given_row, merged_users};

use crate::by_name::ByName;
use crate::giving::Given;
use crate::merge_fault::MergeFault;
use crate::staying::{Staying, add_staying_rows};
use account_text::{GroupRow, PasswdRow};
use std::alloc::{AllocError, Global};
use switch_names::Text;
use users_spec::UserSpec;

/// The passwd row of a declared user.
fn passwd_row(alloc: Global, user: &UserSpec, uid: u32, gid: u32) -> Result<PasswdRow, AllocError>
    ensures { IfOk result (λ row. row ≡ declared_row user.now uid gid) }
{
    Ok(PasswdRow {
        name: user.name.copy(alloc)?,
        password: Text::from_str(alloc, "x")?,
        uid,
        gid,
        gecos: user.description.copy(alloc)?,
        home: user.home.copy(alloc)?,
        shell: user.shell.copy(alloc)?,
    })
}

/// That the group of a user is unknown.
fn unknown_group(alloc: Global, user: &UserSpec) -> Result<MergeFault, AllocError>
    ensures { IfOk result (λ fault. fault ≡ MergeFault.UnknownGroup user.now.name user.now.group) }
{
    Ok(MergeFault::UnknownGroup {
        user: user.name.copy(alloc)?,
        group: user.group.copy(alloc)?,
    })
}

/// The passwd rows of the declared users.
fn declared_rows(
    alloc: Global,
    groups: &ByName<'_, GroupRow>,
    given: &[Given<'_, UserSpec>],
) -> Result<Vec<PasswdRow>, MergeFault>
    ensures ok { IfOk result (λ rows. rows.items ≡ filter_map (given_row (gid_in groups.now.rows)) given.now) }
    ensures fine { OnOk result (user_fault (gid_in groups.now.rows) (given_accounts given.now) (given_ids given.now) ≡ None) }
    ensures fault { IfErr result (λ fault. (fault ≡ MergeFault.Memory) ⊎ (user_fault (gid_in groups.now.rows) (given_accounts given.now) (given_ids given.now) ≡ Some fault)) }
{
    let mut rows = Vec::with_capacity(alloc, given.len())?;
    for one in given {
        let Some(group) = groups.find(&one.account.group) else {
            return Err(unknown_group(alloc, one.account)?);
        };
        rows.push(passwd_row(alloc, one.account, one.id, group.gid)?)?;
    }
    Ok(rows)
}

/// The passwd rows that a merge leaves, by the group rows that it leaves.
///
/// Source: nixpkgs, update-users-groups.pl, but for the refusal of an unknown group, which is this
/// project's own.
pub fn merged_users(
    alloc: Global,
    table: &[PasswdRow],
    group: &[GroupRow],
    given: &[Given<'_, UserSpec>],
    users: Staying<'_>,
) -> Result<Vec<PasswdRow>, MergeFault>
    ensures ok { IfOk result (λ rows. rows.items ≡ merged_users (stays_by users.entry) (gid_named group.now) given.now table.now) }
    ensures fine { OnOk result (user_fault (gid_named group.now) (given_accounts given.now) (given_ids given.now) ≡ None) }
    ensures fault { IfErr result (λ fault. (fault ≡ MergeFault.Memory) ⊎ (user_fault (gid_named group.now) (given_accounts given.now) (given_ids given.now) ≡ Some fault)) }
{
    let groups = ByName::of(alloc, group)?;
    let mut rows = declared_rows(alloc, &groups, given)?;
    add_staying_rows(alloc, users, &mut rows, table)?;
    Ok(rows)
}
