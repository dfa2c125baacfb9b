//! Groups and users, each with their ids and their rows.
ghost use Rattle.std.specs.Prelude.{◌≡◌, ◌⊎◌, ◌≤◌, None, Some, length, map, option_map, IfOk, IfErr, OnOk};
ghost use Rattle.account_text.specs.Group.{IsSoundGroup};
ghost use Rattle.account_text.specs.Passwd.{IsSoundPasswd};
ghost use Rattle.users_spec.specs.Spec.{IsSound, group_names, user_names};
ghost use Rattle.users_merge.specs.Account.{first_without, group_accounts};
ghost use Rattle.users_merge.specs.Given.{given_accounts, given_ids};
ghost use Rattle.users_merge.specs.GroupRows.{merged_groups};
ghost use Rattle.users_merge.specs.Merge.{gid_of, group_ids, user_fault, user_ids};
ghost use Rattle.users_merge.specs.Sides.{AreGroups, AreUsers};
ghost use Rattle.users_merge.specs.Staying.{undeclared};
ghost use Rattle.users_merge.specs.Stored.{stored_of};
ghost use Rattle.users_merge.specs.UserRows.{gid_named, merged_users};

use crate::declaration::Declaration;
use crate::declared_names::Declared;
use crate::giving::{Given, give};
use crate::groups::merged_groups;
use crate::merge_fault::MergeFault;
use crate::names::Names;
use crate::remembered::Remembered;
use crate::users::merged_users;
use account_text::{GroupRow, PasswdRow, Tables};
use std::alloc::{AllocError, Global};
use users_spec::{GroupSpec, Spec, UserSpec};

/// The declared accounts of one kind with their ids, and the rows of all of that kind.
pub struct Side<'a, D, R> {
    pub given: Vec<Given<'a, D>>,
    pub rows: Vec<R>,
}

/// One call: a derived drop is proved anew in each function that lets one go.
impl<'a, D, R: Drop> Drop for Side<'a, D, R> {
    fn drop(self) {
        let Side { given: _, rows: _ } = self;
    }
}

impl<'a, D, R> Side<'a, D, R> {
    /// The rows, without a copy.
    pub fn into_rows(self) -> Vec<R>
        ensures { result.items ≡ self.entry.rows.items }
    {
        let Side { given: _, rows } = self;
        rows
    }
}

/// That an account gets no id.
fn no_free_id<D: Declaration>(alloc: Global, account: &D) -> Result<MergeFault, AllocError>
    ensures { IfOk result (λ fault. fault ≡ MergeFault.NoFreeId (D.asked account.now).name) }
{
    Ok(MergeFault::NoFreeId(account.account_name().copy(alloc)?))
}

/// That each account got an id.
fn check_given<D: Declaration>(
    alloc: Global,
    accounts: &[D],
    given: &[Given<'_, D>],
) -> Result<(), MergeFault>
    ensures all { OnOk result (length accounts.now ≤ length given.now) }
    ensures ok { OnOk result (first_without (map D.asked accounts.now) (given_ids given.now) ≡ None) }
    ensures fault { IfErr result (λ fault. (fault ≡ MergeFault.Memory)
        ⊎ (option_map MergeFault.NoFreeId (first_without (map D.asked accounts.now) (given_ids given.now)) ≡ Some fault)) }
{
    match accounts.get(given.len()) {
        Some(account) => Err(no_free_id(alloc, account)?),
        None => Ok(()),
    }
}

/// The rows of all groups.
fn group_rows(
    alloc: Global,
    spec: &Spec,
    declared: &Declared,
    table: &[GroupRow],
    given: &[Given<'_, GroupSpec>],
) -> Result<Vec<GroupRow>, AllocError>
    ensures { IfOk result (λ rows. rows.items ≡ merged_groups (undeclared spec.now.mutable (group_names spec.now) declared.now.groups)
        (undeclared spec.now.mutable (user_names spec.now) declared.now.users) given.now table.now) }
{
    let group_names = Names::of(alloc, spec.groups().as_slice(), declared.groups.as_slice())?;
    let user_names = Names::of(alloc, spec.users().as_slice(), declared.users.as_slice())?;
    let groups = group_names.staying(spec.mutable());
    let users = user_names.staying(spec.mutable());
    merged_groups(alloc, table, given, groups, users)
}

/// The groups.
pub fn merge_groups<'a>(
    alloc: Global,
    spec: &'a Spec,
    tables: &Tables,
    remembered: &Remembered,
    declared: &Declared,
) -> Result<Side<'a, GroupSpec, GroupRow>, MergeFault>
    requires { IsSoundGroup tables.now.group }
    ensures ok { IfOk result (λ side. AreGroups spec.now (stored_of tables.now remembered.now declared.now) side.given.items side.rows.items) }
    ensures fault { IfErr result (λ fault. (fault ≡ MergeFault.Memory)
        ⊎ (option_map MergeFault.NoFreeId (first_without (group_accounts spec.now) (group_ids spec.now (stored_of tables.now remembered.now declared.now))) ≡ Some fault)) }
{
    let accounts = spec.groups().as_slice();
    let table = tables.group.as_slice();
    let given = give(alloc, table, &remembered.gids, accounts)?;
    check_given(alloc, accounts, given.as_slice())?;
    let rows = group_rows(alloc, spec, declared, table, given.as_slice())?;
    Ok(Side { given, rows })
}

/// The rows of all users, by the rows of the groups.
fn user_rows(
    alloc: Global,
    spec: &Spec,
    declared: &Declared,
    table: &[PasswdRow],
    group: &[GroupRow],
    given: &[Given<'_, UserSpec>],
) -> Result<Vec<PasswdRow>, MergeFault>
    ensures ok { IfOk result (λ rows. rows.items ≡ merged_users (undeclared spec.now.mutable (user_names spec.now) declared.now.users) (gid_named group.now) given.now table.now) }
    ensures fine { OnOk result (user_fault (gid_named group.now) (given_accounts given.now) (given_ids given.now) ≡ None) }
    ensures fault { IfErr result (λ why. (why ≡ MergeFault.Memory) ⊎ (user_fault (gid_named group.now) (given_accounts given.now) (given_ids given.now) ≡ Some why)) }
{
    let names = Names::of(alloc, spec.users().as_slice(), declared.users.as_slice())?;
    merged_users(alloc, table, group, given, names.staying(spec.mutable()))
}

/// The users, by the rows of the groups.
pub fn merge_users<'a>(
    alloc: Global,
    spec: &'a Spec,
    tables: &Tables,
    remembered: &Remembered,
    declared: &Declared,
    groups: &Side<'_, GroupSpec, GroupRow>,
) -> Result<Side<'a, UserSpec, PasswdRow>, MergeFault>
    requires group { AreGroups spec.now (stored_of tables.now remembered.now declared.now) groups.now.given.items groups.now.rows.items }
    requires passwd { IsSoundPasswd tables.now.passwd }
    ensures sound { OnOk result (IsSound spec.now) }
    ensures ok { IfOk result (λ side. AreUsers spec.now (stored_of tables.now remembered.now declared.now) side.given.items side.rows.items) }
    ensures fault { IfErr result (λ fault. (fault ≡ MergeFault.Memory)
        ⊎ (user_fault (gid_of spec.now (stored_of tables.now remembered.now declared.now)) spec.now.users (user_ids spec.now (stored_of tables.now remembered.now declared.now)) ≡ Some fault)) }
{
    let accounts = spec.users().as_slice();
    let table = tables.passwd.as_slice();
    let given = give(alloc, table, &remembered.uids, accounts)?;
    let group = groups.rows.as_slice();
    let rows = user_rows(alloc, spec, declared, table, group, given.as_slice())?;
    check_given(alloc, accounts, given.as_slice())?;
    Ok(Side { given, rows })
}
