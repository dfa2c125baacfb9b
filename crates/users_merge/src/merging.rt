//! The merge of declared accounts with those that stand.
ghost use Rattle.std.specs.Prelude.{◌≡◌, ◌⊎◌, ◌++◌, true, false, map, Some, IfOk, IfErr};
ghost use Rattle.std.specs.FinMap.{get};
ghost use Rattle.std.specs.List.{AllByRecursion};
ghost use Rattle.std.specs.Option.{option_or};
ghost use Rattle.account_text.specs.Group.{IsSoundGroup, group_name};
ghost use Rattle.account_text.specs.Order.{IsInOrder, group_key, passwd_key};
ghost use Rattle.account_text.specs.Passwd.{IsSoundPasswd, passwd_name};
ghost use Rattle.account_text.specs.Shadow.{IsSoundShadow};
ghost use Rattle.account_text.specs.Table.{are_distinct};
ghost use Rattle.users_spec.specs.Spec.{IsSound, group_names, user_names};
ghost use Rattle.switch_names.specs.Names.{Name};
ghost use Rattle.users_merge.specs.Account.{group_account, id_of, user_account};
ghost use Rattle.users_merge.specs.Given.{IsId, given_accounts, given_ids};
ghost use Rattle.users_merge.specs.Merge.{IsMerge, fault, kept, kept_of};
ghost use Rattle.users_merge.specs.Order.{AreInOrder};
ghost use Rattle.users_merge.specs.ShadowRows.{merged_shadow};
ghost use Rattle.users_merge.specs.Sides.{AreGroups, AreUsers};
ghost use Rattle.users_merge.specs.Stored.{merged_of, ordered, stored_of};

use crate::declared_names::Declared;
use crate::giving::Given;
use crate::keeping::add_kept;
use crate::kept::Kept;
use crate::merge_fault::MergeFault;
use crate::merged::Merged;
use crate::names::{all_names, now_names};
use crate::remembered::Remembered;
use crate::remembering::with_ids;
use crate::shadow::merged_shadow;
use crate::sides::{Side, merge_groups, merge_users};
use account_text::{GroupRow, PasswdRow, ShadowRow, Tables, group_in_order, passwd_in_order};
use std::alloc::{AllocError, Global};
use switch_names::Listed;
use users_spec::{GroupSpec, Spec, UserSpec};

/// The tables in the order in which they are written.
fn ordered_tables(
    alloc: Global,
    spec: &Spec,
    group: Vec<GroupRow>,
    passwd: Vec<PasswdRow>,
    shadow: &[ShadowRow],
) -> Result<Tables, AllocError>
    ensures group { IfOk result (λ tables. are_distinct (map group_name group.items) ≡ true → IsInOrder group_key group.items tables.group) }
    ensures passwd { IfOk result (λ tables. are_distinct (map passwd_name passwd.items) ≡ true → IsInOrder passwd_key passwd.items tables.passwd) }
    ensures shadow { IfOk result (λ tables. tables.shadow ≡ merged_shadow spec.now.mutable spec.now.users shadow.now tables.passwd) }
{
    let group = group_in_order(Listed::from_vec(group));
    let passwd = passwd_in_order(Listed::from_vec(passwd));
    let shadow = merged_shadow(alloc, spec, passwd.as_slice(), shadow)?;
    Ok(Tables {
        group,
        passwd,
        shadow,
    })
}

/// The accounts that keep other ids than those that are asked for.
fn kept_accounts(
    alloc: Global,
    groups: &[Given<'_, GroupSpec>],
    users: &[Given<'_, UserSpec>],
) -> Result<Listed<Kept>, AllocError>
    ensures { IfOk result (λ kept. kept ≡ kept_of false (map group_account (given_accounts groups.now)) (given_ids groups.now)
        ++ kept_of true (map user_account (given_accounts users.now)) (given_ids users.now)) }
{
    let mut kept = Listed::new(alloc);
    add_kept(alloc, &mut kept, false, groups)?;
    add_kept(alloc, &mut kept, true, users)?;
    Ok(kept)
}

/// The names that are declared now.
fn declared_now(alloc: Global, spec: &Spec) -> Result<Declared, AllocError>
    ensures users { IfOk result (λ declared. declared.users ≡ ordered (user_names spec.now)) }
    ensures groups { IfOk result (λ declared. declared.groups ≡ ordered (group_names spec.now)) }
{
    Ok(Declared {
        users: now_names(alloc, spec.users().as_slice())?,
        groups: now_names(alloc, spec.groups().as_slice())?,
    })
}

/// The names that are declared now or were so before.
fn declared_ever(alloc: Global, spec: &Spec, before: &Declared) -> Result<Declared, AllocError>
    ensures users { IfOk result (λ declared. declared.users ≡ ordered (before.now.users ++ ordered (user_names spec.now))) }
    ensures groups { IfOk result (λ declared. declared.groups ≡ ordered (before.now.groups ++ ordered (group_names spec.now))) }
{
    Ok(Declared {
        users: all_names(alloc, before.users.as_slice(), spec.users().as_slice())?,
        groups: all_names(alloc, before.groups.as_slice(), spec.groups().as_slice())?,
    })
}

/// The remembered ids, with those that the declared accounts have now.
fn ids_now(
    alloc: Global,
    remembered: &Remembered,
    groups: &[Given<'_, GroupSpec>],
    users: &[Given<'_, UserSpec>],
) -> Result<Remembered, AllocError>
    requires groups { AllByRecursion IsId (given_ids groups.now) }
    requires users { AllByRecursion IsId (given_ids users.now) }
    ensures uids { IfOk result (λ ids. (name : Name) → get ids.uids name ≡ option_or (id_of (map user_account (given_accounts users.now)) (given_ids users.now) name) (get remembered.now.uids name)) }
    ensures gids { IfOk result (λ ids. (name : Name) → get ids.gids name ≡ option_or (id_of (map group_account (given_accounts groups.now)) (given_ids groups.now) name) (get remembered.now.gids name)) }
{
    let uids = with_ids(alloc, &remembered.uids, users)?;
    let gids = with_ids(alloc, &remembered.gids, groups)?;
    Ok(Remembered { uids, gids })
}

/// The outcome of a merge by its groups and its users.
fn merged(
    alloc: Global,
    spec: &Spec,
    tables: &Tables,
    remembered: &Remembered,
    declared: &Declared,
    groups: Side<'_, GroupSpec, GroupRow>,
    users: Side<'_, UserSpec, PasswdRow>,
) -> Result<Merged, AllocError>
    requires groups { AreGroups spec.now (stored_of tables.now remembered.now declared.now) groups.given.items groups.rows.items }
    requires users { AreUsers spec.now (stored_of tables.now remembered.now declared.now) users.given.items users.rows.items }
    requires sound { IsSound spec.now }
    requires shadow { IsSoundShadow tables.now.shadow }
    ensures merged { IfOk result (λ merged. IsMerge spec.now (stored_of tables.now remembered.now declared.now) (merged_of merged)) }
    ensures order { IfOk result AreInOrder }
    ensures sound { IfOk result (λ merged. IsSoundGroup merged.tables.group × IsSoundPasswd merged.tables.passwd × IsSoundShadow merged.tables.shadow) }
    ensures kept { IfOk result (λ merged. merged.kept ≡ kept spec.now (stored_of tables.now remembered.now declared.now)) }
{
    let remembered = ids_now(
        alloc,
        remembered,
        groups.given.as_slice(),
        users.given.as_slice(),
    )?;
    let kept = kept_accounts(alloc, groups.given.as_slice(), users.given.as_slice())?;
    let group = groups.into_rows();
    let passwd = users.into_rows();
    let tables = ordered_tables(alloc, spec, group, passwd, tables.shadow.as_slice())?;
    Ok(Merged {
        tables,
        remembered,
        union: declared_ever(alloc, spec, declared)?,
        declared: declared_now(alloc, spec)?,
        kept,
    })
}

/// Merges the accounts that a specification declares with those that stand.
///
/// A declared account keeps the id of its row; else it gets the specified id, the one that is
/// remembered for its name, or a free one of its range. A declared account has the row of its
/// declaration. Any other stays unchanged where the specification lets users change accounts and
/// it wasn't declared before, and goes elsewhere. `declared` are the names that were declared before.
///
/// Source: nixpkgs, update-users-groups.pl; NixOS manual, "User Management".
pub fn merge(
    alloc: Global,
    spec: &Spec,
    tables: &Tables,
    remembered: &Remembered,
    declared: &Declared,
) -> Result<Merged, MergeFault>
    requires group { IsSoundGroup tables.now.group }
    requires passwd { IsSoundPasswd tables.now.passwd }
    requires shadow { IsSoundShadow tables.now.shadow }
    ensures merged { IfOk result (λ merged. IsMerge spec.now (stored_of tables.now remembered.now declared.now) (merged_of merged)) }
    ensures order { IfOk result AreInOrder }
    ensures sound { IfOk result (λ merged. IsSoundGroup merged.tables.group × IsSoundPasswd merged.tables.passwd × IsSoundShadow merged.tables.shadow) }
    ensures kept { IfOk result (λ merged. merged.kept ≡ kept spec.now (stored_of tables.now remembered.now declared.now)) }
    ensures fault { IfErr result (λ why. (why ≡ MergeFault.Memory) ⊎ (fault spec.now (stored_of tables.now remembered.now declared.now) ≡ Some why)) }
{
    let groups = merge_groups(alloc, spec, tables, remembered, declared)?;
    let users = merge_users(alloc, spec, tables, remembered, declared, &groups)?;
    Ok(merged(alloc, spec, tables, remembered, declared, groups, users)?)
}
