//! Who can own a copied file.
ghost use Rattle.std.specs.Prelude.{◌≡◌, Some, None, codes, IfOk, OnOk, if◌then◌else◌};
ghost use Rattle.std.specs.FinMap.{get};
ghost use Rattle.std.specs.Option.{option_or};
ghost use Rattle.switch_names.specs.Names.{Name, is_name};
ghost use Rattle.account_text.specs.Group.{group_name};
ghost use Rattle.account_text.specs.Passwd.{passwd_name};
ghost use Rattle.etc_manifest.specs.Owners.{AreIdsOf, AreOwnersOf, ids_in, owner_id, owner_in};
ghost use Rattle.switch_names.specs.Texts.{after_front};

use crate::place::after_front;
use account_text::{GroupRow, PasswdRow, Tables, read_id};
use std::alloc::{AllocError, Global};
use std::collections::BTreeMap;
use std::marker::Model;
use switch_names::Text;

/// The ids of users and of groups, by the names of the accounts.
///
/// Contracts see both maps from names to ids.
pub struct Owners {
    users: BTreeMap<Text, u32>,
    groups: BTreeMap<Text, u32>,
}

/// One call: a derived drop is proved anew in each function that lets one go.
impl Drop for Owners {
    fn drop(self) {
        let Owners {
            users: _,
            groups: _,
        } = self;
    }
}

impl Model for Owners {
    ghost use Rattle.etc_manifest.specs.Owners.{OwnerIds, ids_in, owners_code};

    ghost Value = { OwnerIds };

    ghost coded = { owners_code };

    ghost view = { λ owners. record { users = ids_in owners.users; groups = ids_in owners.groups } };
}

/// Gives a name an id, unless it has one.
fn add_id(
    alloc: Global,
    ids: &mut BTreeMap<Text, u32>,
    name: &Text,
    id: u32,
) -> Result<(), AllocError>
    ensures { OnOk result ((other : Name) → get (ids_in ids.new) other ≡ option_or (get (ids_in ids.old) other) (if is_name other name.now then Some id else None)) }
{
    if ids.contains_key(name) {
        return Ok(());
    }
    ids.insert(name.copy(alloc)?, id)?;
    Ok(())
}

/// The ids of users by their names.
fn user_ids(alloc: Global, rows: &[PasswdRow]) -> Result<BTreeMap<Text, u32>, AllocError>
    ensures { IfOk result (λ ids. AreIdsOf passwd_name (λ row. row.uid) rows.now (ids_in ids)) }
{
    let mut ids = BTreeMap::new(alloc);
    for row in rows {
        add_id(alloc, &mut ids, &row.name, row.uid)?;
    }
    Ok(ids)
}

/// The ids of groups by their names.
fn group_ids(alloc: Global, rows: &[GroupRow]) -> Result<BTreeMap<Text, u32>, AllocError>
    ensures { IfOk result (λ ids. AreIdsOf group_name (λ row. row.gid) rows.now (ids_in ids)) }
{
    let mut ids = BTreeMap::new(alloc);
    for row in rows {
        add_id(alloc, &mut ids, &row.name, row.gid)?;
    }
    Ok(ids)
}

/// The id of an owner that is a text: the one after a `+`, or that of the account of this name.
fn text_id(alloc: Global, ids: &BTreeMap<Text, u32>, owner: &str) -> Result<Option<u32>, AllocError>
    ensures { IfOk result (λ id. id ≡ owner_in (ids_in ids.now) owner.now (after_front (codes "+") owner.now)) }
{
    match after_front(owner, "+") {
        Some(id) => Ok(read_id(id)),
        None => Ok(ids.get(&Text::from_str(alloc, owner)?).copied()),
    }
}

/// The id of an owner.
fn owner_id(
    alloc: Global,
    ids: &BTreeMap<Text, u32>,
    owner: &[u8],
) -> Result<Option<u32>, AllocError>
    ensures { IfOk result (λ id. id ≡ owner_id (ids_in ids.now) owner.now) }
{
    match std::str::from_utf8(owner) {
        Ok(owner) => text_id(alloc, ids, owner),
        Err(_) => Ok(None),
    }
}

impl Owners {
    /// The owners that the account tables name: the users of passwd(5) and the groups of group(5).
    ///
    /// Of two rows with one name the first stands.
    pub fn of(alloc: Global, tables: &Tables) -> Result<Owners, AllocError>
        ensures { IfOk result (AreOwnersOf tables.now) }
    {
        Ok(Owners {
            users: user_ids(alloc, tables.passwd.as_slice())?,
            groups: group_ids(alloc, tables.group.as_slice())?,
        })
    }

    /// The id of the user that a text names.
    pub(crate) fn user(&self, alloc: Global, owner: &[u8]) -> Result<Option<u32>, AllocError>
        ensures { IfOk result (λ id. id ≡ owner_id self.now.users owner.now) }
    {
        owner_id(alloc, &self.users, owner)
    }

    /// The id of the group that a text names.
    pub(crate) fn group(&self, alloc: Global, owner: &[u8]) -> Result<Option<u32>, AllocError>
        ensures { IfOk result (λ id. id ≡ owner_id self.now.groups owner.now) }
    {
        owner_id(alloc, &self.groups, owner)
    }
}
