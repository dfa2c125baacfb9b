//! The files that a merge of accounts puts.
ghost use Rattle.std.specs.Prelude.{◌≡◌, ◌++◌, IfOk, OnOk};
ghost use Rattle.host_trait.specs.Leaf.{open_file};
ghost use Rattle.tree_put.specs.Sequence.{put_at};
ghost use Rattle.accounts_stage.specs.Files.{closed_file, ids_puts, names_puts, names_text, table_puts};
ghost use Rattle.accounts_stage.specs.Puts.{AreAtAccounts, first_puts};
ghost use Rattle.id_memory.specs.Json.{ids_text};

use crate::names::write_names;
use crate::places::{
    gids_path, group_path, groups_path, passwd_path, shadow_path, uids_path, users_path,
};
use account_text::{Tables, write_group, write_passwd, write_shadow};
use host_trait::Leaf;
use id_memory::IdMap;
use std::alloc::{AllocError, Global};
use switch_names::{Bytes, Listed, Path, Text};
use tree_put::LeafPut;
use users_merge::{Declared, Merged, Remembered};

/// A file of mode 0644 that root owns.
fn open_put(at: Path, bytes: Bytes) -> LeafPut
    ensures { result ≡ put_at at (open_file bytes) }
{
    LeafPut {
        at,
        leaf: Leaf::open_file(bytes),
    }
}

/// A file of mode 0600 that root owns.
fn closed_put(at: Path, bytes: Bytes) -> LeafPut
    ensures { result ≡ put_at at (closed_file bytes) }
{
    LeafPut {
        at,
        leaf: Leaf::file(bytes, 0o600, 0, 0),
    }
}

/// The file of names.
fn names_put(alloc: Global, at: Path, names: &Listed<Text>) -> Result<LeafPut, AllocError>
    ensures { IfOk result (λ put. put ≡ put_at at (open_file (names_text names.now))) }
{
    let text = write_names(alloc, names.as_slice())?;
    Ok(open_put(at, text))
}

/// The file of a map of ids.
fn ids_put(alloc: Global, at: Path, ids: &IdMap) -> Result<LeafPut, AllocError>
    ensures { IfOk result (λ put. put ≡ put_at at (open_file (ids_text ids.now))) }
{
    let text = ids.write(alloc)?;
    Ok(open_put(at, text))
}

/// Adds the files of names.
fn add_names(alloc: Global, puts: &mut Listed<LeafPut>, names: &Declared) -> Result<(), AllocError>
    ensures { OnOk result (puts.new ≡ puts.old ++ names_puts names.now) }
{
    let users = names_put(alloc, users_path(alloc)?, &names.users)?;
    let groups = names_put(alloc, groups_path(alloc)?, &names.groups)?;
    puts.push(users)?;
    puts.push(groups)
}

/// Adds the files of the maps of ids.
fn add_ids(alloc: Global, puts: &mut Listed<LeafPut>, ids: &Remembered) -> Result<(), AllocError>
    ensures { OnOk result (puts.new ≡ puts.old ++ ids_puts ids.now) }
{
    let uids = ids_put(alloc, uids_path(alloc)?, &ids.uids)?;
    let gids = ids_put(alloc, gids_path(alloc)?, &ids.gids)?;
    puts.push(uids)?;
    puts.push(gids)
}

/// Adds the files of the tables.
fn add_tables(alloc: Global, puts: &mut Listed<LeafPut>, tables: &Tables) -> Result<(), AllocError>
    ensures { OnOk result (puts.new ≡ puts.old ++ table_puts tables.now) }
{
    let group = open_put(group_path(alloc)?, write_group(alloc, &tables.group)?);
    let passwd = open_put(passwd_path(alloc)?, write_passwd(alloc, &tables.passwd)?);
    let shadow = closed_put(shadow_path(alloc)?, write_shadow(alloc, &tables.shadow)?);
    puts.push(group)?;
    puts.push(passwd)?;
    puts.push(shadow)
}

/// The files of a merge but for the last two, in the order in which they are put.
pub fn first_puts(alloc: Global, merged: &Merged) -> Result<Listed<LeafPut>, AllocError>
    ensures puts { IfOk result (λ puts. puts ≡ first_puts merged.now) }
    ensures places { IfOk result AreAtAccounts }
{
    let mut puts = Listed::new(alloc);
    add_names(alloc, &mut puts, &merged.union)?;
    add_ids(alloc, &mut puts, &merged.remembered)?;
    add_tables(alloc, &mut puts, &merged.tables)?;
    Ok(puts)
}

/// The last two files of a merge: the names that are declared now.
pub fn last_puts(alloc: Global, merged: &Merged) -> Result<Listed<LeafPut>, AllocError>
    ensures puts { IfOk result (λ puts. puts ≡ names_puts merged.now.declared) }
    ensures places { IfOk result AreAtAccounts }
{
    let mut puts = Listed::new(alloc);
    add_names(alloc, &mut puts, &merged.declared)?;
    Ok(puts)
}
