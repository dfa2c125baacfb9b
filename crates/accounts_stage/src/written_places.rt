//! The places that setting the accounts writes.
ghost use Rattle.std.specs.Prelude.{◌≡◌, ◌++◌, OnOk};
ghost use Rattle.accounts_stage.specs.Places.{account_places, memory_places, table_places};
ghost use Rattle.tree_put.specs.WrittenPlace.{AreApartFromStage};

use crate::places::{
    gids_path, group_path, groups_path, passwd_path, shadow_path, uids_path, users_path,
};
use std::alloc::{AllocError, Global};
use switch_names::Listed;
use tree_put::{WrittenPlace, add_stage, read_before};

/// Adds the tables.
fn add_tables(alloc: Global, places: &mut Listed<WrittenPlace>) -> Result<(), AllocError>
    ensures { OnOk result (places.new ≡ places.old ++ table_places) }
{
    places.push(read_before(group_path(alloc)?))?;
    places.push(read_before(passwd_path(alloc)?))?;
    places.push(read_before(shadow_path(alloc)?))
}

/// Adds the names and the ids that are remembered.
fn add_memory(alloc: Global, places: &mut Listed<WrittenPlace>) -> Result<(), AllocError>
    ensures { OnOk result (places.new ≡ places.old ++ memory_places) }
{
    places.push(read_before(groups_path(alloc)?))?;
    places.push(read_before(users_path(alloc)?))?;
    places.push(read_before(gids_path(alloc)?))?;
    places.push(read_before(uids_path(alloc)?))
}

/// Adds the places that setting the accounts writes, each of which is read before: the tables, the names that were
/// declared, and the ids that accounts had; and the stage.
pub fn add_account_places(
    alloc: Global,
    places: &mut Listed<WrittenPlace>,
) -> Result<(), AllocError>
    ensures places { OnOk result (places.new ≡ places.old ++ account_places) }
    ensures apart { AreApartFromStage places.old → OnOk result (AreApartFromStage places.new) }
{
    add_tables(alloc, places)?;
    add_stage(alloc, places)?;
    add_memory(alloc, places)
}
