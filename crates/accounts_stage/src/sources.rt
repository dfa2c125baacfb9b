//! Which contents are taken to set accounts.
ghost use Rattle.std.specs.Prelude.{IfOk};
ghost use Rattle.host_trait.specs.World.{Leaves};
ghost use Rattle.leaf_limits.specs.Limits.{AreTaken};
ghost use Rattle.accounts_stage.specs.Lengths.{takes_accounts};

use crate::places::{
    gids_path, group_path, groups_path, passwd_path, shadow_path, spec_path, uids_path, users_path,
};
use std::alloc::{AllocError, Global};
use switch_names::{Listed, Path, SystemName};

/// The paths of the contents that setting the accounts of a system takes: its specification, and those of the three tables, the two
/// lists of declared names and the two maps of ids.
pub fn taken(alloc: Global, system: &SystemName) -> Result<Listed<Path>, AllocError>
    ensures taken { IfOk result (λ places. (leaves : Leaves) → AreTaken places (takes_accounts system.now) leaves) }
{
    let mut places = Listed::new(alloc);
    places.push(spec_path(alloc, system)?)?;
    places.push(group_path(alloc)?)?;
    places.push(passwd_path(alloc)?)?;
    places.push(shadow_path(alloc)?)?;
    places.push(groups_path(alloc)?)?;
    places.push(users_path(alloc)?)?;
    places.push(gids_path(alloc)?)?;
    places.push(uids_path(alloc)?)?;
    Ok(places)
}
