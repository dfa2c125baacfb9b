//! Where accounts stand.
ghost use Rattle.std.specs.Prelude.{◌≡◌, IfOk};
ghost use Rattle.accounts_stage.specs.Places.{gids_place, group_place, groups_place, passwd_place, shadow_place, spec_path, table_place, uids_place, users_place};

use host_trait::fixed_path;
use std::alloc::{AllocError, Global};
use switch_names::{Path, SystemName};
use switch_parts::TableFile;

/// The place of the table of groups.
#[tactic(auto, unfolding(crate::specs::Places::group_place))]
pub fn group_path(alloc: Global) -> Result<Path, AllocError>
    ensures { IfOk result (λ path. path ≡ group_place) }
{
    fixed_path(alloc, "etc/group")
}

/// The place of the table of users.
#[tactic(auto, unfolding(crate::specs::Places::passwd_place))]
pub fn passwd_path(alloc: Global) -> Result<Path, AllocError>
    ensures { IfOk result (λ path. path ≡ passwd_place) }
{
    fixed_path(alloc, "etc/passwd")
}

/// The place of the table of the users' passwords.
#[tactic(auto, unfolding(crate::specs::Places::shadow_place))]
pub fn shadow_path(alloc: Global) -> Result<Path, AllocError>
    ensures { IfOk result (λ path. path ≡ shadow_place) }
{
    fixed_path(alloc, "etc/shadow")
}

/// The place of a table.
pub fn table_path(alloc: Global, file: TableFile) -> Result<Path, AllocError>
    ensures { IfOk result (λ path. path ≡ table_place file) }
{
    match file {
        TableFile::Group => group_path(alloc),
        TableFile::Passwd => passwd_path(alloc),
        TableFile::Shadow => shadow_path(alloc),
    }
}

/// The place of the names of groups that were declared.
#[tactic(auto, unfolding(crate::specs::Places::groups_place))]
pub fn groups_path(alloc: Global) -> Result<Path, AllocError>
    ensures { IfOk result (λ path. path ≡ groups_place) }
{
    fixed_path(alloc, "var/lib/nixos/declarative-groups")
}

/// The place of the names of users that were declared.
#[tactic(auto, unfolding(crate::specs::Places::users_place))]
pub fn users_path(alloc: Global) -> Result<Path, AllocError>
    ensures { IfOk result (λ path. path ≡ users_place) }
{
    fixed_path(alloc, "var/lib/nixos/declarative-users")
}

/// The place of the ids that groups had.
#[tactic(auto, unfolding(crate::specs::Places::gids_place))]
pub fn gids_path(alloc: Global) -> Result<Path, AllocError>
    ensures { IfOk result (λ path. path ≡ gids_place) }
{
    fixed_path(alloc, "var/lib/nixos/gid-map")
}

/// The place of the ids that users had.
#[tactic(auto, unfolding(crate::specs::Places::uids_place))]
pub fn uids_path(alloc: Global) -> Result<Path, AllocError>
    ensures { IfOk result (λ path. path ≡ uids_place) }
{
    fixed_path(alloc, "var/lib/nixos/uid-map")
}

/// Where a system keeps what it declares of accounts.
#[tactic(auto, unfolding(crate::specs::Places::spec_path))]
pub fn spec_path(alloc: Global, system: &SystemName) -> Result<Path, AllocError>
    ensures { IfOk result (λ path. path ≡ spec_path system.now) }
{
    system.place(alloc, "users-groups.json")
}
