//! The places of the three lists.
ghost use Rattle.std.specs.Prelude.{◌≡◌, IfOk};
ghost use Rattle.owed_lists.specs.Lists.{place_of};

use host_trait::fixed_path;
use log_text::Which;
use std::alloc::{AllocError, Global};
use switch_names::Path;

/// The place of a list.
#[tactic(auto, unfolding(crate::specs::Lists::place_of))]
pub fn list_path(alloc: Global, which: Which) -> Result<Path, AllocError>
    ensures { IfOk result (λ path. path ≡ place_of which) }
{
    match which {
        Which::Starts => fixed_path(alloc, "run/nixos/start-list"),
        Which::Restarts => fixed_path(alloc, "run/nixos/restart-list"),
        Which::Reloads => fixed_path(alloc, "run/nixos/reload-list"),
    }
}
