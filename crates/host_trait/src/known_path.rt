//! Paths that the program knows by heart.
ghost use Rattle.std.specs.Prelude.{◌≡◌, IfOk, None};
ghost use Rattle.switch_names.specs.Path.{path_fault};
ghost use Rattle.host_trait.specs.World.{stage};

use std::alloc::{AllocError, Global};
use switch_names::{NameFault, Path};

/// The path of a text that is known to be one.
pub fn fixed_path(alloc: Global, text: &str) -> Result<Path, AllocError>
    requires { path_fault text.now ≡ None }
    ensures { IfOk result (λ path. path ≡ text.now) }
{
    Path::parse(alloc, text).map_err(|_fault: NameFault| AllocError)
}

/// The place at which a leaf is written before it takes its own.
#[tactic(auto, unfolding(crate::specs::World::stage))]
pub fn stage_path(alloc: Global) -> Result<Path, AllocError>
    ensures { IfOk result (λ path. path ≡ stage) }
{
    fixed_path(alloc, "nix/var/nixswitch.stage")
}
