//! Names below `etc`.
ghost use Rattle.std.specs.Prelude.{◌≡◌, Some, None, IfOk, if◌then◌else◌};
ghost use Rattle.etc_clean.specs.Names.{etc_folder, is_in_etc, name_of, place};

use host_trait::fixed_path;
use std::alloc::{AllocError, Global};
use switch_names::Path;

/// The folder of all that a farm puts.
#[tactic(auto, unfolding(crate::specs::Names::etc_folder))]
pub fn etc_folder(alloc: Global) -> Result<Path, AllocError>
    ensures { IfOk result (λ path. path ≡ etc_folder) }
{
    fixed_path(alloc, "etc")
}

/// The path of a name below `etc`.
#[tactic(auto, unfolding(crate::specs::Names::place))]
pub fn etc_place(alloc: Global, name: &Path) -> Result<Path, AllocError>
    ensures { IfOk result (λ path. path ≡ place name.now) }
{
    let folder = fixed_path(alloc, "etc")?;
    // Too long a path is no leaf's: it counts as want of memory.
    folder.below(alloc, name.as_str())
}

/// The name below `etc` that a path has, where it has one.
pub fn name_in_etc(alloc: Global, path: &Path) -> Result<Option<Path>, AllocError>
    ensures { IfOk result (λ name. name ≡ (if is_in_etc path.now then Some (name_of path.now) else None)) }
{
    let folder = etc_folder(alloc)?;
    path.name_below(alloc, &folder)
}
