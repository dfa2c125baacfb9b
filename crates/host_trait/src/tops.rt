//! The first names of the paths at which leaves stand.
ghost use Rattle.std.specs.Prelude.{◌≡◌, IfOk, Some, slice_get};
ghost use Rattle.switch_names.specs.Path.{names_of};
ghost use Rattle.host_trait.specs.LeafMap.{leaves_of};
ghost use Rattle.host_trait.specs.World.{AreTops};

use crate::known_path::fixed_path;
use crate::leaf::Leaf;
use crate::leaf_map::is_elsewhere;
use std::alloc::{AllocError, Global};
use std::collections::{BTreeMap, BTreeSet};
use switch_names::{Listed, Path};

/// The first name of a path.
fn first_name(alloc: Global, path: &Path) -> Result<Path, AllocError>
    ensures { IfOk result (λ first. slice_get (names_of path.now) 0 ≡ Some first) }
{
    match path.as_str().split_once('/') {
        Some((first, _rest)) => fixed_path(alloc, first),
        None => path.copy(alloc),
    }
}

/// The first name of each path with a leaf other than the stage's, in byte order.
pub fn top_names(alloc: Global, leaves: &BTreeMap<Path, Leaf>) -> Result<Listed<Path>, AllocError>
    ensures { IfOk result (AreTops (leaves_of leaves.now)) }
{
    let mut tops = BTreeSet::new(alloc);
    for path in leaves.keys() {
        if is_elsewhere(path) {
            tops.insert(first_name(alloc, path)?)?;
        }
    }
    Listed::of_set(alloc, tops)
}
