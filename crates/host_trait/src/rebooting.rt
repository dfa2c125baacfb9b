//! What a reboot leaves of the leaves by path.
ghost use Rattle.std.specs.Prelude.{◌≡◌, not};
ghost use Rattle.std.specs.FinMap.{retain_keys};
ghost use Rattle.host_trait.specs.LeafMap.{leaves_of};
ghost use Rattle.host_trait.specs.Reboot.{is_in_run, outlasts};
ghost use Rattle.host_trait.specs.World.{IsSound};

use crate::leaf::Leaf;
use crate::leaf_map::is_elsewhere;
use std::collections::BTreeMap;
use switch_names::Path;

/// Whether a path is that of the folder that a reboot empties, or lies below it.
#[tactic(auto, unfolding(crate::specs::Reboot::run_folder))]
fn is_in_run(path: &Path) -> bool
    ensures { result ≡ is_in_run path.now }
{
    path.as_str() == "run" || path.as_str().starts_with("run/")
}

/// Whether the leaf at a path outlasts a reboot.
fn outlasts(path: &Path) -> bool
    ensures { result ≡ outlasts path.now }
{
    !is_in_run(path) && is_elsewhere(path)
}

/// Drops the leaves that a reboot loses.
pub fn drop_lost(leaves: &mut BTreeMap<Path, Leaf>)
    ensures kept { leaves_of leaves.new ≡ retain_keys (leaves_of leaves.old) outlasts }
    ensures sound { IsSound (leaves_of leaves.old) → IsSound (leaves_of leaves.new) }
{
    leaves.retain(|path, _leaf| outlasts(path));
}

/// Drops the leaves that a reboot loses, but for the stage's.
pub fn drop_run(leaves: &mut BTreeMap<Path, Leaf>)
    ensures kept { leaves_of leaves.new ≡ retain_keys (leaves_of leaves.old) (λ q. not (is_in_run q)) }
    ensures sound { IsSound (leaves_of leaves.old) → IsSound (leaves_of leaves.new) }
{
    leaves.retain(|path, _leaf| !is_in_run(path));
}
