//! Whether a switch is unfinished.
ghost use Rattle.std.specs.Prelude.{◌≡◌, IfOk};
ghost use Rattle.host_trait.specs.Host.{Told};
ghost use Rattle.host_trait.specs.Reading.{IsReading};
ghost use Rattle.store_collect.specs.Unfinished.{is_unfinished, stands_at_one, unfinished_places};

use generations::goal_path;
use host_trait::{HostFault, Tree};
use owed_log::owed_paths;
use std::alloc::{AllocError, Global};
use switch_names::{Listed, Path};

/// The places at which a leaf stands while a switch is unfinished.
fn unfinished_paths(alloc: Global) -> Result<Listed<Path>, AllocError>
    ensures { IfOk result (λ paths. paths ≡ unfinished_places) }
{
    let mut paths = owed_paths(alloc)?;
    paths.push(goal_path(alloc)?)?;
    Ok(paths)
}

/// Whether a leaf stands at one of some places.
fn stands_at_one<T: Tree>(alloc: Global, host: &mut T, places: &[Path]) -> Result<bool, HostFault>
    ensures stands { IfOk result (λ stands. Told (T.host host.old) (λ w. stands ≡ stands_at_one places.now w.leaves)) }
    ensures reads { IsReading (T.host host.old) (T.host host.new) result }
{
    for place in places {
        if host.read(alloc, place)?.is_some() {
            return Ok(true);
        }
    }
    Ok(false)
}

/// Whether a switch is unfinished: a leaf stands where it records what it owes, or its goal.
pub(crate) fn is_unfinished<T: Tree>(alloc: Global, host: &mut T) -> Result<bool, HostFault>
    ensures unfinished { IfOk result (λ unfinished. Told (T.host host.old) (λ w. unfinished ≡ is_unfinished w.leaves)) }
    ensures reads { IsReading (T.host host.old) (T.host host.new) result }
{
    let paths = unfinished_paths(alloc)?;
    stands_at_one(alloc, host, paths.as_slice())
}
