//! The leaves of the store paths that go, in the order in which they do.
ghost use Rattle.std.specs.Prelude.{◌≡◌, ◌++◌, ◌∷◌, [], not, filter, IfOk, OnOk};
ghost use Rattle.host_trait.specs.Host.{Told};
ghost use Rattle.host_trait.specs.Reading.{IsReading};
ghost use Rattle.host_trait.specs.World.{is_path, listed};
ghost use Rattle.boot_entries.specs.Entries.{version_path};
ghost use Rattle.store_collect.specs.Collection.{first_of, leaves_of};

use boot_entries::version_path;
use host_trait::{HostFault, Tree};
use std::alloc::{AllocError, Global};
use switch_names::{Listed, Path, SystemName};

/// Adds those of some paths that are this one.
fn add_same(
    alloc: Global,
    leaves: &mut Listed<Path>,
    paths: &[Path],
    at: &Path,
) -> Result<(), AllocError>
    ensures { OnOk result (leaves.new ≡ leaves.old ++ filter (λ q. is_path q at.now) paths.now) }
{
    for path in paths {
        if path == at {
            leaves.push(path.copy(alloc)?)?;
        }
    }
    Ok(())
}

/// Adds those of some paths that aren't this one.
fn add_others(
    alloc: Global,
    leaves: &mut Listed<Path>,
    paths: &[Path],
    at: &Path,
) -> Result<(), AllocError>
    ensures { OnOk result (leaves.new ≡ leaves.old ++ filter (λ q. not (is_path q at.now)) paths.now) }
{
    for path in paths {
        if path != at {
            leaves.push(path.copy(alloc)?)?;
        }
    }
    Ok(())
}

/// Adds the leaves of a store path: its version first, and then the others in byte order.
fn add_leaves<T: Tree>(
    alloc: Global,
    host: &mut T,
    leaves: &mut Listed<Path>,
    system: &SystemName,
) -> Result<(), HostFault>
    ensures added { OnOk result (Told (T.host host.old) (λ w. leaves.new ≡ leaves.old ++ first_of (version_path system.now) (listed system.now w.leaves))) }
    ensures reads { IsReading (T.host host.old) (T.host host.new) result }
{
    let version = version_path(alloc, system)?;
    let paths = host.list(alloc, system.path())?;
    add_same(alloc, leaves, paths.as_slice(), &version)?;
    add_others(alloc, leaves, paths.as_slice(), &version)?;
    Ok(())
}

/// The leaves of some store paths, path by path: in each its version first, and then the others in byte order.
pub(crate) fn dropped_leaves<T: Tree>(
    alloc: Global,
    host: &mut T,
    names: &[SystemName],
) -> Result<Listed<Path>, HostFault>
    ensures leaves { IfOk result (λ leaves. Told (T.host host.old) (λ w. leaves ≡ leaves_of names.now w.leaves)) }
    ensures reads { IsReading (T.host host.old) (T.host host.new) result }
{
    let mut leaves = Listed::new(alloc);
    for system in names {
        add_leaves(alloc, host, &mut leaves, system)?;
    }
    Ok(leaves)
}
