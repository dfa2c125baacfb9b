//! Carries a collection out.
ghost use Rattle.std.specs.Prelude.{◌++◌, OnOk};
ghost use Rattle.host_trait.specs.Host.{Becomes, HasCause, Leads, Passes, Told};
ghost use Rattle.tree_put.specs.Sequence.{IsRemoving, without_places};
ghost use Rattle.boot_entries.specs.Steps.{AreEntries, CanApplyBoot};
ghost use Rattle.store_collect.specs.Steps.{IsCollectedBy, IsCollecting};

use crate::collection::Collection;
use host_trait::{HostFault, Tree};
use std::alloc::Global;
use switch_names::Path;
use tree_put::drop_all;

/// Removes the leaves at some places, one after the other, and has that kept beyond a loss of power.
fn drop_kept<T: Tree>(alloc: Global, host: &mut T, places: &[Path]) -> Result<(), HostFault>
    ensures ok { OnOk result (Becomes (T.host host.old) (T.host host.new) (without_places places.now)) }
    ensures moments { Passes (T.host host.old) (T.host host.new) (IsRemoving places.now) }
    ensures cause { HasCause (T.host host.old) (T.host host.new) result }
{
    drop_all(alloc, host, places)?;
    host.sync(alloc)?;
    Ok(())
}

/// Removes the leaves at some places, and then those at others.
fn drop_both<T: Tree>(
    alloc: Global,
    host: &mut T,
    first: &[Path],
    then: &[Path],
) -> Result<(), HostFault>
    ensures ok { OnOk result (Becomes (T.host host.old) (T.host host.new) (without_places (first.now ++ then.now))) }
    ensures moments { Passes (T.host host.old) (T.host host.new) (IsRemoving (first.now ++ then.now)) }
    ensures cause { HasCause (T.host host.old) (T.host host.new) result }
{
    drop_kept(alloc, host, first)?;
    drop_kept(alloc, host, then)?;
    Ok(())
}

/// Carries out the collection that is planned: makes the boot menu of the generations that are kept, removes the links of the
/// others by ascending number, and then the leaves of the dead store paths, path by path.
///
/// At each moment the world is, but for the stage, the one after the first so many of these steps. So an entry goes
/// before the link of its generation, and that before a leaf of its system, of which the version goes first. The removed
/// links are gone beyond a loss of power before a leaf is removed.
///
/// Source: nix-collect-garbage(1); unlink(2).
pub fn apply<T: Tree>(alloc: Global, host: &mut T, collection: &Collection) -> Result<(), HostFault>
    requires places { AreEntries collection.now.texts.entries }
    requires can { Told (T.host host.old) (CanApplyBoot collection.now.texts) }
    ensures ok { OnOk result (Leads (T.host host.old) (T.host host.new) (IsCollectedBy collection.now)) }
    ensures moments { Passes (T.host host.old) (T.host host.new) (IsCollecting collection.now) }
    ensures cause { HasCause (T.host host.old) (T.host host.new) result }
{
    boot_entries::apply(alloc, host, &collection.texts)?;
    let links = collection.links.as_slice();
    let leaves = collection.leaves.as_slice();
    drop_both(alloc, host, links, leaves)?;
    Ok(())
}
