//! Puts and removals of several leaves, one after the other.
ghost use Rattle.std.specs.Prelude.{OnOk};
ghost use Rattle.host_trait.specs.Host.{Becomes, Comes, HasCause, Leads, Passes, Told};
ghost use Rattle.tree_put.specs.Sequence.{ArePutsApart, CanPutAll, IsPutting, IsRemoving, WritesOthers, with_puts, without_places};

use crate::leaf_put::LeafPut;
use crate::places::{drop_leaf, put_if_other};
use host_trait::{HostFault, Tree};
use std::alloc::Global;
use switch_names::Path;

/// Puts leaves, one after the other, where other ones or none stand.
///
/// A leaf that stands as its turn comes isn't written. A cut leaves the world after the first of
/// them, but for the stage.
pub fn put_all<T: Tree>(alloc: Global, host: &mut T, puts: &[LeafPut]) -> Result<(), HostFault>
    requires apart { ArePutsApart puts.now }
    requires can { Told (T.host host.old) (CanPutAll puts.now) }
    ensures ok { OnOk result (Comes (T.host host.old) (T.host host.new) (with_puts puts.now)) }
    ensures written { OnOk result (Leads (T.host host.old) (T.host host.new) (WritesOthers puts.now)) }
    ensures moments { Passes (T.host host.old) (T.host host.new) (IsPutting puts.now) }
    ensures cause { HasCause (T.host host.old) (T.host host.new) result }
{
    for one in puts {
        put_if_other(alloc, host, &one.at, &one.leaf)?;
    }
    Ok(())
}

/// Removes the leaves at some places, one after the other.
///
/// A cut leaves the world without the leaves at the first of them.
pub fn drop_all<T: Tree>(alloc: Global, host: &mut T, places: &[Path]) -> Result<(), HostFault>
    ensures ok { OnOk result (Becomes (T.host host.old) (T.host host.new) (without_places places.now)) }
    ensures moments { Passes (T.host host.old) (T.host host.new) (IsRemoving places.now) }
    ensures cause { HasCause (T.host host.old) (T.host host.new) result }
{
    for at in places {
        drop_leaf(alloc, host, at)?;
    }
    Ok(())
}
