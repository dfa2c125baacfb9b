//! Puts that are kept beyond a loss of power before what rests on them.
ghost use Rattle.std.specs.Prelude.{OnOk};
ghost use Rattle.host_trait.specs.Host.{Comes, HasCause, Leads, Passes, Told};
ghost use Rattle.tree_put.specs.Sequence.{ArePutsApart, CanPutAll, IsPutting, WritesOthers, with_puts};

use host_trait::{HostFault, Tree};
use std::alloc::Global;
use tree_put::{LeafPut, put_all};

/// Puts leaves, one after the other, where other ones or none stand, and has all that was changed kept beyond a loss of power.
pub fn put_kept<T: Tree>(alloc: Global, host: &mut T, puts: &[LeafPut]) -> Result<(), HostFault>
    requires apart { ArePutsApart puts.now }
    requires can { Told (T.host host.old) (CanPutAll puts.now) }
    ensures ok { OnOk result (Comes (T.host host.old) (T.host host.new) (with_puts puts.now)) }
    ensures written { OnOk result (Leads (T.host host.old) (T.host host.new) (WritesOthers puts.now)) }
    ensures moments { Passes (T.host host.old) (T.host host.new) (IsPutting puts.now) }
    ensures cause { HasCause (T.host host.old) (T.host host.new) result }
{
    put_all(alloc, host, puts)?;
    host.sync(alloc)?;
    Ok(())
}
