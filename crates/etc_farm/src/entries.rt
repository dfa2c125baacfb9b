//! Puts the entries of a farm.
ghost use Rattle.std.specs.Prelude.{◌≡◌, ◌++◌, ◌∷◌, [], OnOk};
ghost use Rattle.host_trait.specs.Host.{Told, Comes, Leads, Passes, HasCause};
ghost use Rattle.host_trait.specs.World.{with_leaf};
ghost use Rattle.tree_put.specs.Put.{CanPut, IsOldOrNew};
ghost use Rattle.tree_put.specs.Sequence.{IsPutting, with_puts};
ghost use Rattle.etc_clean.specs.Etc.{leaf_of};
ghost use Rattle.etc_clean.specs.Names.{place};
ghost use Rattle.etc_farm.specs.Steps.{AreStanding, CanPutEntries, puts_but};
ghost use Rattle.etc_farm.specs.Written.{WritesEntries};

use etc_clean::{contains, etc_place, item_leaf};
use etc_manifest::Item;
use host_trait::{HostFault, Tree};
use std::alloc::Global;
use switch_names::Path;
use tree_put::put;

/// Puts what stands at an entry.
fn put_item<T: Tree>(alloc: Global, host: &mut T, item: &Item) -> Result<(), HostFault>
    requires { Told (T.host host.old) (CanPut (place item.now.place)) }
    ensures ok { OnOk result (Comes (T.host host.old) (T.host host.new) (with_leaf (place item.now.place) (leaf_of item.now.place item.now.kind))) }
    ensures written { OnOk result (Leads (T.host host.old) (T.host host.new) (λ w v. v.written ≡ w.written ++ place item.now.place ∷ [])) }
    ensures moments { Passes (T.host host.old) (T.host host.new) (IsOldOrNew (place item.now.place) (leaf_of item.now.place item.now.kind)) }
    ensures cause { HasCause (T.host host.old) (T.host host.new) result }
{
    let leaf = item_leaf(alloc, item)?;
    let at = etc_place(alloc, &item.place)?;
    put(alloc, host, &at, &leaf)
}

/// Puts the entries that aren't blocked, in their order, but for those whose leaf stands already.
///
/// A cut leaves those before it and the others as they were.
pub fn put_entries<T: Tree>(
    alloc: Global,
    host: &mut T,
    items: &[Item],
    blocked: &[Path],
    standing: &[Path],
) -> Result<(), HostFault>
    requires can { Told (T.host host.old) (CanPutEntries items.now blocked.now) }
    requires standing { Told (T.host host.old) (AreStanding items.now standing.now) }
    ensures ok { OnOk result (Comes (T.host host.old) (T.host host.new) (with_puts (puts_but blocked.now items.now))) }
    ensures written { OnOk result (Leads (T.host host.old) (T.host host.new) (WritesEntries items.now blocked.now standing.now)) }
    ensures moments { Passes (T.host host.old) (T.host host.new) (IsPutting (puts_but blocked.now items.now)) }
    ensures cause { HasCause (T.host host.old) (T.host host.new) result }
{
    for item in items {
        if contains(blocked, &item.place) {
            continue;
        }
        if contains(standing, &item.place) {
            continue;
        }
        put_item(alloc, host, item)?;
    }
    Ok(())
}
