//! Puts and removals of one leaf.
ghost use Rattle.std.specs.Prelude.{◌≡◌, ◌≢◌, ◌++◌, ◌∷◌, [], OnOk, IfOk, MatchBool, Some, false};
ghost use Rattle.host_trait.specs.Change.{IsSame};
ghost use Rattle.host_trait.specs.Host.{Told, Leads, Becomes, Comes, Passes, HasCause};
ghost use Rattle.host_trait.specs.World.{stage, with_leaf, without_leaf};
ghost use Rattle.tree_put.specs.Put.{AreApart, CanPut, IsOldOrNew, IsOldOrGone, IsPutIfOther, written_if};

use host_trait::{HostFault, Leaf, Tree};
use std::alloc::Global;
use switch_names::Path;

/// Replaces the leaf at a place in one step, by way of the stage.
///
/// A cut leaves the old leaf or the new one, and every other place but the stage as it was.
/// Source: rename(2).
pub fn put<T: Tree>(alloc: Global, host: &mut T, at: &Path, leaf: &Leaf) -> Result<(), HostFault>
    requires apart { AreApart at.now stage }
    requires can { Told (T.host host.old) (CanPut at.now) }
    ensures ok { OnOk result (Comes (T.host host.old) (T.host host.new) (with_leaf at.now leaf.now)) }
    ensures written { OnOk result (Leads (T.host host.old) (T.host host.new) (λ w v. v.written ≡ w.written ++ at.now ∷ [])) }
    ensures moments { Passes (T.host host.old) (T.host host.new) (IsOldOrNew at.now leaf.now) }
    ensures cause { HasCause (T.host host.old) (T.host host.new) result }
{
    host.write_stage(alloc, leaf)?;
    host.rename_stage(alloc, at)?;
    Ok(())
}

/// Whether a place has this leaf.
fn is_leaf(stands: &Option<Leaf>, leaf: &Leaf) -> bool
    ensures { MatchBool result (stands.now ≡ Some leaf.now) (stands.now ≢ Some leaf.now) }
{
    match stands {
        Some(present) => present.same(leaf),
        None => false,
    }
}

/// Replaces the leaf at a place where another one or none stands there, and answers whether it did.
///
/// A cut leaves what it leaves of `put`. Where the answer is no, nothing was changed on the way.
pub fn put_if_other<T: Tree>(
    alloc: Global,
    host: &mut T,
    at: &Path,
    leaf: &Leaf,
) -> Result<bool, HostFault>
    requires apart { AreApart at.now stage }
    requires can { Told (T.host host.old) (CanPut at.now) }
    ensures ok { OnOk result (Comes (T.host host.old) (T.host host.new) (with_leaf at.now leaf.now)) }
    ensures put { IfOk result (λ put. Told (T.host host.old) (IsPutIfOther at.now leaf.now put)) }
    ensures written { IfOk result (λ put. Leads (T.host host.old) (T.host host.new) (λ w v. v.written ≡ w.written ++ written_if put at.now)) }
    ensures still { IfOk result (λ put. put ≡ false → Passes (T.host host.old) (T.host host.new) IsSame) }
    ensures moments { Passes (T.host host.old) (T.host host.new) (IsOldOrNew at.now leaf.now) }
    ensures cause { HasCause (T.host host.old) (T.host host.new) result }
{
    let stands = host.read(alloc, at)?;
    if is_leaf(&stands, leaf) {
        return Ok(false);
    }
    put(alloc, host, at, leaf)?;
    Ok(true)
}

/// Removes the leaf at a place, where one stands there.
///
/// A cut leaves the leaf or none, and every other place as it was. Source: unlink(2).
pub fn drop_leaf<T: Tree>(alloc: Global, host: &mut T, at: &Path) -> Result<(), HostFault>
    ensures ok { OnOk result (Becomes (T.host host.old) (T.host host.new) (without_leaf at.now)) }
    ensures moments { Passes (T.host host.old) (T.host host.new) (IsOldOrGone at.now) }
    ensures cause { HasCause (T.host host.old) (T.host host.new) result }
{
    host.remove(alloc, at)?;
    Ok(())
}
