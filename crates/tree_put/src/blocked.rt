//! Leaves that stand in the way of a put.
ghost use Rattle.std.specs.Prelude.{◌≡◌, false, IfOk};
ghost use Rattle.std.specs.FinMap.{keys};
ghost use Rattle.std.specs.List.{list_any};
ghost use Rattle.switch_names.specs.Path.{is_below};
ghost use Rattle.host_trait.specs.Host.{Told};
ghost use Rattle.host_trait.specs.Reading.{IsReading};
ghost use Rattle.host_trait.specs.World.{is_in_line, stage};
ghost use Rattle.tree_put.specs.Put.{is_blocked};

use host_trait::{HostFault, Tree};
use std::alloc::Global;
use switch_names::Path;

/// Whether one of these paths lies strictly below a place.
fn any_below(paths: &[Path], at: &Path) -> bool
    ensures { result ≡ list_any (λ q. is_below q at.now) paths.now }
{
    paths.iter().any(|path| path.is_below(at))
}

/// Whether a leaf stands strictly below a place.
fn has_leaf_below<T: Tree>(alloc: Global, host: &mut T, at: &Path) -> Result<bool, HostFault>
    requires { is_in_line stage at.now ≡ false }
    ensures below { IfOk result (λ below. Told (T.host host.old) (λ w. below ≡ list_any (λ q. is_below q at.now) (keys w.leaves))) }
    ensures reads { IsReading (T.host host.old) (T.host host.new) result }
{
    let paths = host.list(alloc, at)?;
    Ok(any_below(paths.as_slice(), at))
}

/// Whether a leaf stands strictly above a place.
fn has_leaf_above<T: Tree>(alloc: Global, host: &mut T, at: &Path) -> Result<bool, HostFault>
    ensures above { IfOk result (λ above. Told (T.host host.old) (λ w. above ≡ list_any (λ q. is_below at.now q) (keys w.leaves))) }
    ensures reads { IsReading (T.host host.old) (T.host host.new) result }
{
    let mut next = at.parent(alloc)?;
    while let Some(place) = next {
        let leaf = host.read(alloc, &place)?;
        if leaf.is_some() {
            return Ok(true);
        }
        next = place.parent(alloc)?;
    }
    Ok(false)
}

/// Whether a leaf stands strictly above or below a place.
///
/// It lists the place once, and then reads each place above it, from the nearest on, up to a leaf.
pub fn is_blocked<T: Tree>(alloc: Global, host: &mut T, at: &Path) -> Result<bool, HostFault>
    requires { is_in_line stage at.now ≡ false }
    ensures blocked { IfOk result (λ blocked. Told (T.host host.old) (λ w. blocked ≡ is_blocked w.leaves at.now)) }
    ensures reads { IsReading (T.host host.old) (T.host host.new) result }
{
    let below = has_leaf_below(alloc, host, at)?;
    if below {
        return Ok(below);
    }
    let above = has_leaf_above(alloc, host, at)?;
    Ok(above)
}
