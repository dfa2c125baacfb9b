//! Where leaves stand, and in which store paths.
ghost use Rattle.std.specs.Prelude.{◌≡◌, ◌⊎◌, ◌++◌, ◌∷◌, IfOk, IfSome, IsNone, OnOk, false, true};
ghost use Rattle.std.specs.List.{before_first};
ghost use Rattle.std.specs.List.Sorted.{IsStrictlySortedBy};
ghost use Rattle.host_trait.specs.Host.{Told};
ghost use Rattle.host_trait.specs.Reading.{IsReading};
ghost use Rattle.host_trait.specs.World.{bytes_cmp, listed};
ghost use Rattle.switch_names.specs.Names.{Name};
ghost use Rattle.switch_names.specs.Path.{is_slash, slash};
ghost use Rattle.store_live.specs.Grown.{AreAll, AtSome, IsGrown, IsListedAt, IsPathOf};
ghost use Rattle.store_live.specs.StorePaths.{IsPlace, is_at, is_store_path};

use crate::names::{into_names, push_all};
use host_trait::{HostFault, Tree, fixed_path};
use std::alloc::{AllocError, Global};
use std::collections::BTreeSet;
use switch_names::{Listed, Path};

/// Adds the places of the leaves at or below a path.
fn add_places<T: Tree>(
    alloc: Global,
    host: &mut T,
    places: &mut Listed<Path>,
    under: &Path,
) -> Result<(), HostFault>
    ensures added { OnOk result (Told (T.host host.old) (λ w. places.new ≡ places.old ++ listed under.now w.leaves)) }
    ensures reads { IsReading (T.host host.old) (T.host host.new) result }
{
    let more = host.list(alloc, under)?;
    push_all(alloc, places, more.as_slice())?;
    Ok(())
}

/// Adds the places of the leaves at or below each of some paths.
fn add_all_places<T: Tree>(
    alloc: Global,
    host: &mut T,
    places: &mut Listed<Path>,
    tops: &[Path],
) -> Result<(), HostFault>
    ensures added { OnOk result (Told (T.host host.old) (λ w. IsGrown places.old places.new (AtSome tops.now (IsListedAt w.leaves)))) }
    ensures reads { IsReading (T.host host.old) (T.host host.new) result }
{
    for top in tops {
        add_places(alloc, host, places, top)?;
    }
    Ok(())
}

/// The places of all leaves but the stage's.
pub(crate) fn all_places<T: Tree>(alloc: Global, host: &mut T) -> Result<Listed<Path>, HostFault>
    ensures places { IfOk result (λ places. Told (T.host host.old) (λ w. AreAll places (IsPlace w.leaves))) }
    ensures reads { IsReading (T.host host.old) (T.host host.new) result }
{
    let tops = host.tops(alloc)?;
    let mut places = Listed::new(alloc);
    add_all_places(alloc, host, &mut places, tops.as_slice())?;
    Ok(places)
}

/// The first name of a path.
fn first_name(path: &Path) -> &str
    ensures { result.now ≡ before_first is_slash path.now }
{
    match path.as_str().split_once('/') {
        Some((first, _rest)) => first,
        None => path.as_str(),
    }
}

/// The path of a name in a folder.
fn path_in(alloc: Global, folder: &Path, name: &str) -> Result<Path, AllocError>
    ensures { IfOk result (λ path. path ≡ folder.now ++ slash ∷ name.now) }
{
    folder.below(alloc, name)
}

/// The store path that a place lies in, where it lies in one.
fn store_path_of(alloc: Global, place: &Path) -> Result<Option<Path>, AllocError>
    ensures some { IfOk result (λ path. IfSome path (IsPathOf place.now)) }
    ensures none { IfOk result (λ path. IsNone path → (x : Name) → is_store_path x ≡ true → is_at x place.now ≡ false) }
{
    let store = fixed_path(alloc, "nix/store")?;
    let Some(rest) = place.name_below(alloc, &store)? else {
        return Ok(None);
    };
    let path = path_in(alloc, &store, first_name(&rest))?;
    Ok(Some(path))
}

/// Adds the store path that a place lies in, where it lies in one.
fn add_store_path(
    alloc: Global,
    stored: &mut BTreeSet<Path>,
    place: &Path,
) -> Result<(), AllocError>
    ensures { OnOk result (IsGrown stored.old.keys stored.new.keys (IsPathOf place.now)) }
{
    if let Some(path) = store_path_of(alloc, place)? {
        stored.insert(path)?;
    }
    Ok(())
}

/// The store paths in which these places lie, in byte order.
pub(crate) fn store_paths(alloc: Global, places: &[Path]) -> Result<Listed<Path>, AllocError>
    ensures paths { IfOk result (λ paths. AreAll paths (AtSome places.now IsPathOf)) }
    ensures sorted { IfOk result (IsStrictlySortedBy bytes_cmp) }
{
    let mut stored = BTreeSet::new(alloc);
    for place in places {
        add_store_path(alloc, &mut stored, place)?;
    }
    into_names(alloc, stored)
}
