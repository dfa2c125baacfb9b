//! The store paths that are roots.
ghost use Rattle.std.specs.Prelude.{◌≡◌, [], IfOk, OnOk, is_none};
ghost use Rattle.std.specs.List.Sorted.{IsStrictlySortedBy};
ghost use Rattle.std.specs.Option.{option_copied};
ghost use Rattle.host_trait.specs.Host.{Told};
ghost use Rattle.host_trait.specs.Reading.{IsReading};
ghost use Rattle.host_trait.specs.World.{bytes_cmp};
ghost use Rattle.store_names.specs.Occurs.{AreInFolder, Occurs};
ghost use Rattle.switch_names.specs.Names.{Name, has};
ghost use Rattle.switch_names.specs.SystemName.{system_fault};
ghost use Rattle.store_live.specs.Grown.{AreAll, AtSome, IsForeign, IsGrown, IsIn, IsLinkedAt, link_target};
ghost use Rattle.store_live.specs.Live.{IsRoot, counts};
ghost use Rattle.store_live.specs.StorePaths.{IsPlace, IsStored};

use crate::names::add_in;
use host_trait::{HostFault, Leaf, LeafKind, Manager, Tree};
use std::alloc::{AllocError, Global};
use std::collections::BTreeSet;
use switch_names::{Path, SystemName};

/// Whether a path is a system's.
fn is_system(alloc: Global, path: &Path) -> Result<bool, AllocError>
    ensures { IfOk result (λ is. is ≡ is_none (system_fault path.now)) }
{
    Ok(SystemName::of_text(alloc, path.as_str())?.is_some())
}

/// Adds a store path, where it is no system's.
fn add_foreign(alloc: Global, roots: &mut BTreeSet<Path>, path: &Path) -> Result<(), AllocError>
    ensures { OnOk result (IsGrown roots.old.keys roots.new.keys (IsForeign path.now)) }
{
    if !is_system(alloc, path)? {
        roots.insert(path.copy(alloc)?)?;
    }
    Ok(())
}

/// Adds those of some store paths that are no systems'.
fn add_all_foreign(
    alloc: Global,
    roots: &mut BTreeSet<Path>,
    stored: &[Path],
) -> Result<(), AllocError>
    ensures { OnOk result (IsGrown roots.old.keys roots.new.keys (AtSome stored.now IsForeign)) }
{
    for path in stored {
        add_foreign(alloc, roots, path)?;
    }
    Ok(())
}

/// Whether a link at a place counts: outside the store, and where it isn't passed over.
fn counts(skipped: &BTreeSet<Path>, place: &Path) -> bool
    ensures { result ≡ counts (has skipped.now.keys) place.now }
{
    !place.as_str().as_bytes().starts_with(b"nix/store/") && !skipped.contains(place)
}

/// Where the leaf at a place leads, where it is a link.
fn link_target(leaf: &Option<Leaf>) -> Option<&[u8]>
    ensures { option_copied result ≡ link_target leaf.now }
{
    match leaf.as_ref()?.kind() {
        LeafKind::File { .. } => None,
        LeafKind::Link { target } => Some(target.as_str().as_bytes()),
    }
}

/// Adds those of some store paths that a link at a place names, where it counts.
fn add_linked_at<T: Tree>(
    alloc: Global,
    host: &mut T,
    roots: &mut BTreeSet<Path>,
    stored: &[Path],
    skipped: &BTreeSet<Path>,
    place: &Path,
) -> Result<(), HostFault>
    requires sorted { IsStrictlySortedBy bytes_cmp stored.now }
    requires folder { AreInFolder stored.now }
    ensures grown { OnOk result (Told (T.host host.old) (λ w. IsGrown roots.old.keys roots.new.keys (IsLinkedAt (has skipped.now.keys) w.leaves stored.now place.now))) }
    ensures reads { IsReading (T.host host.old) (T.host host.new) result }
{
    if !counts(skipped, place) {
        return Ok(());
    }
    let leaf = host.read(alloc, place)?;
    add_in(alloc, roots, stored, b"", link_target(&leaf))?;
    Ok(())
}

/// Adds those of some store paths that links at these places name which count.
fn add_linked<T: Tree>(
    alloc: Global,
    host: &mut T,
    roots: &mut BTreeSet<Path>,
    stored: &[Path],
    skipped: &BTreeSet<Path>,
    places: &[Path],
) -> Result<(), HostFault>
    requires sorted { IsStrictlySortedBy bytes_cmp stored.now }
    requires folder { AreInFolder stored.now }
    ensures grown { OnOk result (Told (T.host host.old) (λ w. IsGrown roots.old.keys roots.new.keys (AtSome places.now (IsLinkedAt (has skipped.now.keys) w.leaves stored.now)))) }
    ensures reads { IsReading (T.host host.old) (T.host host.new) result }
{
    for place in places {
        add_linked_at(alloc, host, roots, stored, skipped, place)?;
    }
    Ok(())
}

/// The store paths that are roots, given all of them and the places of all leaves.
pub(crate) fn roots<M: Manager>(
    alloc: Global,
    host: &mut M,
    stored: &[Path],
    skipped: &BTreeSet<Path>,
    places: &[Path],
) -> Result<BTreeSet<Path>, HostFault>
    requires sorted { IsStrictlySortedBy bytes_cmp stored.now }
    requires folder { AreInFolder stored.now }
    requires stored { Told (M.host host.old) (λ w. AreAll stored.now (IsStored w.leaves)) }
    requires places { Told (M.host host.old) (λ w. AreAll places.now (IsPlace w.leaves)) }
    ensures roots { IfOk result (λ roots. Told (M.host host.old) (λ w. AreAll roots.keys (λ x. IsStored w.leaves x × IsRoot (has skipped.now.keys) w x))) }
    ensures reads { IsReading (M.host host.old) (M.host host.new) result }
{
    let mut roots = BTreeSet::new(alloc);
    add_all_foreign(alloc, &mut roots, stored)?;
    let loaded = host.loaded(alloc)?;
    add_in(
        alloc,
        &mut roots,
        stored,
        b"",
        Some(loaded.as_str().as_bytes()),
    )?;
    add_linked(alloc, host, &mut roots, stored, skipped, places)?;
    Ok(roots)
}
