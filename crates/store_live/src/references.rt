//! The store paths to which one refers.
ghost use Rattle.std.specs.Prelude.{◌≡◌, true, IfOk, IsTrue, OnOk};
ghost use Rattle.std.specs.List.Sorted.{IsStrictlySortedBy};
ghost use Rattle.std.specs.Option.{option_copied};
ghost use Rattle.host_trait.specs.Host.{Told};
ghost use Rattle.host_trait.specs.Reading.{IsReading};
ghost use Rattle.host_trait.specs.World.{bytes_cmp};
ghost use Rattle.store_names.specs.Occurs.{AreInFolder};
ghost use Rattle.switch_names.specs.Names.{Name, has};
ghost use Rattle.store_live.specs.Grown.{AreAll, AtSome, IsGrown, IsReferredAt, leaf_text};
ghost use Rattle.store_live.specs.Live.{Refers};
ghost use Rattle.store_live.specs.StorePaths.{is_store_path};

use crate::names::{add_in, into_names};
use host_trait::{HostFault, Leaf, LeafKind, Tree};
use std::alloc::Global;
use std::collections::BTreeSet;
use switch_names::{Listed, Path};

/// What a file contains, or where a link leads.
fn leaf_text(leaf: &Option<Leaf>) -> Option<&[u8]>
    ensures { option_copied result ≡ leaf_text leaf.now }
{
    match leaf.as_ref()?.kind() {
        LeafKind::File { bytes, .. } => Some(bytes.as_slice()),
        LeafKind::Link { target } => Some(target.as_str().as_bytes()),
    }
}

/// Adds those of some store paths to which the leaf at a place refers.
fn add_referred<T: Tree>(
    alloc: Global,
    host: &mut T,
    found: &mut BTreeSet<Path>,
    stored: &[Path],
    place: &Path,
) -> Result<(), HostFault>
    requires sorted { IsStrictlySortedBy bytes_cmp stored.now }
    requires folder { AreInFolder stored.now }
    ensures grown { OnOk result (Told (T.host host.old) (λ w. IsGrown found.old.keys found.new.keys (IsReferredAt w.leaves stored.now place.now))) }
    ensures reads { IsReading (T.host host.old) (T.host host.new) result }
{
    let leaf = host.read(alloc, place)?;
    add_in(alloc, found, stored, b"/", leaf_text(&leaf))?;
    Ok(())
}

/// Adds those of some store paths to which the leaves at these places refer.
fn add_all_referred<T: Tree>(
    alloc: Global,
    host: &mut T,
    found: &mut BTreeSet<Path>,
    stored: &[Path],
    places: &[Path],
) -> Result<(), HostFault>
    requires sorted { IsStrictlySortedBy bytes_cmp stored.now }
    requires folder { AreInFolder stored.now }
    ensures grown { OnOk result (Told (T.host host.old) (λ w. IsGrown found.old.keys found.new.keys (AtSome places.now (IsReferredAt w.leaves stored.now)))) }
    ensures reads { IsReading (T.host host.old) (T.host host.new) result }
{
    for place in places {
        add_referred(alloc, host, found, stored, place)?;
    }
    Ok(())
}

/// Those of some store paths to which one refers. It lists that one, and reads each leaf of it once.
pub(crate) fn references<T: Tree>(
    alloc: Global,
    host: &mut T,
    stored: &[Path],
    path: &Path,
) -> Result<Listed<Path>, HostFault>
    requires sorted { IsStrictlySortedBy bytes_cmp stored.now }
    requires folder { AreInFolder stored.now }
    ensures found { IfOk result (λ found. Told (T.host host.old) (λ w. is_store_path path.now ≡ true → AreAll found (λ x. IsTrue (has stored.now x) × Refers w.leaves path.now x))) }
    ensures reads { IsReading (T.host host.old) (T.host host.new) result }
{
    let places = host.list(alloc, path)?;
    let mut found = BTreeSet::new(alloc);
    add_all_referred(alloc, host, &mut found, stored, places.as_slice())?;
    Ok(into_names(alloc, found)?)
}
