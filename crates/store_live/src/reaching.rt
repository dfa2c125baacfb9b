//! The store paths that the roots reach, and those that they don't.
ghost use Rattle.std.specs.Prelude.{◌≡◌, ◌⊎◌, ◌||◌, ◌++◌, ◌∷◌, [], filter, ◌&&◌, ◌<◌, ◌+◌, ◌^◌, not, true, false, IfOk, IsTrue, OnOk, length};
ghost use Rattle.std.specs.List.{AllByRecursion};
ghost use Rattle.std.specs.List.Sorted.{IsStrictlySortedBy};
ghost use Rattle.host_trait.specs.Host.{Told};
ghost use Rattle.host_trait.specs.Reading.{IsReading};
ghost use Rattle.host_trait.specs.World.{bytes_cmp};
ghost use Rattle.store_names.specs.Occurs.{AreInFolder};
ghost use Rattle.switch_names.specs.Names.{IsListOf, Name, has, is_name};
ghost use Rattle.store_live.specs.Grown.{AreAll, is_dead_by};
ghost use Rattle.store_live.specs.Live.{IsDead, Live, Refers};
ghost use Rattle.store_live.specs.StorePaths.{IsPlace, IsStored, is_store_path};

use crate::names::add_all;
use crate::places::{all_places, store_paths};
use crate::references::references;
use crate::roots::roots;
use host_trait::{HostFault, Manager, Tree};
use std::alloc::{AllocError, Global};
use std::collections::BTreeSet;
use switch_names::{Listed, Path, SystemName};

/// Adds a name that isn't among those that are walked to those that are left to walk.
fn add_if_new(
    alloc: Global,
    left: &mut BTreeSet<Path>,
    walked: &BTreeSet<Path>,
    name: &Path,
) -> Result<(), AllocError>
    ensures { OnOk result ((x : Name) → has left.new.keys x ≡ (has left.old.keys x || (is_name x name.now && not (has walked.now.keys x)))) }
{
    if !walked.contains(name) {
        left.insert(name.copy(alloc)?)?;
    }
    Ok(())
}

/// Adds the names that aren't among those that are walked to those that are left to walk.
fn add_left(
    alloc: Global,
    left: &mut BTreeSet<Path>,
    walked: &BTreeSet<Path>,
    names: &[Path],
) -> Result<(), AllocError>
    ensures { OnOk result ((x : Name) → has left.new.keys x ≡ (has left.old.keys x || (has names.now x && not (has walked.now.keys x)))) }
{
    for name in names {
        add_if_new(alloc, left, walked, name)?;
    }
    Ok(())
}

/// Walks one store path: it is then walked, and those to which it refers that aren't are left to walk.
fn walk<T: Tree>(
    alloc: Global,
    host: &mut T,
    walked: &mut BTreeSet<Path>,
    left: &mut BTreeSet<Path>,
    stored: &[Path],
    path: Path,
) -> Result<(), HostFault>
    requires sorted { IsStrictlySortedBy bytes_cmp stored.now }
    requires folder { AreInFolder stored.now }
    requires new { has walked.old.keys path ≡ false }
    ensures walked { OnOk result ((x : Name) → has walked.new.keys x ≡ (has walked.old.keys x || is_name x path)) }
    ensures apart { OnOk result ((x : Name) → IsTrue (has left.new.keys x) → IsTrue (has left.old.keys x) ⊎ (has walked.new.keys x ≡ false)) }
    ensures left { OnOk result (Told (T.host host.old) (λ w. is_store_path path ≡ true
        → (x : Name) → (IsTrue (has left.new.keys x) → IsTrue (has left.old.keys x) ⊎ (IsTrue (has stored.now x) × Refers w.leaves path x))
        × (IsTrue (has left.old.keys x) ⊎ (IsTrue (has stored.now x) × Refers w.leaves path x) → IsTrue (has left.new.keys x) ⊎ IsTrue (has walked.new.keys x)))) }
    ensures longer { OnOk result (length walked.new.keys ≡ length walked.old.keys + 1) }
    ensures small { OnOk result (length walked.new.keys < 2 ^ 63) }
    ensures reads { IsReading (T.host host.old) (T.host host.new) result }
{
    let names = references(alloc, host, stored, &path)?;
    walked.insert(path)?;
    add_left(alloc, left, walked, names.as_slice())?;
    // A set has less than 2^63 names, and so there is an end to what is left to walk.
    let _count = walked.len();
    Ok(())
}

/// The store paths that are live, given all of them and the places of all leaves.
fn live<M: Manager>(
    alloc: Global,
    host: &mut M,
    stored: &[Path],
    skipped: &BTreeSet<Path>,
    places: &[Path],
) -> Result<BTreeSet<Path>, HostFault>
    requires sorted { IsStrictlySortedBy bytes_cmp stored.now }
    requires folder { AreInFolder stored.now }
    requires stored { Told (M.host host.old) (λ w. AreAll stored.now (IsStored w.leaves)) }
    requires places { Told (M.host host.old) (λ w. AreAll places.now (IsPlace w.leaves)) }
    ensures live { IfOk result (λ live. Told (M.host host.old) (λ w. AreAll live.keys (Live (has skipped.now.keys) w))) }
    ensures reads { IsReading (M.host host.old) (M.host host.new) result }
{
    let mut left = roots(alloc, host, stored, skipped, places)?;
    let mut walked = BTreeSet::new(alloc);
    while let Some(path) = left.pop_first() {
        walk(alloc, host, &mut walked, &mut left, stored, path)?;
    }
    Ok(walked)
}

/// Adds a store path, where it isn't live and is a system's.
fn add_dead(
    alloc: Global,
    dead: &mut Listed<SystemName>,
    live: &BTreeSet<Path>,
    path: &Path,
) -> Result<(), AllocError>
    requires { is_store_path path.now ≡ true }
    ensures { OnOk result (dead.new ≡ dead.old ++ filter (is_dead_by live.now.keys) (path.now ∷ [])) }
{
    if live.contains(path) {
        return Ok(());
    }
    match SystemName::of_text(alloc, path.as_str())? {
        Some(system) => dead.push(system),
        None => Ok(()),
    }
}

/// Those of some store paths that aren't live and are systems', in their order.
fn dead_among(
    alloc: Global,
    stored: &[Path],
    live: &BTreeSet<Path>,
) -> Result<Listed<SystemName>, AllocError>
    requires { AllByRecursion (λ x. is_store_path x ≡ true) stored.now }
    ensures { IfOk result (λ dead. dead ≡ filter (is_dead_by live.now.keys) stored.now) }
{
    let mut dead = Listed::new(alloc);
    for path in stored {
        add_dead(alloc, &mut dead, live, path)?;
    }
    Ok(dead)
}

/// The store paths that no root reaches, in byte order. Links at some places are passed over as roots.
///
/// A root is a store path that what the manager has loaded names, or a link outside the store, and each one
/// that is no system's name. A store path reaches what its leaves refer to. It lists the tree once and
/// then each live store path, and reads each leaf outside the store and each of a live store path once.
///
/// Source: Nix manual, "Garbage Collector Roots"; nix-store(1), "--gc".
pub fn dead_paths<M: Manager>(
    alloc: Global,
    host: &mut M,
    skipped: &[Path],
) -> Result<Listed<SystemName>, HostFault>
    ensures dead { IfOk result (λ dead. Told (M.host host.old) (λ w. IsListOf dead (IsDead (has skipped.now) w))) }
    ensures reads { IsReading (M.host host.old) (M.host host.new) result }
{
    let places = all_places(alloc, host)?;
    let stored = store_paths(alloc, places.as_slice())?;
    let mut skips = BTreeSet::new(alloc);
    add_all(alloc, &mut skips, skipped)?;
    let live = live(alloc, host, stored.as_slice(), &skips, places.as_slice())?;
    Ok(dead_among(alloc, stored.as_slice(), &live)?)
}
