//! The places of the boot menu of generations.
ghost use Rattle.std.specs.Prelude.{◌≡◌, ◌||◌, ◌++◌, false, map, IfOk, OnOk, option_to_list};
ghost use Rattle.std.specs.List.{filter_map};
ghost use Rattle.std.specs.List.Sorted.{IsStrictlySortedBy};
ghost use Rattle.host_trait.specs.World.{bytes_cmp};
ghost use Rattle.switch_names.specs.Names.{Name, has};
ghost use Rattle.tree_put.specs.WrittenPlace.{AreApartFromStage, written};
ghost use Rattle.boot_entries.specs.BootDefault.{menu_places};
ghost use Rattle.boot_entries.specs.BootPart.{place_if};

use crate::entry::{entry_path, loader_path};
use generations::Gen;
use std::alloc::{AllocError, Global};
use std::collections::BTreeSet;
use switch_names::{Listed, Path};
use tree_put::{WrittenPlace, unread};

/// The place of a generation's entry, where it names a system.
fn place_of(alloc: Global, generation: &Gen) -> Result<Option<Path>, AllocError>
    ensures { IfOk result (λ at. at ≡ place_if generation.now) }
{
    if generation.target.is_none() {
        return Ok(None);
    }
    Ok(Some(entry_path(alloc, generation.number)?))
}

/// Adds a place, where there is one.
fn add_place(entries: &mut BTreeSet<Path>, at: Option<Path>) -> Result<(), AllocError>
    ensures { OnOk result ((q : Name) → has entries.new.keys q ≡ (has entries.old.keys q || has (option_to_list at) q)) }
{
    if let Some(at) = at {
        entries.insert(at)?;
    }
    Ok(())
}

/// The places of the entries of the generations that name a system.
fn entries_of(alloc: Global, list: &[Gen]) -> Result<BTreeSet<Path>, AllocError>
    ensures { IfOk result (λ entries. (q : Name) → has entries.keys q ≡ has (filter_map place_if list.now) q) }
{
    let mut entries = BTreeSet::new(alloc);
    for generation in list {
        let at = place_of(alloc, generation)?;
        add_place(&mut entries, at)?;
    }
    Ok(entries)
}

/// Adds the places of a set, in byte order.
fn add_unread(places: &mut Listed<WrittenPlace>, entries: BTreeSet<Path>) -> Result<(), AllocError>
    ensures ok { OnOk result (places.new ≡ places.old ++ map (written false) entries.keys) }
    ensures sorted { IsStrictlySortedBy bytes_cmp entries.keys }
{
    for at in entries {
        places.push(unread(at))?;
    }
    Ok(())
}

/// Adds the places of the boot menu of some generations, in byte order.
pub fn add_places_of(
    alloc: Global,
    places: &mut Listed<WrittenPlace>,
    list: &[Gen],
) -> Result<(), AllocError>
    ensures places { OnOk result (places.new ≡ places.old ++ menu_places list.now) }
    ensures apart { AreApartFromStage places.old → OnOk result (AreApartFromStage places.new) }
{
    let entries = entries_of(alloc, list)?;
    add_unread(places, entries)?;
    places.push(unread(loader_path(alloc)?))
}
