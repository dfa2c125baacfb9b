//! Plans a collection.
ghost use Rattle.std.specs.Prelude.{◌≡◌, ◌++◌, ℕ, map, IfOk, IsErrOf, OnOk, true, false};
ghost use Rattle.host_trait.specs.declared.tree.HostFault.TheVariants.{Device};
ghost use Rattle.host_trait.specs.Host.{Told};
ghost use Rattle.host_trait.specs.Reading.{IsReading, IsReadingOf};
ghost use Rattle.switch_names.specs.Names.{Name};
ghost use Rattle.tree_put.specs.First.{first_in_the_way};
ghost use Rattle.tree_put.specs.WrittenPlace.{AreApartFromStage};
ghost use Rattle.boot_entries.specs.BootPart.{boot_places};
ghost use Rattle.boot_entries.specs.Places.{loader_path};
ghost use Rattle.boot_entries.specs.Steps.{AreEntries, CanApplyBoot};
ghost use Rattle.boot_entries.specs.Texts.{menu_of};
ghost use Rattle.generations.specs.Gens.{IsGensOf};
ghost use Rattle.store_collect.specs.declared.collection.CollectFault.TheVariants.{Host, Refused};
ghost use Rattle.store_collect.specs.declared.collection.CollectRefusal.TheVariants.{InTheWay, LeafBytes, Unfinished};
ghost use Rattle.store_collect.specs.Again.{IsAllowed};
ghost use Rattle.store_collect.specs.Collection.{AreShortFor, IsCollectionOf, IsPlanned, IsRefusedAt, IsTooLongFor, loader_places, passed_over};
ghost use Rattle.store_collect.specs.Kept.{gens_kept};
ghost use Rattle.store_collect.specs.Unfinished.{is_unfinished};

use crate::collection::{CollectFault, CollectRefusal, Collection};
use crate::dropped_leaves::dropped_leaves;
use crate::keeping::{gone_links, kept};
use crate::unfinished::is_unfinished;
use boot_entries::{BootFile, BootTexts, add_places_of, texts_noted};
use generations::{Gens, all};
use host_trait::{HostFault, Manager, Tree, fixed_path};
use std::alloc::{AllocError, Global};
use store_live::dead_paths;
use switch_names::{Bytes, Listed, Path};
use tree_put::{WrittenPlace, add_stage, first_in_the_way, nothing_found};

/// The places that the boot menu of some generations is written at, and the stage.
fn written_places(alloc: Global, gens: &Gens) -> Result<Listed<WrittenPlace>, AllocError>
    ensures places { IfOk result (λ places. places ≡ boot_places gens.now.list) }
    ensures apart { IfOk result AreApartFromStage }
{
    let mut places = Listed::new(alloc);
    add_places_of(alloc, &mut places, gens.list.as_slice())?;
    add_stage(alloc, &mut places)?;
    Ok(places)
}

/// The first place of the boot menu of some generations that a leaf stands in the way of, or the stage.
fn blocked_place<T: Tree>(
    alloc: Global,
    host: &mut T,
    gens: &Gens,
) -> Result<Option<Path>, HostFault>
    ensures first { IfOk result (λ at. Told (T.host host.old) (λ w. at ≡ first_in_the_way (boot_places gens.now.list) w.leaves)) }
    ensures reads { IsReading (T.host host.old) (T.host host.new) result }
{
    let places = written_places(alloc, gens)?;
    let mut findings = nothing_found(alloc);
    first_in_the_way(alloc, host, &mut findings, places.as_slice())
}

/// Adds equal paths.
fn add_paths(alloc: Global, list: &mut Listed<Path>, paths: &[Path]) -> Result<(), AllocError>
    ensures { OnOk result (list.new ≡ list.old ++ paths.now) }
{
    for path in paths {
        list.push(path.copy(alloc)?)?;
    }
    Ok(())
}

/// Adds the places of some files.
fn add_file_places(
    alloc: Global,
    list: &mut Listed<Path>,
    files: &[BootFile],
) -> Result<(), AllocError>
    ensures { OnOk result (list.new ≡ list.old ++ map (λ file. file.at) files.now) }
{
    for file in files {
        list.push(file.at.copy(alloc)?)?;
    }
    Ok(())
}

/// Where what the boot loader reads first stands.
#[tactic(auto, unfolding(boot_entries::specs::Places::loader_path))]
fn loader_path(alloc: Global) -> Result<Path, AllocError>
    ensures { IfOk result (λ path. path ≡ loader_path) }
{
    fixed_path(alloc, "boot/loader/loader.conf")
}

/// Adds the place of what the boot loader reads first, where it is put.
fn add_loader_place(
    alloc: Global,
    list: &mut Listed<Path>,
    loader: &Option<Bytes>,
) -> Result<(), AllocError>
    ensures { OnOk result (list.new ≡ list.old ++ loader_places loader.now) }
{
    if loader.is_none() {
        return Ok(());
    }
    list.push(loader_path(alloc)?)
}

/// Where links are no roots: those of the generations that go, and the places of the boot menu.
fn passed_over(alloc: Global, links: &[Path], texts: &BootTexts) -> Result<Listed<Path>, AllocError>
    ensures { IfOk result (λ places. places ≡ passed_over links.now texts.now) }
{
    let mut places = Listed::new(alloc);
    add_paths(alloc, &mut places, links)?;
    add_paths(alloc, &mut places, texts.gone.as_slice())?;
    add_file_places(alloc, &mut places, texts.entries.as_slice())?;
    add_loader_place(alloc, &mut places, &texts.loader)?;
    Ok(places)
}

/// Plans a collection that isn't refused, given the generations that stand and the boot menu of those that are kept.
fn plan_removals<M: Manager>(
    alloc: Global,
    host: &mut M,
    gens: &Gens,
    texts: BootTexts,
    keep: u32,
) -> Result<Collection, HostFault>
    ensures planned { IfOk result (λ collection. Told (M.host host.old) (λ w. texts ≡ menu_of (gens_kept keep gens.now) w.leaves → IsPlanned keep gens.now w collection)) }
    ensures places { AreEntries texts.entries → IfOk result (λ collection. AreEntries collection.texts.entries) }
    ensures reads { IsReading (M.host host.old) (M.host host.new) result }
{
    let links = gone_links(alloc, gens, keep)?;
    let skipped = passed_over(alloc, links.as_slice(), &texts)?;
    let names = dead_paths(alloc, host, skipped.as_slice())?;
    let leaves = dropped_leaves(alloc, host, names.as_slice())?;
    Ok(Collection {
        links,
        names,
        leaves,
        texts,
    })
}

/// Plans a collection that keeps the generations with the highest numbers, so many of them, and the current one. It changes
/// nothing.
///
/// Faults are sought in this order: `Unfinished`, `LeafBytes`, `InTheWay` (of files and of places the first in byte order each). It
/// lists the tree once and each live store path once, and reads each leaf outside the store and each of a live store path once, the
/// files that the boot menu is made of once more, for the menu.
///
/// Source: nix-collect-garbage(1), "--delete-generations"; Nix manual, "Garbage Collector Roots".
pub fn plan<M: Manager>(alloc: Global, host: &mut M, keep: u32) -> Result<Collection, CollectFault>
    ensures collection { IfOk result (λ collection. Told (M.host host.old) (λ w. IsCollectionOf keep w collection)) }
    ensures places { IfOk result (λ collection. AreEntries collection.texts.entries) }
    ensures can { IfOk result (λ collection. Told (M.host host.old) (CanApplyBoot collection.texts)) }
    ensures allowed { OnOk result (Told (M.host host.old) (λ w. IsAllowed keep w.leaves)) }
    ensures unfinished { IsErrOf result (Refused Unfinished) → Told (M.host host.old) (λ w. is_unfinished w.leaves ≡ true) }
    ensures too_long { (count : ℕ) → IsErrOf result (Refused (LeafBytes count)) → Told (M.host host.old) (λ w. (is_unfinished w.leaves ≡ false) × IsTooLongFor keep w.leaves count) }
    ensures in_order { (at : Name) → IsErrOf result (Refused (InTheWay at)) → Told (M.host host.old) (λ w. (is_unfinished w.leaves ≡ false) × AreShortFor keep w.leaves) }
    ensures in_the_way { (at : Name) → IsErrOf result (Refused (InTheWay at)) → Told (M.host host.old) (λ w. IsRefusedAt keep w.leaves at) }
    ensures reads { IsReadingOf (M.host host.old) (M.host host.new) (IsErrOf result (Host Device)) }
{
    let unfinished = is_unfinished(alloc, host)?;
    if unfinished {
        return Err(CollectFault::Refused(CollectRefusal::Unfinished));
    }
    let gens = all(alloc, host)?;
    let kept = kept(alloc, &gens, keep)?;
    let mut long = None;
    let texts = texts_noted(alloc, host, &kept, &mut long)?;
    if let Some(long) = &long {
        return Err(CollectFault::Refused(CollectRefusal::LeafBytes(long.count)));
    }
    if let Some(at) = blocked_place(alloc, host, &kept)? {
        return Err(CollectFault::Refused(CollectRefusal::InTheWay(at)));
    }
    let collection = plan_removals(alloc, host, &gens, texts, keep)?;
    Ok(collection)
}
