//! What a collection removes of a world, and that one which is cut and run again ends alike.
use crate::fields::number_of;
use crate::writing::show_value;
use boot_entries::BootFile;
use host_memory::MemoryHost;
use host_trait::{HostFault, Tree, World};
use std::alloc::Global;
use std::test::Fail;
use store_collect::{CollectFault, CollectRefusal, Collection, apply, plan};
use switch_names::{Bytes, Path, SystemName};
use world_text::{Lines, misread};

/// Adds paths to the line.
fn add_paths(lines: &mut Lines, paths: &[Path]) {
    for path in paths {
        lines.add_word(path.as_str());
    }
}

/// Shows paths at the end of a line, after the word that says what they are.
fn show_line(lines: &mut Lines, word: &str, paths: &[Path]) {
    lines.add_word(word);
    add_paths(lines, paths);
    lines.end_line();
}

/// The same of store paths.
fn show_stores(lines: &mut Lines, stores: &[SystemName]) {
    lines.add_word("stores");
    for store in stores {
        lines.add_word(store.as_str());
    }
    lines.end_line();
}

/// The same of the places of entries.
fn show_entries(lines: &mut Lines, entries: &[BootFile]) {
    lines.add_word("entries");
    for entry in entries {
        lines.add_word(entry.at.as_str());
    }
    lines.end_line();
}

/// Shows what is planned.
fn show_planned(lines: &mut Lines, collection: &Collection) {
    show_entries(lines, collection.texts.entries.as_slice());
    show_line(lines, "gone", collection.texts.gone.as_slice());
    show_line(lines, "links", collection.links.as_slice());
    show_stores(lines, collection.names.as_slice());
    show_line(lines, "leaves", collection.leaves.as_slice());
}

/// Shows why none is planned.
fn show_refusal(lines: &mut Lines, refusal: &CollectRefusal) {
    match refusal {
        CollectRefusal::Unfinished => lines.add_word("Unfinished"),
        CollectRefusal::LeafBytes(count) => {
            lines.add_word("LeafBytes");
            lines.add_value(count);
        }
        CollectRefusal::InTheWay(at) => {
            lines.add_word("InTheWay");
            lines.add_word(at.as_str());
        }
    }
    lines.end_line();
}

/// Shows the places of all leaves.
fn show_left(alloc: Global, lines: &mut Lines, host: &mut MemoryHost) -> Result<(), Fail> {
    lines.add_word("left");
    let tops = host.tops(alloc)?;
    for top in tops.as_slice() {
        add_paths(lines, host.world().list(alloc, top)?.as_slice());
    }
    lines.end_line();
    Ok(())
}

/// Plans a collection and carries it out.
fn collect(alloc: Global, host: &mut MemoryHost, keep: u32) -> Result<(), CollectFault> {
    let collection = plan(alloc, host, keep)?;
    apply(alloc, host, &collection)?;
    Ok(())
}

/// The world that a collection leaves which is cut after so many changes, with a pick, and run again.
fn collected_again(
    alloc: Global,
    world: &World,
    keep: u32,
    after: u64,
    pick: u64,
) -> Result<World, Fail> {
    let mut host = MemoryHost::new(alloc, world.copy(alloc)?);
    host.arm(after, pick);
    let Err(CollectFault::Host(HostFault::Device)) = collect(alloc, &mut host, keep) else {
        return misread();
    };
    host.revive();
    collect(alloc, &mut host, keep)?;
    Ok(host.into_world())
}

/// Whether a collection that is cut after so many changes and run again ends as one that isn't cut.
fn is_alike(
    alloc: Global,
    world: &World,
    end: &World,
    keep: u32,
    after: u64,
) -> Result<bool, Fail> {
    let even = collected_again(alloc, world, keep, after, 0)?;
    let odd = collected_again(alloc, world, keep, after, 1)?;
    Ok(even.same_seen(end) && odd.same_seen(end))
}

/// Shows of so many cuts that each is followed by the same end.
fn show_cuts(
    alloc: Global,
    lines: &mut Lines,
    world: &World,
    host: &MemoryHost,
    keep: u32,
) -> Result<(), Fail> {
    let changes = host.changes();
    for after in 0..changes {
        if !is_alike(alloc, world, host.world(), keep, after)? {
            lines.add_word("other end");
            show_value(lines, &after);
        }
    }
    lines.add_word("cuts");
    show_value(lines, &changes);
    Ok(())
}

/// Shows what is planned and carries it out, and shows what is left, and that a cut at any change leaves the same once it is
/// run again.
fn show_carried_out(
    alloc: Global,
    lines: &mut Lines,
    host: &mut MemoryHost,
    collection: &Collection,
    keep: u32,
) -> Result<(), Fail> {
    let before = host.world().copy(alloc)?;
    show_planned(lines, collection);
    collect(alloc, host, keep)?;
    show_left(alloc, lines, host)?;
    show_cuts(alloc, lines, &before, host, keep)
}

/// Shows what a collection that keeps so many generations removes, and what it leaves, or why there is none.
pub fn show_collection(
    alloc: Global,
    lines: &mut Lines,
    host: &mut MemoryHost,
    fields: &[Bytes],
) -> Result<(), Fail> {
    let [keep] = fields else {
        return misread();
    };
    let keep = u32::try_from(number_of(keep)?)?;
    match plan(alloc, host, keep) {
        Ok(collection) => show_carried_out(alloc, lines, host, &collection, keep),
        Err(CollectFault::Refused(refusal)) => {
            show_refusal(lines, &refusal);
            Ok(())
        }
        Err(CollectFault::Host(fault)) => Err(Fail::from(fault)),
    }
}
