//! What an append, a look for first names and a reboot leave of a host in memory.
ghost use Rattle.std.specs.Prelude.{IfOk};
ghost use Rattle.host_memory.specs.MemoryHost.{host_of};
ghost use Rattle.host_trait.specs.Host.{Told};
ghost use Rattle.host_trait.specs.World.{IsFileAt};

use super::troubles::{place, show_leaf_at};
use crate::fields::number_of;
use crate::outcome::word_of;
use crate::writing::show_value;
use host_memory::MemoryHost;
use host_trait::{Leaf, Manager, Tree, World, stage_path};
use std::alloc::Global;
use std::test::Fail;
use switch_names::{Bytes, Path};
use world_text::{Lines, list_of, misread, show_leaves, show_states, text_of};

/// A host with a file at a place.
fn host_with_file(alloc: Global, at: &Path) -> Result<MemoryHost, Fail>
    ensures { IfOk result (λ host. Told (host_of host) (λ w. IsFileAt w.leaves at.now)) }
{
    let mut world = World::new(alloc);
    let file = Leaf::file(Bytes::from_slice(alloc, b"ab")?, 420, 0, 0);
    let _none = world.set_leaf(alloc, at.copy(alloc)?, file)?;
    Ok(MemoryHost::new(alloc, world))
}

/// Shows which places were written, how many calls a host has had, and how many of them have changed it.
fn show_counts(lines: &mut Lines, host: &MemoryHost) {
    lines.add_word("written");
    for place in host.world().written().as_slice() {
        lines.add_word(place.as_str());
    }
    lines.add_word("calls");
    lines.add_value(&host.calls());
    lines.add_word("changes");
    show_value(lines, &host.changes());
}

/// Shows what an append leaves of a file on a host that is cut after so many calls with a pick, and
/// fails one call.
pub fn show_append(alloc: Global, lines: &mut Lines, fields: &[Bytes]) -> Result<(), Fail> {
    let [bytes, after, pick, failing] = fields else {
        return misread();
    };
    if bytes.as_slice().is_empty() {
        return misread();
    }
    let (after, pick) = (number_of(after)?, number_of(pick)?);
    let failing = list_of(alloc, number_of(failing)?)?;
    let at = place(alloc)?;
    let mut host = host_with_file(alloc, &at)?;
    host.arm(after, pick);
    host.fail(failing);
    lines.add_word(word_of(&host.append(alloc, &at, bytes.as_slice()))?);
    lines.end_line();
    show_leaf_at(alloc, lines, host.world(), &at)?;
    show_counts(lines, &host);
    Ok(())
}

/// Shows how a host that fails one call answers for its first names, syncs and tells what is loaded.
pub fn show_tops(
    alloc: Global,
    lines: &mut Lines,
    host: &mut MemoryHost,
    fields: &[Bytes],
) -> Result<(), Fail> {
    let [failing] = fields else {
        return misread();
    };
    host.fail(list_of(alloc, number_of(failing)?)?);
    let tops = host.tops(alloc);
    lines.add_word("tops");
    lines.add_word(word_of(&tops)?);
    if let Ok(tops) = tops {
        for top in tops.as_slice() {
            lines.add_word(top.as_str());
        }
    }
    lines.add_word("sync");
    lines.add_word(word_of(&host.sync(alloc))?);
    lines.add_word("loaded");
    lines.add_word(word_of(&host.loaded(alloc))?);
    lines.end_line();
    show_counts(lines, host);
    Ok(())
}

/// Cuts a host, reboots it with a pick, and shows what it lists below two places, its states, its
/// journal's length, and whether a copy of its world is the same.
pub fn show_reboot(
    alloc: Global,
    lines: &mut Lines,
    host: &mut MemoryHost,
    fields: &[Bytes],
) -> Result<(), Fail> {
    let [pick, under] = fields else {
        return misread();
    };
    host.arm(0, 0);
    lines.add_word(word_of(&host.daemon_reload(alloc))?);
    host.reboot(alloc, number_of(pick)?)?;
    lines.add_word(word_of(&host.units(alloc))?);
    lines.end_line();
    show_states(lines, host.world());
    lines.add_word("acts");
    show_value(lines, &host.world().journal().as_slice().len());
    show_leaves(alloc, lines, host.world(), text_of(under)?)?;
    let stage = stage_path(alloc)?;
    show_leaf_at(alloc, lines, host.world(), &stage)?;
    let copy = host.world().copy(alloc)?;
    lines.add_word("copied");
    show_value(lines, &copy.same_seen(host.world()));
    Ok(())
}
