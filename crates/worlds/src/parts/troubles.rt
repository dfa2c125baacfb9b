//! What calls that change the tree leave, whole, cut and failing.
ghost use Rattle.std.specs.Prelude.{◌≡◌, ◌≢◌, codes, false, IfOk, Some};
ghost use Rattle.host_memory.specs.MemoryHost.{host_of};
ghost use Rattle.host_trait.specs.Host.{Told};
ghost use Rattle.host_trait.specs.World.{IsClear, empty_world, is_in_line, stage};

use super::nodes::show_leaf;
use crate::fields::number_of;
use crate::outcome::{show_faults, word_of};
use crate::writing::show_value;
use host_memory::MemoryHost;
use host_trait::{HostFault, Leaf, Tree, World, fixed_path, stage_path};
use std::alloc::{AllocError, Global};
use std::test::Fail;
use switch_names::{Bytes, Path};
use world_text::{Lines, list_of, misread};

/// Where a leaf is put.
pub fn place(alloc: Global) -> Result<Path, AllocError>
    ensures { IfOk result (λ place. place ≡ codes "etc/put") }
{
    fixed_path(alloc, "etc/put")
}

/// Writes a leaf, moves it to its place, and removes it, as far as nothing fails.
fn put_and_remove<T: Tree>(alloc: Global, host: &mut T, to: &Path) -> Result<(), HostFault>
    requires other { to.now ≢ stage }
    requires line { is_in_line stage to.now ≡ false }
    requires stage { Told (T.host host.old) (λ w. IsClear w.leaves stage) }
    requires place { Told (T.host host.old) (λ w. IsClear w.leaves to.now) }
{
    let leaf = Leaf::file(Bytes::from_vec(Vec::new(alloc)), 420, 0, 0);
    host.write_stage(alloc, &leaf)?;
    host.rename_stage(alloc, to)?;
    host.remove(alloc, to)
}

/// Shows a path, and the text of the leaf that stands there.
pub fn show_leaf_at(
    alloc: Global,
    lines: &mut Lines,
    world: &World,
    at: &Path,
) -> Result<(), Fail> {
    lines.add_word(at.as_str());
    match world.leaf(at) {
        Some(leaf) => show_leaf(alloc, lines, leaf)?,
        None => lines.add_word("none"),
    }
    lines.end_last_line();
    Ok(())
}

/// Shows how a host reads a path, and its faults.
fn show_read(
    alloc: Global,
    lines: &mut Lines,
    host: &mut MemoryHost,
    at: &Path,
) -> Result<(), Fail> {
    lines.add_word("read");
    lines.add_word(word_of(&host.read(alloc, at))?);
    show_faults(lines, host.faults());
    Ok(())
}

/// Shows how a host reads a path, and once it is revived how many leaves it lists there and how it reads.
fn show_revived(
    alloc: Global,
    lines: &mut Lines,
    host: &mut MemoryHost,
    at: &Path,
) -> Result<(), Fail> {
    show_read(alloc, lines, host, at)?;
    host.revive();
    lines.add_word("revived, listed");
    show_value(lines, &host.list(alloc, at)?.as_slice().len());
    show_read(alloc, lines, host, at)
}

/// Shows how `put_and_remove` ends on a host without leaves, and what stands at the stage and the place.
fn show_end(alloc: Global, lines: &mut Lines, host: &mut MemoryHost) -> Result<(), Fail>
    requires { (host_of host.old).world ≡ Some empty_world }
{
    let to = place(alloc)?;
    let stage = stage_path(alloc)?;
    lines.add_word(word_of(&put_and_remove(alloc, host, &to))?);
    lines.end_line();
    show_leaf_at(alloc, lines, host.world(), &stage)?;
    show_leaf_at(alloc, lines, host.world(), &to)?;
    show_revived(alloc, lines, host, &to)
}

/// Shows the same of a new host that is cut after so many calls with a pick, and fails one call.
pub fn show_trouble(alloc: Global, lines: &mut Lines, fields: &[Bytes]) -> Result<(), Fail> {
    let [after, pick, failing] = fields else {
        return misread();
    };
    let (after, pick) = (number_of(after)?, number_of(pick)?);
    let failing = list_of(alloc, number_of(failing)?)?;
    let mut host = MemoryHost::new(alloc, World::new(alloc));
    host.arm(after, pick);
    host.fail(failing);
    show_end(alloc, lines, &mut host)
}
