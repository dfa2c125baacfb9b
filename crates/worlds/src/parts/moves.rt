//! What a move leaves of a link.
ghost use Rattle.std.specs.Prelude.{◌≡◌, codes};
ghost use Rattle.host_trait.specs.World.{empty_world};

use super::nodes::show_leaf;
use crate::writing::show_value;
use host_trait::{Leaf, World};
use std::alloc::Global;
use std::test::Fail;
use switch_names::{Bytes, Path};
use world_text::{Lines, misread};

/// Puts a link to `b` at a place and moves it to another, and answers whether the places were free.
fn put_and_move(
    alloc: Global,
    world: &mut World,
    from: &Path,
    to: &Path,
) -> Result<(bool, bool), Fail>
    requires empty { world.old ≡ empty_world }
    requires from { from.now ≡ codes "x" }
    requires to { to.now ≡ codes "y" }
{
    let was = world.set_leaf(alloc, from.copy(alloc)?, Leaf::link(alloc, "b")?)?;
    let replaced = world.move_leaf(alloc, from, to)?;
    Ok((was.is_none(), replaced.is_none()))
}

/// Takes a leaf out, and shows its text and that of its copy.
fn show_taken(alloc: Global, lines: &mut Lines, world: &mut World, at: &Path) -> Result<(), Fail> {
    match world.take_leaf(alloc, at)? {
        Some(leaf) => {
            show_leaf(alloc, lines, &leaf)?;
            let copy = leaf.copy(alloc)?;
            show_leaf(alloc, lines, &copy)
        }
        None => misread(),
    }
}

/// Moves a link from `x` to `y` in an empty world and takes it out, and shows which places were free.
pub fn show_move(
    alloc: Global,
    lines: &mut Lines,
    world: &mut World,
    fields: &[Bytes],
) -> Result<(), Fail>
    requires { world.old ≡ empty_world }
{
    let [] = fields else {
        return misread();
    };
    let from = Path::parse(alloc, "x")?;
    let to = Path::parse(alloc, "y")?;
    let (was_free, is_free) = put_and_move(alloc, world, &from, &to)?;
    lines.add_word("free before");
    lines.add_value(&was_free);
    show_value(lines, &is_free);
    show_taken(alloc, lines, world, &to)?;
    lines.add_word("free then");
    show_value(lines, &world.leaf(&from).is_none());
    Ok(())
}
