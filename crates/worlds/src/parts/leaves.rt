//! What worlds of leaves and a manager answer.
use super::managers::loaded_of;
use super::states::bring;
use crate::fields::no_memory;
use crate::writing::show_value;
use host_trait::{World, WorldFault};
use node_text::read_node;
use std::alloc::Global;
use std::test::Fail;
use switch_names::{Bytes, Path};
use world_text::{Lines, misread, put_places, show_leaves, text_of};

/// Puts the leaf of a node's text at a path of a world, and answers the fault.
fn put_leaf(
    alloc: Global,
    world: &mut World,
    at: &Bytes,
    node: &Bytes,
) -> Result<Option<WorldFault>, Fail> {
    let at = Path::parse(alloc, text_of(at)?)?;
    match world.set_leaf(alloc, at, read_node(alloc, node.as_slice())?) {
        Ok(_before) => Ok(None),
        Err(WorldFault::Memory) => no_memory(),
        Err(fault) => Ok(Some(fault)),
    }
}

/// Puts a leaf at a path of a world, and shows the fault, and the leaves.
pub fn show_put(
    alloc: Global,
    lines: &mut Lines,
    world: &mut World,
    fields: &[Bytes],
) -> Result<(), Fail> {
    let [under, at, node, places @ ..] = fields else {
        return misread();
    };
    put_places(alloc, world, places)?;
    lines.add_value(&put_leaf(alloc, world, at, node)?);
    lines.add_word("leaves");
    show_value(lines, &world.leaf_count());
    show_leaves(alloc, lines, world, text_of(under)?)
}

/// Fills a world, loads definitions and brings a unit to a state, and shows whether it and an empty
/// one seem the same, from either side.
pub fn show_what_is_seen(
    alloc: Global,
    lines: &mut Lines,
    world: &mut World,
    fields: &[Bytes],
) -> Result<(), Fail> {
    let [loaded, unit, state, places @ ..] = fields else {
        return misread();
    };
    put_places(alloc, world, places)?;
    world.set_loaded(loaded_of(alloc, text_of(loaded)?)?);
    let _unit = bring(alloc, world, unit, state)?;
    let empty = World::new(alloc);
    lines.add_value(&empty.same_seen(world));
    show_value(lines, &world.same_seen(&empty));
    Ok(())
}
