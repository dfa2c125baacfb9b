//! Worlds and faults, as lines.
use crate::lines::Lines;
use host_trait::{Leaf, World};
use node_text::write_node;
use std::alloc::Global;
use std::test::Fail;
use switch_names::{Path, UnitName};

/// Adds the file of a leaf: its place on a line, and its node's text.
fn show_leaf(alloc: Global, lines: &mut Lines, at: &Path, leaf: &Leaf) -> Result<(), Fail> {
    let text = write_node(alloc, leaf)?;
    lines.add_text("tree/");
    lines.add_text(at.as_str());
    lines.end_line();
    lines.add_text(std::str::from_utf8(text.as_slice())?);
    lines.end_last_line();
    Ok(())
}

/// Adds the files of the leaves at or below a place, in byte order.
///
/// Fails where the place is no path, or a file's bytes are no text.
pub fn show_leaves(
    alloc: Global,
    lines: &mut Lines,
    world: &World,
    under: &str,
) -> Result<(), Fail> {
    let under = Path::parse(alloc, under)?;
    let places = world.list(alloc, &under)?;
    for at in places.as_slice() {
        if let Some(leaf) = world.leaf(at) {
            show_leaf(alloc, lines, at, leaf)?;
        }
    }
    Ok(())
}

/// Adds what the manager has loaded and the states of its units, as the first lines of its text.
pub fn show_states(lines: &mut Lines, world: &World) {
    lines.add_word("loaded");
    lines.add_word(world.loaded().as_str());
    lines.end_line();
    for one in world.states().list().as_slice() {
        lines.add_word(one.state.word());
        lines.add_word(one.unit.as_str());
        lines.end_line();
    }
}

/// Adds what the manager has done, as the last lines of its text.
pub fn show_journal(lines: &mut Lines, world: &World) {
    for one in world.journal().as_slice() {
        lines.add_word(one.act.word());
        lines.add_word(one.unit.as_str());
        lines.add_word(one.loaded.as_str());
        lines.end_line();
    }
}

/// Shows the unit and the line at which a text is refused.
pub fn show_fault(lines: &mut Lines, unit: &UnitName, line: u32) {
    lines.add_word(unit.as_str());
    lines.add_value(&line);
    lines.end_line();
}
