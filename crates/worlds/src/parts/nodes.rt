//! The texts of leaves, and the faults of others.
use crate::fields::no_memory;
use crate::writing::show_value;
use host_trait::Leaf;
use node_text::{NodeFault, read_node, write_node};
use std::alloc::Global;
use std::test::Fail;
use switch_names::{Bytes, NameFault};
use world_text::{Lines, misread, text_of};

/// Shows the text of a leaf.
pub fn show_leaf(alloc: Global, lines: &mut Lines, leaf: &Leaf) -> Result<(), Fail> {
    let text = write_node(alloc, leaf)?;
    lines.add_word(std::str::from_utf8(text.as_slice())?);
    Ok(())
}

/// Shows the text of a leaf, and whether that is read as the leaf again.
fn show_read_again(alloc: Global, lines: &mut Lines, leaf: &Leaf) -> Result<(), Fail> {
    let text = write_node(alloc, leaf)?;
    let read = read_node(alloc, text.as_slice())?;
    show_leaf(alloc, lines, &read)?;
    lines.add_word("the same");
    show_value(lines, &read.same(leaf));
    Ok(())
}

/// Shows the text of a link to a target, or the fault.
pub fn show_link(alloc: Global, lines: &mut Lines, fields: &[Bytes]) -> Result<(), Fail> {
    let [target] = fields else {
        return misread();
    };
    match Leaf::link(alloc, text_of(target)?) {
        Ok(leaf) => show_read_again(alloc, lines, &leaf),
        Err(NameFault::Memory) => no_memory(),
        Err(fault) => {
            show_value(lines, &fault);
            Ok(())
        }
    }
}

/// Shows the leaf of a text, or the fault.
pub fn show_node(alloc: Global, lines: &mut Lines, fields: &[Bytes]) -> Result<(), Fail> {
    let [text] = fields else {
        return misread();
    };
    match read_node(alloc, text.as_slice()) {
        Ok(leaf) => show_read_again(alloc, lines, &leaf),
        Err(NodeFault::Memory) => no_memory(),
        Err(fault) => {
            show_value(lines, &fault);
            Ok(())
        }
    }
}
