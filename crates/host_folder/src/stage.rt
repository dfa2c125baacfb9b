//! The stage, at which a leaf is written before it takes its place.
use crate::folders::{Folders, Missing};
use host_files::{PlaceKind, foreign, look, write_new};
use host_trait::{Leaf, stage_path};
use node_text::write_node;
use std::alloc::Global;
use std::rt::Files;
use std::{fs, io};
use switch_names::{Path, Text};

/// What is known of the stage.
#[derive(Clone, Copy)]
pub enum Stage {
    /// Nothing yet.
    Unseen,
    /// No file stands there.
    Empty,
    /// A leaf was written there.
    Written,
}

/// The place of the stage.
fn stage_place(alloc: Global, tree: &Folders) -> io::Result<Text> {
    let at = stage_path(alloc)?;
    tree.place(alloc, &at)
}

/// Takes away what stands where a new file is to be written.
fn take_away<R: Files + AllocGlobal + Clone + Drop>(
    rt: &R,
    alloc: Global,
    tree: &mut Folders,
    place: &str,
) -> io::Result<()> {
    match look(rt, place)? {
        PlaceKind::Nothing => Ok(()),
        PlaceKind::File(_) => {
            tree.look_again(rt, alloc, place)?;
            fs::remove_file(rt, place)
        }
        PlaceKind::Folder(_) => tree.clear(rt, alloc, place),
    }
}

/// Leads to where a new file is to be written, where nothing stands then.
fn make_room<R: Files + AllocGlobal + Clone + Drop>(
    rt: &R,
    alloc: Global,
    tree: &mut Folders,
    stage: Stage,
    place: &str,
) -> io::Result<()> {
    tree.lead_to(rt, alloc, place, Missing::IsMade)?;
    match stage {
        Stage::Empty => Ok(()),
        Stage::Unseen | Stage::Written => take_away(rt, alloc, tree, place),
    }
}

/// Writes a text at the stage's place, as a new file.
fn write_at<R: Files + AllocGlobal + Clone + Drop>(
    rt: &R,
    alloc: Global,
    tree: &mut Folders,
    stage: &mut Stage,
    place: &str,
    text: &[u8],
) -> io::Result<()> {
    make_room(rt, alloc, tree, *stage, place)?;
    *stage = Stage::Unseen;
    tree.look_again(rt, alloc, place)?;
    write_new(rt, place, text, tree.syncing())?;
    *stage = Stage::Written;
    Ok(())
}

/// Writes a leaf at the stage, as a new file.
pub fn write_leaf<R: Files + AllocGlobal + Clone + Drop>(
    rt: &R,
    alloc: Global,
    tree: &mut Folders,
    stage: &mut Stage,
    leaf: &Leaf,
) -> io::Result<()> {
    let text = write_node(alloc, leaf)?;
    let place = stage_place(alloc, tree)?;
    write_at(rt, alloc, tree, stage, place.as_str(), text.as_slice())
}

/// Whether a regular file stands at the stage, in folders that are no links.
fn is_staged<R: Files>(
    rt: &R,
    alloc: Global,
    tree: &mut Folders,
    stage: Stage,
    place: &str,
) -> io::Result<bool> {
    if !tree.lead_to(rt, alloc, place, Missing::Stays)? {
        return Ok(false);
    }
    match stage {
        Stage::Written => Ok(true),
        _ => Ok(matches!(look(rt, place)?, PlaceKind::File(_))),
    }
}

/// Leads to the place of a file that is moved there, and takes away a folder that stands there.
fn make_way<R: Files + AllocGlobal + Clone + Drop>(
    rt: &R,
    alloc: Global,
    tree: &mut Folders,
    place: &str,
) -> io::Result<()> {
    tree.lead_to(rt, alloc, place, Missing::IsMade)?;
    match look(rt, place)? {
        PlaceKind::Folder(_) => tree.clear(rt, alloc, place),
        _ => Ok(()),
    }
}

/// Moves the stage's file from its place to another in one step.
fn move_file<R: Files + AllocGlobal + Clone + Drop>(
    rt: &R,
    alloc: Global,
    tree: &mut Folders,
    stage: &mut Stage,
    from: &str,
    place: &str,
) -> io::Result<()> {
    if !is_staged(rt, alloc, tree, *stage, from)? {
        return Err(foreign("no file"));
    }
    make_way(rt, alloc, tree, place)?;
    *stage = Stage::Unseen;
    tree.look_again(rt, alloc, from)?;
    tree.look_again(rt, alloc, place)?;
    fs::rename(rt, from, place)?;
    *stage = Stage::Empty;
    Ok(())
}

/// Moves the stage's file to a path in one step.
pub fn move_leaf<R: Files + AllocGlobal + Clone + Drop>(
    rt: &R,
    alloc: Global,
    tree: &mut Folders,
    stage: &mut Stage,
    to: &Path,
) -> io::Result<()> {
    let from = stage_place(alloc, tree)?;
    let place = tree.place(alloc, to)?;
    move_file(rt, alloc, tree, stage, from.as_str(), place.as_str())
}
