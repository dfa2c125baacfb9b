//! Room for a leaf where an empty folder stands.
use crate::entries::{Entries, push_entries};
use crate::place::{PlaceKind, foreign, kind_of_entry};
use std::alloc::Global;
use std::fs::DirEntry;
use std::rt::Files;
use std::{fs, io};
use switch_names::{Listed, Text};

/// A list of folders. An entry of anything else is a fault.
impl Entries for Listed<Text> {
    fn push_entry<R: Files + AllocGlobal>(
        &mut self,
        alloc: Global,
        entry: &DirEntry<R>,
    ) -> io::Result<()> {
        let PlaceKind::Folder(_) = kind_of_entry(entry)? else {
            return Err(foreign("stands in a folder that has to go"));
        };
        Ok(self.push(Text::from_str(alloc, entry.path().as_str())?)?)
    }
}

/// Adds all folders below a folder to an empty list, each after the one that it is in.
fn push_below<R: Files + AllocGlobal + Clone + Drop>(
    rt: &R,
    alloc: Global,
    folders: &mut Listed<Text>,
    place: &str,
) -> io::Result<()> {
    push_entries(rt, alloc, folders, place)?;
    for at in 0..usize::MAX {
        let folder = match folders.as_slice().get(at) {
            Some(folder) => folder.copy(alloc)?,
            None => break,
        };
        push_entries(rt, alloc, folders, folder.as_str())?;
    }
    Ok(())
}

/// Removes a folder that holds nothing but empty folders. Any other stays as it is.
pub fn clear_folder<R: Files + AllocGlobal + Clone + Drop>(
    rt: &R,
    alloc: Global,
    place: &str,
) -> io::Result<()> {
    let mut folders = Listed::new(alloc);
    push_below(rt, alloc, &mut folders, place)?;
    for folder in folders.as_slice().iter().rev() {
        fs::remove_dir(rt, folder.as_str())?;
    }
    fs::remove_dir(rt, place)
}
