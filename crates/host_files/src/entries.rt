//! The entries of a folder, one after the other.
use crate::place::{foreign, look};
use std::alloc::Global;
use std::fs::{DirEntry, ReadDir};
use std::io::ErrorKind;
use std::rt::Files;
use std::{fs, io};

/// What keeps something of each entry of a folder.
pub trait Entries {
    /// Adds an entry of a folder.
    fn push_entry<R: Files + AllocGlobal>(
        &mut self,
        alloc: Global,
        entry: &DirEntry<R>,
    ) -> io::Result<()>;
}

/// The error of an entry that couldn't be read. The folder is looked at once more, as it is the place of the error.
fn unread(rt: &impl Files, folder: &str, error: io::Error) -> io::Error {
    match (look(rt, folder), error.kind()) {
        (Err(other), _) => other,
        (Ok(_), ErrorKind::InvalidFilename) => foreign("holds a name that isn't UTF-8"),
        _ => error,
    }
}

/// Adds the entry that was read next, if it could be read.
fn push_next<R: Files + AllocGlobal + Clone + Drop, E: Entries>(
    rt: &R,
    alloc: Global,
    entries: &mut E,
    folder: &str,
    entry: io::Result<DirEntry<R>>,
) -> io::Result<()> {
    match entry {
        Ok(entry) => entries.push_entry(alloc, &entry),
        Err(error) => Err(unread(rt, folder, error)),
    }
}

/// Opens a folder, once more where a signal has interrupted it.
fn open_folder<R: Files + AllocGlobal + Clone + Drop>(
    rt: &R,
    folder: &str,
) -> io::Result<ReadDir<R, Global>> {
    for _ in 0..u64::MAX {
        match fs::read_dir(rt, folder) {
            Err(error) if error.kind() == ErrorKind::Interrupted => {}
            answer => return answer,
        }
    }
    Err(io::Error::from(ErrorKind::Interrupted))
}

/// Adds each entry of a folder, until one is a fault.
pub fn push_entries<R: Files + AllocGlobal + Clone + Drop, E: Entries>(
    rt: &R,
    alloc: Global,
    entries: &mut E,
    folder: &str,
) -> io::Result<()> {
    for entry in open_folder(rt, folder)? {
        push_next(rt, alloc, entries, folder, entry)?;
    }
    Ok(())
}
