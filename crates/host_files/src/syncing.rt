//! Whether what was written is kept beyond a loss of power.
use std::fs::OpenFile;
use std::rt::Files;
use std::{fs, io};

/// Whether files and folders are synced: fsync(2).
#[derive(Clone, Copy)]
pub enum Syncing {
    /// They are.
    On,
    /// None is.
    Off,
}

impl Syncing {
    /// Has the bytes of an open file kept.
    pub fn sync_file<F: OpenFile>(self, file: &F) -> io::Result<()> {
        match self {
            Syncing::On => file.sync_data(),
            Syncing::Off => Ok(()),
        }
    }
}

/// Has the names in a folder kept.
pub fn sync_folder<R: Files>(rt: &R, folder: &str) -> io::Result<()> {
    fs::open(rt, folder)?.sync_all()
}
