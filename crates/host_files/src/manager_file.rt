//! The file that holds the service manager's state.
ghost use Rattle.std.specs.Prelude.{◌≡◌, ◌++◌, codes, IfOk};

use crate::node_file::{read_bytes, write_new};
use crate::place::{PlaceKind, foreign, look, place_in};
use crate::syncing::Syncing;
use manager_core::{StateFault, WrittenState};
use std::alloc::{AllocError, Global};
use std::io::ErrorKind;
use std::rt::Files;
use std::{fs, io};
use switch_names::{Bytes, Text};

/// The first bytes of a manager's state.
const STATE_MARKS: [&str; 1] = ["loaded "];

/// The places of a manager's file and of the draft that takes its place.
pub struct ManagerFile {
    place: Text,
    draft: Text,
}

/// One call: a derived drop is proved anew in each function that lets one go.
impl Drop for ManagerFile {
    fn drop(self) {
        let ManagerFile { place: _, draft: _ } = self;
    }
}

/// The state that some bytes are the text of. Any other bytes are foreign.
fn state_of(alloc: Global, bytes: Bytes) -> io::Result<WrittenState> {
    match WrittenState::read(alloc, bytes) {
        Ok(state) => Ok(state),
        Err(StateFault::Memory) => Err(io::Error::from(AllocError)),
        Err(StateFault::Line(_)) => Err(no_state()),
    }
}

/// The error at a text that is no manager's state.
fn no_state() -> io::Error {
    foreign("not a manager's state")
}

/// Writes a new file in the place of one that a cut run has left.
fn write_anew<R: Files>(rt: &R, place: &str, bytes: &[u8], syncing: Syncing) -> io::Result<()> {
    match write_new(rt, place, bytes, syncing) {
        Err(error) if error.kind() == ErrorKind::AlreadyExists => {
            fs::remove_file(rt, place)?;
            write_new(rt, place, bytes, syncing)
        }
        answer => answer,
    }
}

/// Writes a new file in a root, which is made where it is missing.
fn write_in<R: Files>(
    rt: &R,
    root: &str,
    place: &str,
    bytes: &[u8],
    syncing: Syncing,
) -> io::Result<()> {
    match write_anew(rt, place, bytes, syncing) {
        Err(error) if error.kind() == ErrorKind::NotFound => {
            fs::create_dir_all(rt, root)?;
            write_anew(rt, place, bytes, syncing)
        }
        answer => answer,
    }
}

impl ManagerFile {
    /// The places of these files below a root.
    pub fn new(alloc: Global, root: &str) -> Result<ManagerFile, AllocError>
        ensures place { IfOk result (λ file. file.place ≡ root.now ++ codes "/manager") }
        ensures draft { IfOk result (λ file. file.draft ≡ root.now ++ codes "/manager.new") }
    {
        Ok(ManagerFile {
            place: place_in(alloc, root, "manager")?,
            draft: place_in(alloc, root, "manager.new")?,
        })
    }

    /// The manager's state. Where no file stands, the manager has done nothing.
    pub fn read<R: Files>(&self, rt: &R, alloc: Global) -> io::Result<WrittenState> {
        let place = self.place.as_str();
        match look(rt, place)? {
            PlaceKind::Nothing => Ok(WrittenState::new(alloc)?),
            PlaceKind::File(len) => match read_bytes(rt, alloc, place, len, &STATE_MARKS)? {
                Some(bytes) => state_of(alloc, bytes),
                None => Err(no_state()),
            },
            PlaceKind::Folder(_) => Err(foreign("a folder")),
        }
    }

    /// Replaces the manager's state in a root, in one step.
    pub fn write<R: Files>(
        &self,
        rt: &R,
        root: &str,
        state: &WrittenState,
        syncing: Syncing,
    ) -> io::Result<()> {
        let draft = self.draft.as_str();
        write_in(rt, root, draft, state.text(), syncing)?;
        fs::rename(rt, draft, self.place.as_str())
    }
}
