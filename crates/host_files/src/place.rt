//! What stands at a place of the file system.
ghost use Rattle.std.specs.Prelude.{◌≡◌, ◌↔◌, ◌++◌, ◌∷◌, IfOk, IsTrue};
ghost use Rattle.std.specs.IoError.{error_kind};
ghost use Rattle.switch_names.specs.Path.{slash};

use host_trait::HostFault;
use std::alloc::{AllocError, Global};
use std::fs::{DirEntry, Metadata};
use std::io::ErrorKind;
use std::os::unix::fs::MetadataExt;
use std::rt::Files;
use std::{fs, io};
use switch_names::Text;

/// The longest name that a file system can hold: `NAME_MAX` of limits.h(0p).
const NAME_MAX: usize = 255;

/// Which folder it is that stands at a place, whatever its name: stat(2), `st_dev` and `st_ino`.
#[derive(Clone, Copy, PartialEq, Eq)]
pub struct FolderId {
    device: u64,
    number: u64,
}

impl FolderId {
    /// Whether another folder is on the same device. A file can't be moved from one device to another: rename(2),
    /// `EXDEV`.
    pub fn is_beside(&self, other: &FolderId) -> bool
        ensures { IsTrue result ↔ (self.now.device ≡ other.now.device) }
    {
        self.device == other.device
    }
}

/// What stands at a place, where it is neither a symbolic link nor a special file.
#[derive(Clone, Copy)]
pub enum PlaceKind {
    /// Nothing.
    Nothing,
    /// This folder.
    Folder(FolderId),
    /// A regular file, of this many bytes.
    File(u64),
}

/// The place of a name in a folder.
pub fn place_in(alloc: Global, folder: &str, name: &str) -> Result<Text, AllocError>
    ensures { IfOk result (λ place. place ≡ folder.now ++ slash ∷ name.now) }
{
    // Room for the whole at once: each call on the tree makes a place.
    let len = folder.len().saturating_add(name.len()).saturating_add(1);
    let mut place = String::with_capacity(alloc, len)?;
    place.push_str(folder)?;
    place.push('/')?;
    place.push_str(name)?;
    Ok(Text::from_string(place))
}

/// The error at what no host wrote, as a link, a special file or a text that is no node. These words say what it is.
pub fn foreign(what: &str) -> io::Error {
    io::Error::new(ErrorKind::InvalidData, what)
}

/// The fault of a call in which a file call has failed.
pub fn fault_of(error: &io::Error) -> HostFault
    ensures { (result ≡ HostFault.Memory) ↔ (error_kind error.now ≡ ErrorKind.OutOfMemory) }
{
    match error.kind() {
        ErrorKind::OutOfMemory => HostFault::Memory,
        _ => HostFault::Device,
    }
}

/// Whether a name of a place is too long to stand anywhere.
fn has_long_name(place: &str) -> bool {
    for name in place.split('/') {
        if name.len() > NAME_MAX {
            return true;
        }
    }
    false
}

/// What is found by these metadata. A symbolic link or a special file is foreign.
fn kind_of(metadata: &Metadata) -> io::Result<PlaceKind> {
    if metadata.is_dir() {
        Ok(PlaceKind::Folder(FolderId {
            device: metadata.dev(),
            number: metadata.ino(),
        }))
    } else if metadata.is_file() {
        Ok(PlaceKind::File(metadata.len()))
    } else {
        Err(foreign("a link or a special file"))
    }
}

/// Which folder these metadata are of. Anything else is foreign.
pub fn folder_id(metadata: &Metadata) -> io::Result<FolderId> {
    match kind_of(metadata)? {
        PlaceKind::Folder(id) => Ok(id),
        _ => Err(foreign("not a folder")),
    }
}

/// What an entry of a folder names, by one system call that follows no link at its end.
pub fn kind_of_entry<R: Files + AllocGlobal>(entry: &DirEntry<R>) -> io::Result<PlaceKind> {
    kind_of(&entry.metadata()?)
}

/// What stands at a place, by one system call that follows no link at its end.
///
/// Nothing stands below a file.
pub fn look(rt: &impl Files, place: &str) -> io::Result<PlaceKind> {
    match fs::symlink_metadata(rt, place) {
        Ok(metadata) => kind_of(&metadata),
        Err(error) => match error.kind() {
            ErrorKind::NotFound | ErrorKind::NotADirectory => Ok(PlaceKind::Nothing),
            ErrorKind::InvalidFilename if has_long_name(place) => Ok(PlaceKind::Nothing),
            _ => Err(error),
        },
    }
}
