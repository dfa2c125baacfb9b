//! What an error of the file system is called.
use std::alloc::{AllocError, Global};
use std::io;
use std::io::ErrorKind;
use switch_names::Text;

/// The words for a kind of error: errno(3).
fn words_of(kind: ErrorKind) -> Option<&'static str> {
    match kind {
        ErrorKind::NotFound => Some("not there"),
        ErrorKind::PermissionDenied => Some("no permission"),
        ErrorKind::AlreadyExists => Some("something else stands there"),
        ErrorKind::NotADirectory => Some("not a folder"),
        ErrorKind::IsADirectory => Some("a folder"),
        ErrorKind::DirectoryNotEmpty => Some("a folder that isn't empty"),
        ErrorKind::ReadOnlyFilesystem => Some("a file system that can't be written to"),
        ErrorKind::FilesystemLoop => Some("too many links"),
        ErrorKind::StorageFull => Some("no space left"),
        ErrorKind::QuotaExceeded => Some("no space left for this user"),
        ErrorKind::FileTooLarge => Some("a file that is too large"),
        ErrorKind::CrossesDevices => Some("on another file system"),
        ErrorKind::InvalidFilename => Some("a name or a path that is too long"),
        _ => None,
    }
}

/// The words for an error: those for its kind, or its own where its kind has none.
pub fn cause_of(alloc: Global, error: &io::Error) -> Result<Text, AllocError> {
    match words_of(error.kind()) {
        Some(words) => Text::from_str(alloc, words),
        None => Ok(Text::from_string(format!(in alloc; "{error}")?)),
    }
}
