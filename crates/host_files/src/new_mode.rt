//! What a new file or folder lets its owner do.
use crate::place::{FolderId, folder_id};
use std::fs::{Metadata, Permissions};
use std::os::unix::fs::{MetadataExt, PermissionsExt};
use std::rt::Files;
use std::{fs, io};

/// The bits of a mode that say who may do what: chmod(2).
const MODE_BITS: u32 = 0o7777;

/// The mode that lets its owner do all of this, where the mask of the process took some of it away: umask(2).
pub fn wider_mode(metadata: &Metadata, owner: u32) -> Option<Permissions> {
    let mode = metadata.mode() & MODE_BITS;
    if mode & owner == owner {
        return None;
    }
    Some(Permissions::from_mode(mode | owner))
}

/// Makes a folder, in which its owner can do everything, and says which one it is.
pub fn make_folder<R: Files>(rt: &R, place: &str) -> io::Result<FolderId> {
    fs::create_dir(rt, place)?;
    let metadata = fs::symlink_metadata(rt, place)?;
    let id = folder_id(&metadata)?;
    if let Some(wider) = wider_mode(&metadata, 0o700) {
        fs::set_permissions(rt, place, wider)?;
    }
    Ok(id)
}
