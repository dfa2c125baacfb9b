//! Files that hold one node each.
use crate::new_mode::wider_mode;
use crate::place::foreign;
use crate::syncing::Syncing;
use host_trait::Leaf;
use node_text::{NodeFault, read_node};
use std::alloc::{AllocError, Global};
use std::fs::{OpenFile, OpenOptions};
use std::io::{ErrorKind, Read, Seek, SeekFrom, Write};
use std::rt::Files;
use std::{fs, io};
use switch_names::Bytes;

/// The first bytes of a node file.
const NODE_MARKS: [&str; 2] = ["F ", "L "];

/// A file that is longer than this is read only where its first bytes are those of a file that a host writes.
const LONG: u64 = 1_048_576;

/// Fills a buffer from a file, as far as the file goes, and answers how far that is.
fn fill<F: Read>(file: &mut F, buffer: &mut [u8]) -> io::Result<usize> {
    let mut filled = 0;
    for _ in 0..u64::MAX {
        if filled == buffer.len() {
            break;
        }
        match file.read(&mut buffer[filled..]) {
            Ok(0) => break,
            Ok(count) => filled += count,
            Err(error) if error.kind() == ErrorKind::Interrupted => {}
            Err(error) => return Err(error),
        }
    }
    Ok(filled)
}

/// Whether some bytes begin with one of these marks.
fn has_mark(bytes: &[u8], marks: &[&str]) -> bool {
    for mark in marks {
        if bytes.starts_with(mark.as_bytes()) {
            return true;
        }
    }
    false
}

/// Whether a file begins with one of these marks. It is then read from its beginning.
fn begins_with<F: Read + Seek>(file: &mut F, marks: &[&str]) -> io::Result<bool> {
    let mut head = [0u8; 8];
    fill(file, &mut head)?;
    file.seek(SeekFrom::Start(0))?;
    Ok(has_mark(&head, marks))
}

/// The bytes of a regular file, as many as memory takes. There are none where a long file doesn't begin as one that a
/// host writes. `look` tells how many there are, and that no symbolic link and no special file stands there: what takes
/// the file's place since then is followed, or waited for.
pub fn read_bytes<R: Files>(
    rt: &R,
    alloc: Global,
    place: &str,
    len: u64,
    marks: &[&str],
) -> io::Result<Option<Bytes>> {
    let mut file = fs::open(rt, place)?;
    if len > LONG && !begins_with(&mut file, marks)? {
        return Ok(None);
    }
    let Ok(len) = usize::try_from(len) else {
        return Err(io::Error::from(AllocError));
    };
    let mut bytes = vec![in alloc; 0u8; len]?;
    let filled = fill(&mut file, bytes.as_mut_slice())?;
    bytes.truncate(filled);
    Ok(Some(Bytes::from_vec(bytes)))
}

/// The leaf that these bytes are the text of. Any other bytes are foreign.
fn leaf_of(alloc: Global, bytes: &Bytes) -> io::Result<Leaf> {
    match read_node(alloc, bytes.as_slice()) {
        Ok(leaf) => Ok(leaf),
        Err(NodeFault::Memory) => Err(io::Error::from(AllocError)),
        Err(_) => Err(no_node()),
    }
}

/// The error at a text that is no node.
fn no_node() -> io::Error {
    foreign("not a node file")
}

/// The leaf in a regular file of this many bytes, as `look` finds it.
pub fn read_leaf<R: Files>(rt: &R, alloc: Global, place: &str, len: u64) -> io::Result<Leaf> {
    match read_bytes(rt, alloc, place, len, &NODE_MARKS)? {
        Some(bytes) => leaf_of(alloc, &bytes),
        None => Err(no_node()),
    }
}

/// Writes a new file, which its owner can read and write, and syncs it. It fails where anything stands there, a
/// symbolic link too.
pub fn write_new<R: Files>(rt: &R, place: &str, bytes: &[u8], syncing: Syncing) -> io::Result<()> {
    let mut file = OpenOptions::new()
        .write(true)
        .create_new(true)
        .open(rt, place)?;
    let metadata = file.metadata()?;
    if let Some(wider) = wider_mode(&metadata, 0o600) {
        file.set_permissions(wider)?;
    }
    file.write_all(bytes)?;
    syncing.sync_file(&file)
}

/// Appends bytes to a file, and syncs it. It fails where none stands there. What is read of `read_bytes` holds of what
/// takes its place since `look`.
pub fn append_bytes<R: Files>(
    rt: &R,
    place: &str,
    bytes: &[u8],
    syncing: Syncing,
) -> io::Result<()> {
    let mut file = OpenOptions::new().append(true).open(rt, place)?;
    file.write_all(bytes)?;
    syncing.sync_file(&file)
}
