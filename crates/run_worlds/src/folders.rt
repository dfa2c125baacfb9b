//! Runs over a root folder, and all that its files say then.
use super::ends::show_end;
use host_folder::FolderHost;
use std::fs;
use std::fs::DirEntry;
use std::test::Fail;
use switch_names::Bytes;
use world_text::{Lines, show_file, text_of};

/// Adds what an entry of a folder names to the folders or the files.
fn push_entry(
    rt: &HostRuntime,
    entry: &DirEntry<HostRuntime>,
    folders: &mut Vec<String>,
    files: &mut Vec<String>,
) -> Result<(), Fail> {
    let place = String::from_str(rt.alloc(), entry.path().as_str())?;
    if entry.file_type()?.is_dir() {
        folders.push(place)?;
    } else {
        files.push(place)?;
    }
    Ok(())
}

/// Adds what stands in a folder to the folders and the files.
fn push_entries(
    rt: &HostRuntime,
    folder: &str,
    folders: &mut Vec<String>,
    files: &mut Vec<String>,
) -> Result<(), Fail> {
    for entry in fs::read_dir(rt, folder)? {
        push_entry(rt, &entry?, folders, files)?;
    }
    Ok(())
}

/// Adds the files in these folders, and in those below them.
fn push_files(
    rt: &HostRuntime,
    folders: &mut Vec<String>,
    files: &mut Vec<String>,
) -> Result<(), Fail> {
    for _ in 0..u64::MAX {
        let Some(folder) = folders.pop() else {
            break;
        };
        push_entries(rt, folder.as_str(), folders, files)?;
    }
    Ok(())
}

/// The places of all files below a root, in byte order.
fn files_below(rt: &HostRuntime, root: &str) -> Result<Vec<String>, Fail> {
    let mut folders = Vec::new(rt.alloc());
    folders.push(String::from_str(rt.alloc(), root)?)?;
    let mut files = Vec::new(rt.alloc());
    push_files(rt, &mut folders, &mut files)?;
    files.sort()?;
    Ok(files)
}

/// Shows how a run of these words over a root ends, and all files then.
pub fn show_folder(
    rt: &HostRuntime,
    lines: &mut Lines,
    root: &Bytes,
    words: &Bytes,
) -> Result<(), Fail> {
    let root = text_of(root)?;
    let mut host = FolderHost::open(rt, root)?;
    show_end(rt.alloc(), lines, &mut host, "-", text_of(words)?)?;
    for place in &files_below(rt, root)? {
        show_file(rt, lines, place.as_str())?;
    }
    Ok(())
}
