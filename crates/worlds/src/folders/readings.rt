//! What a host over a folder tells of its tree, of what its manager has loaded, and of its last fault.
use super::failing::Failing;
use super::steps::{take_all, worked};
use crate::outcome::{show_faults, word_of};
use crate::writing::show_paths;
use host_folder::FolderHost;
use host_trait::{Manager, Tree};
use std::test::Fail;
use switch_names::Bytes;
use world_text::Lines;

/// Takes steps in a root, and shows the first names of the paths with a leaf then, and what is loaded.
pub fn show_readings(
    rt: &Failing<'_>,
    lines: &mut Lines,
    root: &str,
    steps: &[Bytes],
) -> Result<(), Fail> {
    let mut host = worked(rt, root, steps)?;
    show_paths(lines, host.tops(rt.alloc())?.as_slice());
    lines.add_word("loaded");
    lines.add_word(host.loaded(rt.alloc())?.as_str());
    Ok(())
}

/// Takes steps in a root, as far as none fails, and shows how they end, how many faults there are, and where and what
/// the last one was.
pub fn show_fault(
    rt: &Failing<'_>,
    lines: &mut Lines,
    root: &str,
    steps: &[Bytes],
) -> Result<(), Fail> {
    let mut host = FolderHost::open(rt, root)?;
    let answer = take_all(rt.alloc(), &mut host, steps)?;
    lines.add_word(word_of(&answer)?);
    show_faults(lines, host.faults());
    if let Some(fault) = host.last_fault(rt.alloc())? {
        lines.add_word(fault.as_str());
    }
    Ok(())
}
