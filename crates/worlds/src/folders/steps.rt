//! Steps on a host over a folder: leaves are put, appended to and removed, definitions loaded, and units called.
use super::failing::{Failing, Host};
use host_folder::FolderHost;
use host_trait::{HostFault, Leaf, Manager, Tree, stage_path};
use node_text::read_node;
use std::alloc::Global;
use std::test::Fail;
use switch_names::{Bytes, Path, UnitName};
use world_text::{misread, text_of};

/// Puts a leaf at a path by way of the stage, which is no such path.
fn put(alloc: Global, host: &mut Host<'_>, leaf: &Leaf, at: &Path) -> Result<(), HostFault> {
    let stage = stage_path(alloc)?;
    if *at == stage {
        return Err(HostFault::Device);
    }
    host.write_stage(alloc, leaf)?;
    host.rename_stage(alloc, at)
}

/// Puts the leaf of a node's text at a path.
fn put_at(
    alloc: Global,
    host: &mut Host<'_>,
    at: &str,
    text: &Bytes,
) -> Result<Result<(), HostFault>, Fail> {
    let leaf = read_node(alloc, text.as_slice())?;
    let at = Path::parse(alloc, at)?;
    Ok(put(alloc, host, &leaf, &at))
}

/// Appends bytes to the file at a path. There are some, and it isn't the stage's.
fn append(
    alloc: Global,
    host: &mut Host<'_>,
    at: &str,
    bytes: &Bytes,
) -> Result<Result<(), HostFault>, Fail> {
    let at = Path::parse(alloc, at)?;
    let stage = stage_path(alloc)?;
    if at == stage || bytes.as_slice().is_empty() {
        return misread();
    }
    Ok(host.append(alloc, &at, bytes.as_slice()))
}

/// Reads the leaf at a path.
fn read(alloc: Global, host: &mut Host<'_>, at: &Bytes) -> Result<Result<(), HostFault>, Fail> {
    let at = Path::parse(alloc, text_of(at)?)?;
    match host.read(alloc, &at) {
        Ok(_) => Ok(Ok(())),
        Err(fault) => Ok(Err(fault)),
    }
}

/// Writes the leaf of a node's text to the stage.
fn stage(alloc: Global, host: &mut Host<'_>, text: &Bytes) -> Result<Result<(), HostFault>, Fail> {
    let leaf = read_node(alloc, text.as_slice())?;
    Ok(host.write_stage(alloc, &leaf))
}

/// Removes the leaf at a path.
fn remove(alloc: Global, host: &mut Host<'_>, at: &Bytes) -> Result<Result<(), HostFault>, Fail> {
    let at = Path::parse(alloc, text_of(at)?)?;
    Ok(host.remove(alloc, &at))
}

/// Does the act of a word to a unit.
fn act(
    alloc: Global,
    host: &mut Host<'_>,
    word: &str,
    unit: &Bytes,
) -> Result<Result<(), HostFault>, Fail> {
    let unit = UnitName::parse(alloc, text_of(unit)?)?;
    match word {
        "start" => Ok(host.start(alloc, &unit)),
        "stop" => Ok(host.stop(alloc, &unit)),
        "restart" => Ok(host.restart(alloc, &unit)),
        "reload" => Ok(host.reload(alloc, &unit)),
        _ => misread(),
    }
}

/// Asks for the first names of the paths with a leaf, and for what is loaded.
fn tell(alloc: Global, host: &mut Host<'_>) -> Result<(), HostFault> {
    host.tops(alloc)?;
    host.loaded(alloc)?;
    Ok(())
}

/// Takes a step that neither puts nor appends: a leaf is written to the stage, removed or read, definitions are loaded,
/// what was changed is synced, the host is asked what it tells, or a unit is called.
fn take_other(
    alloc: Global,
    host: &mut Host<'_>,
    word: &str,
    given: &Bytes,
) -> Result<Result<(), HostFault>, Fail> {
    match word {
        "stage" => stage(alloc, host, given),
        "remove" => remove(alloc, host, given),
        "read" => read(alloc, host, given),
        "load" => Ok(host.daemon_reload(alloc)),
        "sync" => Ok(host.sync(alloc)),
        "tell" => Ok(tell(alloc, host)),
        _ => act(alloc, host, word, given),
    }
}

/// Takes a step: its word, and what that is about. After `tree/` it is a path, where a leaf is put, and after `append/`
/// one to whose file bytes are appended.
pub fn take(
    alloc: Global,
    host: &mut Host<'_>,
    step: &[Bytes],
) -> Result<Result<(), HostFault>, Fail> {
    let [word, given] = step else {
        return misread();
    };
    let word = text_of(word)?;
    match (word.strip_prefix("tree/"), word.strip_prefix("append/")) {
        (Some(at), _) => put_at(alloc, host, at, given),
        (None, Some(at)) => append(alloc, host, at, given),
        (None, None) => take_other(alloc, host, word, given),
    }
}

/// Takes steps in turn, as far as none fails.
pub fn take_all(
    alloc: Global,
    host: &mut Host<'_>,
    steps: &[Bytes],
) -> Result<Result<(), HostFault>, Fail> {
    for step in steps.chunks(2) {
        if let Err(fault) = take(alloc, host, step)? {
            return Ok(Err(fault));
        }
    }
    Ok(Ok(()))
}

/// A host over a root that has taken steps in turn.
pub fn worked<'a>(rt: &Failing<'a>, root: &str, steps: &[Bytes]) -> Result<Host<'a>, Fail> {
    let mut host = FolderHost::open(rt, root)?;
    take_all(rt.alloc(), &mut host, steps)??;
    Ok(host)
}

/// Takes steps in turn on a new host over a root, as far as none fails.
pub fn take_anew(
    rt: &Failing<'_>,
    root: &str,
    steps: &[Bytes],
) -> Result<Result<(), HostFault>, Fail> {
    let mut host = FolderHost::open(rt, root)?;
    take_all(rt.alloc(), &mut host, steps)
}
