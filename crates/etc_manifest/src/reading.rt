//! Reads what stands at an entry and at its companions.
ghost use Rattle.std.specs.Prelude.{◌≡◌, ◌⊎◌, ◌++◌, IfOk, MatchOption, None, Some, if◌then◌else◌};
ghost use Rattle.std.specs.List.Sorted.{IsStrictlySortedBy};
ghost use Rattle.switch_names.specs.Names.{has};
ghost use Rattle.host_trait.specs.Bytes.{bytes_cmp};
ghost use Rattle.host_trait.specs.Host.{Told};
ghost use Rattle.host_trait.specs.Reading.{IsReading};
ghost use Rattle.etc_manifest.specs.Companion.{companion, has_long, has_long_owner, owner_text, parts_of, without_line_feed};
ghost use Rattle.etc_manifest.specs.Entries.{leaf_names};
ghost use Rattle.etc_manifest.specs.Kind.{short_target};
ghost use Rattle.etc_manifest.specs.Place.{path_in};

use crate::content::{is_long_at, is_target_long, short_content};
use crate::names::{has_name, names_after, with_ending};
use host_trait::{HostFault, LeafKind, Tree};
use std::alloc::{AllocError, Global};
use switch_names::{Bytes, Listed, Path, Text};

/// The names of the leaves below a folder, in byte order.
pub fn read_names<T: Tree>(
    alloc: Global,
    host: &mut T,
    folder: &Path,
) -> Result<Listed<Path>, HostFault>
    ensures sorted { IfOk result (λ names. IsStrictlySortedBy bytes_cmp names) }
    ensures names { IfOk result (λ names. Told (T.host host.old) (λ w. names ≡ leaf_names w.leaves folder.now)) }
    ensures reads { IsReading (T.host host.old) (T.host host.new) result }
{
    let paths = host.list(alloc, folder)?;
    Ok(names_after(alloc, folder, paths.as_slice())?)
}

/// The path of what has a name below a folder.
pub fn path_in(alloc: Global, folder: &Path, name: &str) -> Result<Path, AllocError>
    ensures { IfOk result (λ path. path ≡ path_in folder.now name.now) }
{
    // The name follows the folder in a path, so that memory alone can be wanting.
    folder.below(alloc, name)
}

/// The path of the companion of an entry, where a leaf stands there.
fn companion_path(
    alloc: Global,
    folder: &Path,
    names: &[Path],
    name: &Path,
    ending: &str,
) -> Result<Option<Path>, AllocError>
    requires { IsStrictlySortedBy bytes_cmp names.now }
    ensures { IfOk result (λ path. path ≡ (if has names.now (name.now ++ ending.now) then Some (path_in folder.now (name.now ++ ending.now)) else None)) }
{
    let companion = with_ending(alloc, name.as_str(), ending)?;
    if !has_name(names, companion.as_str()) {
        return Ok(None);
    }
    Ok(Some(path_in(alloc, folder, companion.as_str())?))
}

/// A text without the line feed at its end, where it has one.
fn without_line_feed(text: Bytes) -> Bytes
    ensures { result ≡ without_line_feed text }
{
    let mut text = text.into_vec();
    if text.as_slice().ends_with(b"\n") {
        text.truncate(text.len() - 1);
    }
    Bytes::from_vec(text)
}

/// What the companion of an entry says, where a leaf stands there: nothing, where that has no content, or one that is longer than may
/// be read.
pub fn companion<T: Tree>(
    alloc: Global,
    host: &mut T,
    folder: &Path,
    names: &[Path],
    name: &Path,
    ending: &str,
) -> Result<Option<Option<Bytes>>, HostFault>
    requires { IsStrictlySortedBy bytes_cmp names.now }
    ensures says { IfOk result (λ says. Told (T.host host.old) (λ w. says ≡ companion (has names.now) w.leaves folder.now name.now ending.now)) }
    ensures reads { IsReading (T.host host.old) (T.host host.new) result }
{
    let Some(path) = companion_path(alloc, folder, names, name, ending)? else {
        return Ok(None);
    };
    match short_content(alloc, host, &path)? {
        Some(bytes) => Ok(Some(Some(without_line_feed(bytes)))),
        None => Ok(Some(None)),
    }
}

/// Whether the companion of an entry is longer than may be read.
fn has_long<T: Tree>(
    alloc: Global,
    host: &mut T,
    folder: &Path,
    names: &[Path],
    name: &Path,
    ending: &str,
) -> Result<bool, HostFault>
    requires { IsStrictlySortedBy bytes_cmp names.now }
    ensures long { IfOk result (λ long. Told (T.host host.old) (λ w. long ≡ has_long (has names.now) w.leaves folder.now name.now ending.now)) }
    ensures reads { IsReading (T.host host.old) (T.host host.new) result }
{
    let Some(path) = companion_path(alloc, folder, names, name, ending)? else {
        return Ok(false);
    };
    is_long_at(alloc, host, &path)
}

/// Whether a companion that says who owns an entry is longer than may be read.
pub fn has_long_owner<T: Tree>(
    alloc: Global,
    host: &mut T,
    folder: &Path,
    names: &[Path],
    name: &Path,
) -> Result<bool, HostFault>
    requires { IsStrictlySortedBy bytes_cmp names.now }
    ensures long { IfOk result (λ long. Told (T.host host.old) (λ w. long ≡ has_long_owner (has names.now) w.leaves folder.now name.now)) }
    ensures reads { IsReading (T.host host.old) (T.host host.new) result }
{
    if has_long(alloc, host, folder, names, name, ".uid")? {
        return Ok(true);
    }
    has_long(alloc, host, folder, names, name, ".gid")
}

/// Who owns a file by its companion: the id 0, where no leaf stands there.
fn owner_text<T: Tree>(
    alloc: Global,
    host: &mut T,
    folder: &Path,
    names: &[Path],
    name: &Path,
    ending: &str,
) -> Result<Option<Bytes>, HostFault>
    requires { IsStrictlySortedBy bytes_cmp names.now }
    ensures text { IfOk result (λ text. Told (T.host host.old) (λ w. text ≡ owner_text (companion (has names.now) w.leaves folder.now name.now ending.now))) }
    ensures reads { IsReading (T.host host.old) (T.host host.new) result }
{
    match companion(alloc, host, folder, names, name, ending)? {
        Some(text) => Ok(text),
        None => Ok(Some(Bytes::from_slice(alloc, b"+0")?)),
    }
}

/// What a copy of an entry is made of, as far as its leaves have content that isn't longer than may be read.
pub struct Parts {
    /// The content of the entry.
    pub bytes: Option<Bytes>,
    /// What its companion `.uid` says.
    pub uid: Option<Bytes>,
    /// What its companion `.gid` says.
    pub gid: Option<Bytes>,
}

/// One call: a derived drop is proved anew in each function that lets one go.
impl Drop for Parts {
    fn drop(self) {
        let Parts {
            bytes: _,
            uid: _,
            gid: _,
        } = self;
    }
}

impl Parts {
    /// What the companions `.uid` and `.gid` say, where both say something.
    pub fn owners(&self) -> Option<(&[u8], &[u8])>
        ensures { MatchOption result
            ((self.now.uid ≡ None) ⊎ (self.now.gid ≡ None))
            (λ owners. (self.now.uid ≡ Some owners.0.now) × (self.now.gid ≡ Some owners.1.now)) }
    {
        Some((self.uid.as_ref()?.as_slice(), self.gid.as_ref()?.as_slice()))
    }

    /// The content of the entry.
    pub fn into_bytes(self) -> Option<Bytes>
        ensures { result ≡ self.bytes }
    {
        let Parts {
            bytes,
            uid: _,
            gid: _,
        } = self;
        bytes
    }
}

/// Reads what a copy of an entry is made of.
pub fn read_parts<T: Tree>(
    alloc: Global,
    host: &mut T,
    folder: &Path,
    names: &[Path],
    name: &Path,
) -> Result<Parts, HostFault>
    requires { IsStrictlySortedBy bytes_cmp names.now }
    ensures parts { IfOk result (λ parts. Told (T.host host.old) (λ w. parts ≡ parts_of (has names.now) w.leaves folder.now name.now)) }
    ensures reads { IsReading (T.host host.old) (T.host host.new) result }
{
    let path = path_in(alloc, folder, name.as_str())?;
    let bytes = short_content(alloc, host, &path)?;
    let uid = owner_text(alloc, host, folder, names, name, ".uid")?;
    let gid = owner_text(alloc, host, folder, names, name, ".gid")?;
    Ok(Parts { bytes, uid, gid })
}

/// Reads where an entry leads that is a link, unless what it leads to is longer than may be read.
pub fn read_target<T: Tree>(
    alloc: Global,
    host: &mut T,
    folder: &Path,
    name: &Path,
) -> Result<Option<Text>, HostFault>
    ensures target { IfOk result (λ target. Told (T.host host.old) (λ w. target ≡ short_target w.leaves (path_in folder.now name.now))) }
    ensures reads { IsReading (T.host host.old) (T.host host.new) result }
{
    let path = path_in(alloc, folder, name.as_str())?;
    let Some(leaf) = host.read(alloc, &path)? else {
        return Ok(None);
    };
    let LeafKind::Link { target } = leaf.into_kind() else {
        return Ok(None);
    };
    if is_target_long(alloc, host, target.as_str())? {
        return Ok(None);
    }
    Ok(Some(target))
}
