//! The list of what a switch has copied into `/etc`.
ghost use Rattle.std.specs.Prelude.{◌≡◌, ◌++◌, ◌∷◌, [], true, false, Some, None, IfOk, OnOk, filter, if◌then◌else◌};
ghost use Rattle.std.specs.List.{AllByRecursion};
ghost use Rattle.host_trait.specs.Host.{Told};
ghost use Rattle.host_trait.specs.Reading.{IsReading};
ghost use Rattle.host_trait.specs.World.{content_of};
ghost use Rattle.tree_put.specs.Found.{AreFound};
ghost use Rattle.etc_manifest.specs.Place.{is_reserved};
ghost use Rattle.etc_clean.specs.CleanList.{clean_name, clean_names, clean_text, is_clean_name, is_path_text, names_in};
ghost use Rattle.etc_clean.specs.Names.{place};

use etc_manifest::is_reserved;
use host_trait::{HostFault, Tree, fixed_path};
use std::alloc::{AllocError, Global};
use std::collections::BTreeMap;
use switch_names::{Bytes, Listed, Path};
use tree_put::{Found, find_content};

/// The place of the clean list.
#[tactic(auto, unfolding(crate::specs::Names::place, crate::specs::CleanList::clean_name))]
pub fn clean_path(alloc: Global) -> Result<Path, AllocError>
    ensures { IfOk result (λ path. path ≡ place clean_name) }
{
    fixed_path(alloc, "etc/.clean")
}

/// The path that a line is.
#[tactic(auto, unfolding(crate::specs::CleanList::is_path_text))]
fn read_path(alloc: Global, line: &[u8]) -> Result<Option<Path>, AllocError>
    ensures { IfOk result (λ path. path ≡ (if is_path_text line.now then Some line.now else None)) }
{
    match std::str::from_utf8(line) {
        Ok(text) => Path::of_text(alloc, text),
        Err(_) => Ok(None),
    }
}

/// The name that a line says: a path whose first name isn't reserved.
fn read_name(alloc: Global, line: &[u8]) -> Result<Option<Path>, AllocError>
    ensures { IfOk result (λ name. name ≡ (if is_clean_name line.now then Some line.now else None)) }
{
    let Some(path) = read_path(alloc, line)? else {
        return Ok(None);
    };
    if is_reserved(&path) {
        return Ok(None);
    }
    Ok(Some(path))
}

/// Adds the name that a line says, if it does.
fn add_line(alloc: Global, names: &mut Listed<Path>, line: &[u8]) -> Result<(), AllocError>
    ensures { OnOk result (names.new ≡ names.old ++ filter is_clean_name (line.now ∷ [])) }
{
    match read_name(alloc, line)? {
        Some(name) => names.push(name),
        None => Ok(()),
    }
}

/// Reads a clean list: a name below `etc` a line.
///
/// A line that is no path, or whose first name is reserved, is passed over. The order and repeats
/// stay. Source: setup-etc.pl of nixpkgs.
pub fn read_clean(alloc: Global, bytes: &[u8]) -> Result<Listed<Path>, AllocError>
    ensures { IfOk result (λ names. names ≡ clean_names bytes.now) }
{
    let mut names = Listed::new(alloc);
    for line in bytes.split(|byte| *byte == b'\n') {
        add_line(alloc, &mut names, line)?;
    }
    Ok(names)
}

/// Writes a name, and ends the line.
fn write_name(out: &mut Vec<u8>, name: &Path) -> Result<(), AllocError>
    ensures text { OnOk result (out.new.items ≡ out.old.items ++ name.now ++ 10 ∷ []) }
    ensures is_path { is_path_text name.now ≡ true }
{
    out.extend_from_slice(name.as_str().as_bytes())?;
    out.push(b'\n')?;
    Ok(())
}

/// Writes names, one a line.
fn write_names(out: &mut Vec<u8>, names: &[Path]) -> Result<(), AllocError>
    ensures text { OnOk result (out.new.items ≡ out.old.items ++ clean_text names.now) }
    ensures are_paths { OnOk result (AllByRecursion (λ name. is_path_text name ≡ true) names.now) }
{
    for name in names {
        write_name(out, name)?;
    }
    Ok(())
}

/// Writes a clean list: the names in their order, a line each.
///
/// Names of which none begins with a reserved one are read as they were written.
pub fn write_clean(alloc: Global, names: &Listed<Path>) -> Result<Bytes, AllocError>
    ensures text { IfOk result (λ bytes. bytes ≡ clean_text names.now) }
    ensures read_back { AllByRecursion (λ name. is_reserved name ≡ false) names.now → IfOk result (λ bytes. clean_names bytes ≡ names.now) }
{
    let mut out = Vec::new(alloc);
    write_names(&mut out, names.as_slice())?;
    Ok(Bytes::from_vec(out))
}

/// The names that a content says.
pub fn names_in(alloc: Global, content: &Option<Bytes>) -> Result<Listed<Path>, AllocError>
    ensures { IfOk result (λ names. names ≡ names_in content.now) }
{
    match content {
        Some(bytes) => read_clean(alloc, bytes.as_slice()),
        None => Ok(Listed::new(alloc)),
    }
}

/// The content of the clean list that stands, as it was found or else is read.
pub fn read_old<T: Tree>(
    alloc: Global,
    host: &mut T,
    findings: &mut BTreeMap<Path, Found>,
) -> Result<Option<Bytes>, HostFault>
    requires found { Told (T.host host.old) (λ w. AreFound w.leaves findings.old) }
    ensures content { IfOk result (λ bytes. Told (T.host host.old) (λ w. bytes ≡ content_of w.leaves (place clean_name))) }
    ensures others { OnOk result (Told (T.host host.old) (λ w. AreFound w.leaves findings.new)) }
    ensures reads { IsReading (T.host host.old) (T.host host.new) result }
{
    let at = clean_path(alloc)?;
    find_content(alloc, host, findings, &at)
}
