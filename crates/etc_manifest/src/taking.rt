//! The contents that a switch takes of a system's etc.
ghost use Rattle.std.specs.Prelude.{◌≡◌, codes, filter, map, IfOk};
ghost use Rattle.std.specs.List.Sorted.{IsStrictlySortedBy};
ghost use Rattle.leaf_limits.specs.Limits.{AreTaken};
ghost use Rattle.switch_names.specs.Names.{has};
ghost use Rattle.host_trait.specs.Bytes.{bytes_cmp};
ghost use Rattle.host_trait.specs.Host.{Told};
ghost use Rattle.host_trait.specs.Reading.{IsReading};
ghost use Rattle.etc_manifest.specs.Place.{path_in};
ghost use Rattle.etc_manifest.specs.Taken.{is_companion_with, is_entry_with_mode, is_taken, takes_entries};

use crate::companion::{before_end, has_mode, is_companion};
use crate::counting::names_in;
use crate::place::etc_folder;
use crate::reading::path_in;
use host_trait::{HostFault, Tree};
use std::alloc::{AllocError, Global};
use switch_names::{Listed, Path, SystemName};

/// Whether an entry has a `.mode`.
fn is_entry_with_mode(alloc: Global, names: &[Path], name: &str) -> Result<bool, AllocError>
    requires { IsStrictlySortedBy bytes_cmp names.now }
    ensures { IfOk result (λ answer. answer ≡ is_entry_with_mode (has names.now) name.now) }
{
    if !has_mode(alloc, names, name)? {
        return Ok(false);
    }
    Ok(!is_companion(alloc, names, name)?)
}

/// Whether a name is that of an entry that has a `.mode`, with an ending.
fn is_companion_with(
    alloc: Global,
    names: &[Path],
    ending: &str,
    name: &str,
) -> Result<bool, AllocError>
    requires { IsStrictlySortedBy bytes_cmp names.now }
    ensures { IfOk result (λ answer. answer ≡ is_companion_with (has names.now) ending.now name.now) }
{
    match before_end(name, ending) {
        Some(entry) => is_entry_with_mode(alloc, names, entry),
        None => Ok(false),
    }
}

/// Whether what stands at a name is taken.
fn is_taken(alloc: Global, names: &[Path], name: &str) -> Result<bool, AllocError>
    requires { IsStrictlySortedBy bytes_cmp names.now }
    ensures { IfOk result (λ answer. answer ≡ is_taken (has names.now) name.now) }
{
    if is_entry_with_mode(alloc, names, name)? || is_companion_with(alloc, names, ".mode", name)? {
        return Ok(true);
    }
    if is_companion_with(alloc, names, ".uid", name)? {
        return Ok(true);
    }
    is_companion_with(alloc, names, ".gid", name)
}

/// The paths of those names in a folder whose contents are taken, in byte order.
fn taken_paths(alloc: Global, folder: &Path, names: &[Path]) -> Result<Listed<Path>, AllocError>
    requires { IsStrictlySortedBy bytes_cmp names.now }
    ensures paths { IfOk result (λ places. places ≡ map (path_in folder.now) (filter (is_taken (has names.now)) names.now)) }
    ensures sorted { IfOk result (λ places. IsStrictlySortedBy bytes_cmp places) }
{
    let mut places = Listed::new(alloc);
    for name in names {
        if is_taken(alloc, names, name.as_str())? {
            places.push(path_in(alloc, folder, name.as_str())?)?;
        }
    }
    Ok(places)
}

/// The paths of a system's etc whose contents a switch takes, in byte order: the entries that have a `.mode`, and the companions
/// of entries. It lists the folder once, and reads no leaf.
///
/// Source: NixOS manual, `environment.etc`.
pub fn taken<T: Tree>(
    alloc: Global,
    host: &mut T,
    system: &SystemName,
) -> Result<Listed<Path>, HostFault>
    ensures taken { IfOk result (λ places. Told (T.host host.old) (λ w. AreTaken places (takes_entries w.leaves system.now) w.leaves)) }
    ensures sorted { IfOk result (λ places. IsStrictlySortedBy bytes_cmp places) }
    ensures reads { IsReading (T.host host.old) (T.host host.new) result }
{
    let names = names_in(alloc, host, system)?;
    let folder = etc_folder(alloc, system)?;
    Ok(taken_paths(alloc, &folder, names.as_slice())?)
}
