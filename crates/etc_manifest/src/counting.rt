//! Counts the entries of a system's etc.
ghost use Rattle.std.specs.Prelude.{◌≡◌, length, IfOk};
ghost use Rattle.std.specs.List.Sorted.{IsStrictlySortedBy};
ghost use Rattle.leaf_limits.specs.Counts.{entries_max, past};
ghost use Rattle.switch_names.specs.Names.{has};
ghost use Rattle.host_trait.specs.Bytes.{bytes_cmp};
ghost use Rattle.host_trait.specs.Host.{Told};
ghost use Rattle.host_trait.specs.Reading.{IsReading};
ghost use Rattle.etc_manifest.specs.Entries.{entries_of, entry_names, leaf_names};
ghost use Rattle.etc_manifest.specs.Place.{etc_folder};

use crate::companion::is_companion;
use crate::place::etc_folder;
use crate::reading::read_names;
use host_trait::{HostFault, Tree};
use leaf_limits::{ENTRIES_MAX, past};
use std::alloc::{AllocError, Global};
use switch_names::{Listed, Path, SystemName};

/// How many of some names are entries.
fn count_entries(alloc: Global, names: &[Path]) -> Result<u64, AllocError>
    requires { IsStrictlySortedBy bytes_cmp names.now }
    ensures { IfOk result (λ count. count ≡ length (entry_names (has names.now) names.now)) }
{
    let mut count = 0;
    for at in 0..names.len() {
        if !is_companion(alloc, names, names[at].as_str())? {
            count += 1;
        }
    }
    Ok(count)
}

/// How many of some names are entries, where these are too many.
pub fn entries_past(alloc: Global, names: &[Path]) -> Result<Option<u64>, AllocError>
    requires { IsStrictlySortedBy bytes_cmp names.now }
    ensures { IfOk result (λ many. many ≡ past entries_max (length (entry_names (has names.now) names.now))) }
{
    // Where there are no more names than there may be entries, no name has to be looked at.
    if names.len() as u64 <= ENTRIES_MAX {
        return Ok(None);
    }
    Ok(past(ENTRIES_MAX, count_entries(alloc, names)?))
}

/// The names of the leaves of a system's etc, in byte order.
pub fn names_in<T: Tree>(
    alloc: Global,
    host: &mut T,
    system: &SystemName,
) -> Result<Listed<Path>, HostFault>
    ensures sorted { IfOk result (λ names. IsStrictlySortedBy bytes_cmp names) }
    ensures names { IfOk result (λ names. Told (T.host host.old) (λ w. names ≡ leaf_names w.leaves (etc_folder system.now))) }
    ensures entries { IfOk result (λ names. Told (T.host host.old) (λ w. entry_names (has names) names ≡ entries_of w.leaves system.now)) }
    ensures reads { IsReading (T.host host.old) (T.host host.new) result }
{
    let folder = etc_folder(alloc, system)?;
    read_names(alloc, host, &folder)
}

/// How many entries a system's etc has. It lists the folder once, and reads no leaf.
///
/// Source: NixOS manual, `environment.etc`.
pub fn count<T: Tree>(alloc: Global, host: &mut T, system: &SystemName) -> Result<u64, HostFault>
    ensures count { IfOk result (λ count. Told (T.host host.old) (λ w. count ≡ length (entries_of w.leaves system.now))) }
    ensures reads { IsReading (T.host host.old) (T.host host.new) result }
{
    let names = names_in(alloc, host, system)?;
    Ok(count_entries(alloc, names.as_slice())?)
}
