//! Reads the entries of a system's etc.
ghost use Rattle.std.specs.Prelude.{◌≡◌, ◌<◌, ◌≤◌, ℕ, false, List, length, Some, Err, IfOk, OnOk, IsErrOf, map, option_and_then, slice_get, if◌then◌else◌};
ghost use Rattle.std.specs.List.{AllByRecursion};
ghost use Rattle.std.specs.List.Sorted.{IsStrictlySortedBy};
ghost use Rattle.switch_names.specs.Names.{has};
ghost use Rattle.host_trait.specs.declared.tree.HostFault.TheVariants.{Device};
ghost use Rattle.host_trait.specs.Bytes.{bytes_cmp};
ghost use Rattle.host_trait.specs.Host.{Told};
ghost use Rattle.host_trait.specs.Reading.{IsReadingOf};
ghost use Rattle.etc_manifest.specs.declared.manifest_fault.ManifestFault.TheVariants.{Entry, Host};
ghost use Rattle.etc_manifest.specs.declared.mode.Mode.TheVariants.{Bits};
ghost use Rattle.etc_manifest.specs.Entries.{IsAnswer, entry_names, item_of};
ghost use Rattle.etc_manifest.specs.Companion.{has_long_owner, parts_of};
ghost use Rattle.etc_manifest.specs.Kind.{copied_kind, direct_kind, kind_of, kind_with, mode_of, owned_kind, short_target};
ghost use Rattle.etc_manifest.specs.Manifest.{gathered, places};
ghost use Rattle.etc_manifest.specs.Owners.{owner_id};
ghost use Rattle.etc_manifest.specs.Place.{is_reserved, path_in};

use crate::companion::is_companion;
use crate::item::{Item, ItemKind};
use crate::manifest_fault::ManifestFault;
use crate::mode::{Mode, read_mode};
use crate::names::has_longer;
use crate::owners::Owners;
use crate::place::is_reserved;
use crate::reading::{Parts, companion, has_long_owner, read_parts, read_target};
use host_trait::{Leaf, Tree};
use std::alloc::{AllocError, Global};
use switch_names::{Bytes, Listed, Path, Text};

/// The refusal of an entry that can't be placed.
fn refused_kind(alloc: Global, name: &Path) -> Result<ItemKind, ManifestFault>
    ensures kind { IsAnswer result (Err (Entry name.now)) }
    ensures cause { IsErrOf result (Host Device) → ⊥ }
{
    Err(ManifestFault::Entry(name.copy(alloc)?))
}

/// An entry that is placed as the link that it is itself.
fn direct_kind(alloc: Global, name: &Path, target: Option<Text>) -> Result<ItemKind, ManifestFault>
    ensures kind { IsAnswer result (direct_kind name.now target) }
    ensures cause { IsErrOf result (Host Device) → ⊥ }
{
    match target {
        Some(target) => Ok(ItemKind::Direct { target }),
        None => refused_kind(alloc, name),
    }
}

/// A copy with these owners, where both are known.
fn owned_kind(
    alloc: Global,
    name: &Path,
    bytes: Bytes,
    mode: u16,
    owners: (Option<u32>, Option<u32>),
) -> Result<ItemKind, ManifestFault>
    requires { mode ≤ 4095 }
    ensures kind { IsAnswer result (owned_kind name.now bytes mode owners.0 owners.1) }
    ensures cause { IsErrOf result (Host Device) → ⊥ }
{
    match owners {
        (Some(uid), Some(gid)) => Ok(ItemKind::Copied {
            leaf: Leaf::file(bytes, mode, uid, gid),
        }),
        _ => Err(ManifestFault::Owner(name.copy(alloc)?)),
    }
}

/// The ids of the owners of a copy that these texts name, its user's and its group's.
fn owner_ids(
    alloc: Global,
    owners: &Owners,
    uid: &[u8],
    gid: &[u8],
) -> Result<(Option<u32>, Option<u32>), AllocError>
    ensures { IfOk result (λ ids. (ids.0 ≡ owner_id owners.now.users uid.now) × (ids.1 ≡ owner_id owners.now.groups gid.now)) }
{
    Ok((owners.user(alloc, uid)?, owners.group(alloc, gid)?))
}

/// A copy that is made of these parts.
fn copied_kind(
    alloc: Global,
    owners: &Owners,
    name: &Path,
    mode: u16,
    parts: Parts,
) -> Result<ItemKind, ManifestFault>
    requires { mode ≤ 4095 }
    ensures kind { IsAnswer result (copied_kind owners.now name.now mode parts) }
    ensures cause { IsErrOf result (Host Device) → ⊥ }
{
    let Some((uid, gid)) = parts.owners() else {
        return refused_kind(alloc, name);
    };
    let ids = owner_ids(alloc, owners, uid, gid)?;
    match parts.into_bytes() {
        Some(bytes) => owned_kind(alloc, name, bytes, mode, ids),
        None => refused_kind(alloc, name),
    }
}

/// The mode that a companion says, where it has content.
fn mode_in(text: Option<Bytes>) -> Option<Mode>
    ensures mode { result ≡ option_and_then mode_of text }
    ensures bits { (mode : ℕ) → result ≡ Some (Bits mode) → mode ≤ 4095 }
{
    let text = text?;
    read_mode(text.as_slice())
}

/// Reads an entry that is placed as the link that it is itself.
fn read_direct<T: Tree>(
    alloc: Global,
    host: &mut T,
    folder: &Path,
    names: &[Path],
    name: &Path,
) -> Result<ItemKind, ManifestFault>
    requires { IsStrictlySortedBy bytes_cmp names.now }
    ensures kind { Told (T.host host.old) (λ w. IsAnswer result (if has_long_owner (has names.now) w.leaves folder.now name.now then Err (Entry name.now) else direct_kind name.now (short_target w.leaves (path_in folder.now name.now)))) }
    ensures reads { IsReadingOf (T.host host.old) (T.host host.new) (IsErrOf result (Host Device)) }
{
    let target = read_target(alloc, host, folder, name)?;
    if has_long_owner(alloc, host, folder, names, name)? {
        return refused_kind(alloc, name);
    }
    direct_kind(alloc, name, target)
}

/// Reads an entry that is copied.
fn read_copied<T: Tree>(
    alloc: Global,
    host: &mut T,
    folder: &Path,
    names: &[Path],
    owners: &Owners,
    name: &Path,
    mode: u16,
) -> Result<ItemKind, ManifestFault>
    requires sorted { IsStrictlySortedBy bytes_cmp names.now }
    requires bits { mode ≤ 4095 }
    ensures kind { Told (T.host host.old) (λ w. IsAnswer result (copied_kind owners.now name.now mode (parts_of (has names.now) w.leaves folder.now name.now))) }
    ensures reads { IsReadingOf (T.host host.old) (T.host host.new) (IsErrOf result (Host Device)) }
{
    let parts = read_parts(alloc, host, folder, names, name)?;
    copied_kind(alloc, owners, name, mode, parts)
}

/// Reads an entry with this mode.
fn read_with<T: Tree>(
    alloc: Global,
    host: &mut T,
    folder: &Path,
    names: &[Path],
    owners: &Owners,
    name: &Path,
    mode: Option<Mode>,
) -> Result<ItemKind, ManifestFault>
    requires sorted { IsStrictlySortedBy bytes_cmp names.now }
    requires bits { (bits : ℕ) → mode ≡ Some (Bits bits) → bits ≤ 4095 }
    ensures kind { Told (T.host host.old) (λ w. IsAnswer result (kind_with (has names.now) w.leaves folder.now owners.now name.now mode)) }
    ensures reads { IsReadingOf (T.host host.old) (T.host host.new) (IsErrOf result (Host Device)) }
{
    match mode {
        Some(Mode::DirectSymlink) => read_direct(alloc, host, folder, names, name),
        Some(Mode::Bits(mode)) => read_copied(alloc, host, folder, names, owners, name, mode),
        None => refused_kind(alloc, name),
    }
}

/// Reads how the entry at this place among the names is placed.
fn read_kind<T: Tree>(
    alloc: Global,
    host: &mut T,
    folder: &Path,
    names: &[Path],
    owners: &Owners,
    at: usize,
) -> Result<ItemKind, ManifestFault>
    requires sorted { IsStrictlySortedBy bytes_cmp names.now }
    requires there { at < length names.now }
    ensures kind { (name : List ℕ) → slice_get names.now at ≡ Some name → Told (T.host host.old) (λ w. IsAnswer result (kind_of (has names.now) w.leaves folder.now owners.now name)) }
    ensures reads { IsReadingOf (T.host host.old) (T.host host.new) (IsErrOf result (Host Device)) }
{
    if !has_longer(names, at) {
        return Ok(ItemKind::Linked);
    }
    let name = &names[at];
    let Some(text) = companion(alloc, host, folder, names, name, ".mode")? else {
        return Ok(ItemKind::Linked);
    };
    let mode = mode_in(text);
    read_with(alloc, host, folder, names, owners, name, mode)
}

/// Reads the entry at this place among the names.
fn read_item<T: Tree>(
    alloc: Global,
    host: &mut T,
    folder: &Path,
    names: &[Path],
    owners: &Owners,
    at: usize,
) -> Result<Item, ManifestFault>
    requires sorted { IsStrictlySortedBy bytes_cmp names.now }
    requires there { at < length names.now }
    ensures item { (name : List ℕ) → slice_get names.now at ≡ Some name → Told (T.host host.old) (λ w. IsAnswer result (item_of (has names.now) w.leaves folder.now owners.now name)) }
    ensures place { IfOk result (λ item. slice_get names.now at ≡ Some item.place) }
    ensures free { IfOk result (λ item. is_reserved item.place ≡ false) }
    ensures reads { IsReadingOf (T.host host.old) (T.host host.new) (IsErrOf result (Host Device)) }
{
    let name = &names[at];
    if is_reserved(name) {
        return Err(ManifestFault::Reserved(name.copy(alloc)?));
    }
    let kind = read_kind(alloc, host, folder, names, owners, at)?;
    Ok(Item {
        place: name.copy(alloc)?,
        kind,
    })
}

/// Reads the entries among names in order, up to the first that is refused.
pub fn read_items<T: Tree>(
    alloc: Global,
    host: &mut T,
    folder: &Path,
    names: &[Path],
    owners: &Owners,
) -> Result<Listed<Item>, ManifestFault>
    requires { IsStrictlySortedBy bytes_cmp names.now }
    ensures items { Told (T.host host.old) (λ w. IsAnswer result (gathered (map (item_of (has names.now) w.leaves folder.now owners.now) (entry_names (has names.now) names.now)))) }
    ensures places { IfOk result (λ items. places items ≡ entry_names (has names.now) names.now) }
    ensures free { OnOk result (AllByRecursion (λ name. is_reserved name ≡ false) (entry_names (has names.now) names.now)) }
    ensures reads { IsReadingOf (T.host host.old) (T.host host.new) (IsErrOf result (Host Device)) }
{
    let mut items = Listed::new(alloc);
    for at in 0..names.len() {
        let name = &names[at];
        if is_companion(alloc, names, name.as_str())? {
            continue;
        }
        items.push(read_item(alloc, host, folder, names, owners, at)?)?;
    }
    Ok(items)
}
