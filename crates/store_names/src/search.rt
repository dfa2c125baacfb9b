//! The store paths that stand in a text.
ghost use Rattle.std.specs.Prelude.{◌≡◌, ◌≤◌, ◌||◌, ◌&&◌, IfOk, OnOk, drop, length, nat_eq, take};
ghost use Rattle.std.specs.List.{ends_with, starts_with};
ghost use Rattle.std.specs.List.Sorted.{IsStrictlySortedBy};
ghost use Rattle.host_trait.specs.World.{bytes_cmp};
ghost use Rattle.switch_names.specs.Names.{IsListOf, Name, has};
ghost use Rattle.store_names.specs.Occurs.{AreInFolder, Occurs};

use crate::beginnings::add_beginnings;
use memchr::memmem::Finder;
use std::alloc::{AllocError, Global};
use std::collections::BTreeSet;
use switch_names::{Listed, Path};

/// The names of a set, in byte order.
fn into_list(alloc: Global, set: BTreeSet<Path>) -> Result<Listed<Path>, AllocError>
    ensures names { IfOk result (λ names. names ≡ set.keys) }
    ensures sorted { IsStrictlySortedBy bytes_cmp set.keys }
{
    let mut names = Listed::new(alloc);
    for name in set {
        names.push(name)?;
    }
    Ok(names)
}

/// Adds those of some store paths with which a text goes on at a place that has these bytes before it.
fn add_at(
    alloc: Global,
    found: &mut BTreeSet<Path>,
    names: &[Path],
    front: &[u8],
    text: &[u8],
    at: usize,
) -> Result<(), AllocError>
    requires sorted { IsStrictlySortedBy bytes_cmp names.now }
    requires within { at ≤ length text.now }
    ensures { OnOk result ((name : Name) → has found.new.keys name ≡ (has found.old.keys name || (ends_with nat_eq (take at text.now) front.now && (has names.now name && starts_with nat_eq (drop at text.now) name)))) }
{
    let (before, rest) = text.split_at(at);
    if !before.ends_with(front) {
        return Ok(());
    }
    add_beginnings(alloc, found, names, rest)
}

/// Those of some store paths that stand in a text, with these bytes before them: in byte order, each once.
///
/// The text is passed over once. It is sought for the store's folder, and wherever that stands, for the paths with which
/// it goes on there, of which one may begin with another.
///
/// Source: Nix manual, "Store Object", "References".
pub fn occurring(
    alloc: Global,
    names: &[Path],
    front: &[u8],
    text: &[u8],
) -> Result<Listed<Path>, AllocError>
    requires sorted { IsStrictlySortedBy bytes_cmp names.now }
    requires folder { AreInFolder names.now }
    ensures found { IfOk result (λ found. IsListOf found (Occurs names.now front.now text.now)) }
{
    let finder = Finder::new(b"nix/store/");
    let folder = &finder;
    let mut found = BTreeSet::new(alloc);
    let mut from = 0;
    while let Some(at) = folder.find(&text[from..]) {
        add_at(alloc, &mut found, names, front, text, from + at)?;
        from += at + 1;
    }
    into_list(alloc, found)
}
