//! What a system wants below `/etc`, by the rules of the NixOS manual, `environment.etc`.
use super::account_tables::tables_of;
use etc_manifest::{Item, ItemKind, Manifest, ManifestFault, Owners};
use host_memory::MemoryHost;
use host_trait::{Leaf, LeafKind};
use std::alloc::Global;
use std::test::Fail;
use switch_names::{Bytes, Path, SystemName};
use world_text::{Lines, host_of, list_of, misread, text_of};

/// Shows a file that is copied: its mode, its owners and its text.
fn show_copy(lines: &mut Lines, leaf: &Leaf) -> Result<(), Fail> {
    match leaf.kind() {
        LeafKind::File {
            bytes,
            mode,
            uid,
            gid,
        } => {
            lines.add_word("copied");
            lines.add_value(mode);
            lines.add_value(uid);
            lines.add_value(gid);
            lines.add_value(&text_of(bytes)?);
            Ok(())
        }
        LeafKind::Link { .. } => Err(Fail::new("a copy is a link")),
    }
}

/// Shows the place of an item, and what is wanted there.
fn show_item(lines: &mut Lines, item: &Item) -> Result<(), Fail> {
    lines.add_word(item.place.as_str());
    match &item.kind {
        ItemKind::Linked => lines.add_word("linked"),
        ItemKind::Copied { leaf } => show_copy(lines, leaf)?,
        ItemKind::Direct { target } => {
            lines.add_word("direct");
            lines.add_word(target.as_str());
        }
    }
    lines.end_line();
    Ok(())
}

/// Shows the items of a system.
fn show_items(lines: &mut Lines, items: &[Item]) -> Result<(), Fail> {
    for item in items {
        show_item(lines, item)?;
    }
    Ok(())
}

/// Shows a refused entry, after the word that says why it is.
fn show_refused(lines: &mut Lines, word: &str, place: &Path) {
    lines.add_word(word);
    lines.add_word(place.as_str());
}

/// Shows why a system is refused.
fn show_fault(lines: &mut Lines, fault: &ManifestFault) {
    match fault {
        ManifestFault::Many(count) => {
            lines.add_word("too many");
            lines.add_value(count);
        }
        ManifestFault::Reserved(place) => show_refused(lines, "reserved", place),
        ManifestFault::Entry(place) => show_refused(lines, "entry", place),
        ManifestFault::Owner(place) => show_refused(lines, "owner", place),
        ManifestFault::Host(fault) => {
            lines.add_word("host");
            lines.add_value(fault);
        }
    }
}

/// The owners of a table of users and one of groups.
fn owners_of(alloc: Global, passwd: &Bytes, group: &Bytes) -> Result<Owners, Fail> {
    let tables = tables_of(alloc, passwd.as_slice(), group.as_slice(), b"")?;
    Ok(Owners::of(alloc, &tables)?)
}

/// A host with these leaves, of which the call of this number fails: `-` fails none.
fn host_with(alloc: Global, fails: &str, places: &[Bytes]) -> Result<MemoryHost, Fail> {
    let mut host = host_of(alloc, places)?;
    if fails != "-" {
        host.fail(list_of(alloc, fails.parse::<u64>()?)?);
    }
    Ok(host)
}

/// Shows what a system of a host wants, with these owners.
fn show_wanted(
    alloc: Global,
    lines: &mut Lines,
    host: &mut MemoryHost,
    owners: &Owners,
) -> Result<(), Fail> {
    let system = SystemName::parse(alloc, "nix/store/a-sys")?;
    match Manifest::read(alloc, host, &system, owners) {
        Ok(manifest) => show_items(lines, manifest.items().as_slice()),
        Err(fault) => {
            show_fault(lines, &fault);
            Ok(())
        }
    }
}

/// Shows what a system wants, with the users and groups of two tables.
pub fn show_manifest(alloc: Global, lines: &mut Lines, fields: &[Bytes]) -> Result<(), Fail> {
    let [fails, passwd, group, places @ ..] = fields else {
        return misread();
    };
    let owners = owners_of(alloc, passwd, group)?;
    let mut host = host_with(alloc, text_of(fails)?, places)?;
    show_wanted(alloc, lines, &mut host, &owners)
}
