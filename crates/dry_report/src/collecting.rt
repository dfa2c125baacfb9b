//! Writes the report of a collection.
ghost use Rattle.std.specs.Prelude.{◌≡◌, ◌≢◌, ◌++◌, ℕ, List, codes, map, IfOk, MatchOption, OnOk};
ghost use Rattle.std.specs.Fmt.{decimal};
ghost use Rattle.std.specs.List.{flat_map};
ghost use Rattle.generations.specs.Places.{link_path};
ghost use Rattle.dry_report.specs.Collecting.{collection_lines, gone_line};
ghost use Rattle.dry_report.specs.Lines.{told_each};

use crate::activation::write_told;
use std::alloc::{AllocError, Global};
use store_collect::Collection;
use switch_names::{Bytes, Path, SystemName};

/// The digits of a generation's number in the path of its link, or none where that is no link's.
fn link_digits(link: &Path) -> Option<&str>
    ensures { MatchOption result ((number : ℕ) → link.now ≢ link_path number) (λ digits. (number : ℕ) → link.now ≡ link_path number → digits.now ≡ decimal number) }
{
    match link.as_str().strip_prefix("nix/var/nix/profiles/system-") {
        Some(rest) => rest.strip_suffix("-link"),
        None => None,
    }
}

/// Writes the line of the generation that has this link.
fn write_gone(out: &mut Vec<u8>, link: &Path) -> Result<(), AllocError>
    ensures { OnOk result ((number : ℕ) → link.now ≡ link_path number → out.new.items ≡ out.old.items ++ gone_line number) }
{
    match link_digits(link) {
        Some(digits) => write_told(out, "drop generation ", digits),
        None => Ok(()),
    }
}

/// Writes the lines of the generations that have these links.
fn write_all_gone(out: &mut Vec<u8>, links: &[Path]) -> Result<(), AllocError>
    ensures { OnOk result ((numbers : List ℕ) → links.now ≡ map link_path numbers → out.new.items ≡ out.old.items ++ flat_map gone_line numbers) }
{
    for link in links {
        write_gone(out, link)?;
    }
    Ok(())
}

/// Writes a line for each of these store paths.
fn write_store_paths(out: &mut Vec<u8>, front: &str, names: &[SystemName]) -> Result<(), AllocError>
    ensures { OnOk result (out.new.items ≡ out.old.items ++ told_each front.now names.now) }
{
    for name in names {
        write_told(out, front, name.as_str())?;
    }
    Ok(())
}

/// The report of a planned collection: a line for each generation that goes, by ascending number, and one for each store
/// path that goes, in byte order.
///
/// Source: nix-collect-garbage(1), which prints the store paths that it deletes.
pub fn collection_report(alloc: Global, collection: &Collection) -> Result<Bytes, AllocError>
    ensures { IfOk result (λ text. (numbers : List ℕ) → collection.now.links ≡ map link_path numbers → text ≡ collection_lines numbers collection.now.names) }
{
    let mut out = Vec::new(alloc);
    write_all_gone(&mut out, collection.links.as_slice())?;
    write_store_paths(&mut out, "drop store ", collection.names.as_slice())?;
    Ok(Bytes::from_vec(out))
}
