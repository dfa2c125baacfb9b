//! The cases of what is read of texts and made of them: account specifications, account tables, maps of ids,
//! merges of accounts, fstabs, clean lists, what systems want below `/etc`, and how much there is of it.
mod account_specs;
mod account_tables;
mod clean_lists;
mod counts;
mod fstabs;
mod id_maps;
mod manifests;
mod merges;

use self::account_specs::{show_account_name, show_spec};
use self::account_tables::{show_group, show_passwd, show_shadow};
use self::clean_lists::show_clean;
use self::counts::show_counts;
use self::fstabs::{show_fstab, show_mount, show_swap, show_units};
use self::id_maps::{show_free, show_ids};
use self::manifests::show_manifest;
use self::merges::show_merge;
use std::alloc::Global;
use std::test::Fail;
use switch_names::Bytes;
use world_text::Lines;

/// Shows what a command of one text gives, where it is one.
fn show_reading(
    alloc: Global,
    lines: &mut Lines,
    command: &str,
    text: &Bytes,
) -> Option<Result<(), Fail>> {
    let shown = match command {
        "spec" => show_spec(alloc, lines, text.as_slice()),
        "passwd" => show_passwd(alloc, lines, text.as_slice()),
        "group" => show_group(alloc, lines, text.as_slice()),
        "shadow" => show_shadow(alloc, lines, text.as_slice()),
        "clean list" => show_clean(alloc, lines, text.as_slice()),
        "fstab" => show_fstab(alloc, lines, text.as_slice()),
        "fstab units" => show_units(alloc, lines, text.as_slice()),
        "account name" => show_account_name(lines, text),
        "mount name" => show_mount(alloc, lines, text),
        "swap name" => show_swap(alloc, lines, text),
        _ => return None,
    };
    Some(shown)
}

/// Shows what a command of texts gives, where it is one.
pub fn show_text_case(
    alloc: Global,
    lines: &mut Lines,
    command: &str,
    fields: &[Bytes],
) -> Option<Result<(), Fail>> {
    let shown = match (command, fields) {
        ("manifest", _) => show_manifest(alloc, lines, fields),
        ("counts", _) => show_counts(alloc, lines, fields),
        ("merge", _) => show_merge(alloc, lines, fields),
        ("id map", [text, steps @ ..]) => show_ids(alloc, lines, text, steps),
        ("free id", [marks, from, to]) => show_free(alloc, lines, marks, from, to),
        (_, [text]) => return show_reading(alloc, lines, command, text),
        _ => return None,
    };
    Some(shown)
}
