//! Accounts that are declared, merged with those that stand, as the NixOS manual has it in "User
//! Management".
use super::account_tables::tables_of;
use crate::writing::{show_text, show_value, show_words};
use account_text::{Tables, write_group, write_passwd, write_shadow};
use id_memory::IdMap;
use std::alloc::Global;
use std::test::Fail;
use switch_names::{Bytes, Listed, Text};
use users_merge::{Declared, Kept, MergeFault, Merged, Remembered, merge};
use users_spec::Spec;
use world_text::{Lines, misread, text_of};

/// The ids of two texts.
fn remembered_of(alloc: Global, uids: &[u8], gids: &[u8]) -> Result<Remembered, Fail> {
    Ok(Remembered {
        uids: IdMap::read(alloc, uids)?,
        gids: IdMap::read(alloc, gids)?,
    })
}

/// The names between the blanks of a text.
fn names_of(alloc: Global, text: &Bytes) -> Result<Listed<Text>, Fail> {
    let mut names = Listed::new(alloc);
    for name in text_of(text)?.split(' ') {
        if !name.is_empty() {
            names.push(Text::from_str(alloc, name)?)?;
        }
    }
    Ok(names)
}

/// What is left where accounts are merged with what stands.
fn merged(alloc: Global, fields: &[Bytes]) -> Result<Result<Merged, MergeFault>, Fail> {
    let [passwd, group, shadow, uids, gids, users, groups, spec] = fields else {
        return misread();
    };
    let spec = Spec::read(alloc, spec.as_slice())?;
    let tables = tables_of(
        alloc,
        passwd.as_slice(),
        group.as_slice(),
        shadow.as_slice(),
    )?;
    let remembered = remembered_of(alloc, uids.as_slice(), gids.as_slice())?;
    let declared = Declared {
        users: names_of(alloc, users)?,
        groups: names_of(alloc, groups)?,
    };
    Ok(merge(alloc, &spec, &tables, &remembered, &declared))
}

/// Shows tables.
fn show_tables(alloc: Global, lines: &mut Lines, tables: &Tables) -> Result<(), Fail> {
    show_text(lines, "passwd", &write_passwd(alloc, &tables.passwd)?)?;
    show_text(lines, "group", &write_group(alloc, &tables.group)?)?;
    show_text(lines, "shadow", &write_shadow(alloc, &tables.shadow)?)
}

/// Shows ids.
fn show_remembered(alloc: Global, lines: &mut Lines, ids: &Remembered) -> Result<(), Fail> {
    show_text(lines, "uids", &ids.uids.write(alloc)?)?;
    show_text(lines, "gids", &ids.gids.write(alloc)?)
}

/// Shows the names of users and those of groups, each after the word that says when they are declared.
fn show_declared(lines: &mut Lines, word: &str, declared: &Declared) {
    lines.add_word(word);
    lines.add_word("users");
    show_words(lines, declared.users.as_slice());
    lines.add_word(word);
    lines.add_word("groups");
    show_words(lines, declared.groups.as_slice());
}

/// Shows an account that keeps its id.
fn show_kept(lines: &mut Lines, kept: &Kept) {
    lines.add_word("kept");
    lines.add_word(if kept.user { "user" } else { "group" });
    lines.add_word(kept.name.as_str());
    show_value(lines, &kept.id);
}

/// Shows what a merge leaves.
fn show_merged(alloc: Global, lines: &mut Lines, merged: &Merged) -> Result<(), Fail> {
    show_tables(alloc, lines, &merged.tables)?;
    show_remembered(alloc, lines, &merged.remembered)?;
    show_declared(lines, "now", &merged.declared);
    show_declared(lines, "ever", &merged.union);
    for kept in merged.kept.as_slice() {
        show_kept(lines, kept);
    }
    Ok(())
}

/// Shows what is left where accounts are merged with what stands, or why they aren't.
pub fn show_merge(alloc: Global, lines: &mut Lines, fields: &[Bytes]) -> Result<(), Fail> {
    match merged(alloc, fields)? {
        Ok(merged) => show_merged(alloc, lines, &merged),
        Err(fault) => {
            show_value(lines, &fault);
            Ok(())
        }
    }
}
