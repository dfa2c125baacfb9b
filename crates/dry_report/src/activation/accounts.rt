//! The lines of accounts.
ghost use Rattle.std.specs.Prelude.{◌≡◌, ◌++◌, OnOk, option_map};
ghost use Rattle.std.specs.List.{flat_map};
ghost use Rattle.std.specs.Option.{option_copied};
ghost use Rattle.users_merge.specs.ByName.{row_ids};
ghost use Rattle.dry_report.specs.Lines.{added_line, added_lines, changed_lines, group_lines, kept_front, kept_line, table_lines, user_lines};

use super::changes::lacking;
use super::lines::{write_names, write_told};
use account_text::{GroupRow, PasswdRow, Tables};
use std::alloc::{AllocError, Global};
use switch_names::Text;
use users_merge::{ByName, Kept, Named, Numbered};

/// How the line of an account begins that keeps another id than the one that is asked for.
fn kept_front(user: bool) -> &'static str
    ensures { result.now ≡ kept_front user }
{
    if user { "warn user " } else { "warn group " }
}

/// Writes the line of an account that keeps another id than the one that is asked for.
fn write_kept(alloc: Global, out: &mut Vec<u8>, kept: &Kept) -> Result<(), AllocError>
    ensures { OnOk result (out.new.items ≡ out.old.items ++ kept_line kept.now) }
{
    let rest = format!(in alloc; "{} keeps id {}", kept.name.as_str(), kept.id)?;
    write_told(out, kept_front(kept.user), rest.as_str())
}

/// Writes the lines of the accounts that keep other ids than those that are asked for.
pub fn write_all_kept(alloc: Global, out: &mut Vec<u8>, kept: &[Kept]) -> Result<(), AllocError>
    ensures { OnOk result (out.new.items ≡ out.old.items ++ flat_map kept_line kept.now) }
{
    for one in kept {
        write_kept(alloc, out, one)?;
    }
    Ok(())
}

/// Writes the line of an account that is added.
fn write_added<R: Named + Numbered>(
    alloc: Global,
    out: &mut Vec<u8>,
    front: &str,
    name: &Text,
    row: Option<&R>,
) -> Result<(), AllocError>
    ensures { OnOk result (out.new.items ≡ out.old.items ++ added_line front.now name.now (option_map R.id_of (option_copied row.entry))) }
{
    if let Some(row) = row {
        let rest = format!(in alloc; "{} {}", name.as_str(), row.id())?;
        write_told(out, front, rest.as_str())?;
    }
    Ok(())
}

/// Writes the lines of the accounts that are added to a table.
fn write_all_added<R: Named + Numbered>(
    alloc: Global,
    out: &mut Vec<u8>,
    front: &str,
    new: &[R],
    names: &[Text],
) -> Result<(), AllocError>
    ensures { OnOk result (out.new.items ≡ out.old.items ++ added_lines R.name_of R.id_of front.now new.now names.now) }
{
    let rows = ByName::of(alloc, new)?;
    for name in names {
        write_added(alloc, out, front, name, rows.find(name))?;
    }
    Ok(())
}

/// Writes the lines of what a table drops, and of what it adds.
fn write_changed<R: Named + Numbered>(
    alloc: Global,
    out: &mut Vec<u8>,
    dropped: &str,
    added: &str,
    old: &[R],
    new: &[R],
) -> Result<(), AllocError>
    ensures { OnOk result (out.new.items ≡ out.old.items ++ changed_lines R.name_of R.id_of dropped.now added.now old.now new.now) }
{
    let fewer = lacking(alloc, old, new)?;
    write_names(out, dropped, fewer.as_slice())?;
    let more = lacking(alloc, new, old)?;
    write_all_added(alloc, out, added, new, more.as_slice())
}

/// Writes the lines of the groups that are dropped, and of those that are added.
fn write_groups(
    alloc: Global,
    out: &mut Vec<u8>,
    old: &[GroupRow],
    new: &[GroupRow],
) -> Result<(), AllocError>
    ensures { OnOk result (out.new.items ≡ out.old.items ++ group_lines old.now new.now) }
{
    write_changed(alloc, out, "drop group ", "add group ", old, new)
}

/// Writes the lines of the users who are dropped, and of those who are added.
fn write_users(
    alloc: Global,
    out: &mut Vec<u8>,
    old: &[PasswdRow],
    new: &[PasswdRow],
) -> Result<(), AllocError>
    ensures { OnOk result (out.new.items ≡ out.old.items ++ user_lines old.now new.now) }
{
    write_changed(alloc, out, "drop user ", "add user ", old, new)
}

/// Writes the lines of the groups that are dropped and added, and then of the users.
pub fn write_tables(
    alloc: Global,
    out: &mut Vec<u8>,
    old: &Tables,
    new: &Tables,
) -> Result<(), AllocError>
    ensures { OnOk result (out.new.items ≡ out.old.items ++ table_lines old.now new.now) }
{
    write_groups(alloc, out, old.group.as_slice(), new.group.as_slice())?;
    write_users(alloc, out, old.passwd.as_slice(), new.passwd.as_slice())
}
