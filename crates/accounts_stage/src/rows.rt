//! How many rows the tables of accounts have.
ghost use Rattle.std.specs.Prelude.{◌≡◌, IfOk};
ghost use Rattle.host_trait.specs.Host.{Told};
ghost use Rattle.host_trait.specs.Reading.{IsReading};
ghost use Rattle.accounts_stage.specs.Places.{table_place};
ghost use Rattle.accounts_stage.specs.Rows.{lines_of, rows_too_many, tables_past, texts_past};
ghost use Rattle.accounts_stage.specs.Standing.{bytes_at};

use crate::places::table_path;
use crate::reading::{TableTexts, bytes_at, read_texts};
use account_text::Tables;
use host_trait::{HostFault, Tree};
use leaf_limits::{ROWS_MAX, past};
use std::alloc::Global;
use switch_names::Bytes;
use switch_parts::{Refusal, TableFile, What, too_many};
use tree_put::nothing_found;

/// How many lines of a table's text aren't empty.
fn lines_of(text: &Bytes) -> u64
    ensures { result ≡ lines_of text.now }
{
    text.as_slice()
        .split(|byte| *byte == b'\n')
        .filter(|line| !line.is_empty())
        .count() as u64
}

/// How many lines the first of three texts has that has too many.
pub fn texts_past(texts: &TableTexts) -> Option<u64>
    ensures { result ≡ texts_past texts.now }
{
    let group = past(ROWS_MAX, lines_of(&texts.group));
    let passwd = past(ROWS_MAX, lines_of(&texts.passwd));
    let shadow = past(ROWS_MAX, lines_of(&texts.shadow));
    group.or(passwd.or(shadow))
}

/// How many rows the first of the groups and the users has that has too many.
pub fn tables_past(tables: &Tables) -> Option<u64>
    ensures { result ≡ tables_past tables.now }
{
    let group = past(ROWS_MAX, tables.group.as_slice().len() as u64);
    let passwd = past(ROWS_MAX, tables.passwd.as_slice().len() as u64);
    group.or(passwd)
}

/// Counts the lines of a table that aren't empty, and changes nothing.
pub fn lines<T: Tree>(alloc: Global, host: &mut T, file: TableFile) -> Result<u64, HostFault>
    ensures count { IfOk result (λ count. Told (T.host host.old) (λ w. count ≡ lines_of (bytes_at w.leaves (table_place file)))) }
    ensures reads { IsReading (T.host host.old) (T.host host.new) result }
{
    let at = table_path(alloc, file)?;
    let mut findings = nothing_found(alloc);
    let text = bytes_at(alloc, host, &mut findings, &at)?;
    Ok(lines_of(&text))
}

/// Says whether the tables that stand have too many lines, and changes nothing.
///
/// The first that has more than `ROWS_MAX` lines that aren't empty is told, in the order group, passwd, shadow.
pub fn too_many_rows<T: Tree>(alloc: Global, host: &mut T) -> Result<Option<Refusal>, HostFault>
    ensures refusal { IfOk result (λ why. Told (T.host host.old) (λ w. why ≡ rows_too_many w.leaves)) }
    ensures reads { IsReading (T.host host.old) (T.host host.new) result }
{
    let mut findings = nothing_found(alloc);
    let texts = read_texts(alloc, host, &mut findings)?;
    Ok(too_many(What::Rows, texts_past(&texts)))
}
