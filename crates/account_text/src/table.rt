//! Tables of rows, read and written line by line.
ghost use Rattle.std.specs.Prelude.{◌≡◌, ◌∷◌, ◌++◌, [], List, ℕ, Option, None, Some, not, string_bytes, IfOk, OnOk, IsErrOf, true, ◌≤◌, length};
ghost use Rattle.std.specs.List.{cons_option, filter_map, list_all};
ghost use Rattle.std.specs.Str.{is_utf8};
ghost use Rattle.account_text.specs.Field.{fields, lines};
ghost use Rattle.account_text.specs.Table.{row_in, rows_of, is_wrong, wrong_line, table_text};
ghost use Rattle.account_text.specs.Reading.{lines_left, left_len};

use crate::firsts::first_rows;
use crate::row_fault::RowFault;
use bstr::ByteSlice;
use std::alloc::{AllocError, Global};
use switch_names::{Bytes, Listed, Text};

/// A row of a table.
pub trait Row: Drop {
    /// The row of some fields.
    ghost row_of: { List (List ℕ) → Option Self };

    /// The name of a row.
    ghost name_of: { Self → List ℕ };

    /// The line of a row.
    ghost line_of: { Self → List ℕ };

    /// The row that a line is.
    fn read(alloc: Global, line: &str) -> Result<Option<Self>, AllocError>
        ensures { IfOk result (λ row. row ≡ row_of (fields line.now)) };

    /// The name of this row.
    fn name(&self) -> &Text
        ensures { result.now ≡ name_of self.now };

    /// The line of this row.
    fn line(&self, alloc: Global) -> Result<String, AllocError>
        ensures { IfOk result (λ line. string_bytes line ≡ line_of self.now) };
}

/// The row that a line is, whatever its bytes.
fn read_row<R: Row>(alloc: Global, line: &[u8]) -> Result<Option<R>, AllocError>
    ensures { IfOk result (λ row. row ≡ row_in R.row_of line.now) }
{
    match std::str::from_utf8(line) {
        Ok(text) => R::read(alloc, text),
        Err(_) => Ok(None),
    }
}

/// Adds the row that a line is, and says whether the line is empty or a row.
fn take<R: Row>(alloc: Global, rows: &mut Vec<R>, line: &[u8]) -> Result<bool, AllocError>
    ensures fine { IfOk result (λ is_fine. is_fine ≡ not (is_wrong R.row_of line.now)) }
    ensures rows { OnOk result (rows.new.items ≡ rows.old.items ++ cons_option (row_in R.row_of line.now) []) }
{
    match read_row(alloc, line)? {
        Some(row) => {
            rows.push(row)?;
            Ok(true)
        }
        None => Ok(line.is_empty()),
    }
}

/// The first line of a text, and what follows its line feed, if it has one.
fn cut_line(text: &[u8]) -> (&[u8], Option<&[u8]>)
    ensures cut { lines text.now ≡ result.0.now ∷ lines_left result.1 }
    ensures shorter { left_len result.1 ≤ length text.now }
{
    match text.find_byte(b'\n') {
        Some(at) => (&text[..at], Some(&text[at + 1..])),
        None => (text, None),
    }
}

/// The rows of all lines.
fn all_rows<R: Row>(alloc: Global, text: &[u8]) -> Result<Vec<R>, RowFault>
    ensures ok { IfOk result (λ rows. rows.items ≡ filter_map (row_in R.row_of) (lines text.now)) }
    ensures complete { OnOk result (wrong_line R.row_of text.now ≡ None) }
    ensures line { (number : ℕ) → IsErrOf result (RowFault.Line number) → wrong_line R.row_of text.now ≡ Some number }
{
    let mut rows = Vec::new(alloc);
    let mut number: u32 = 0;
    let mut left = Some(text);
    while let Some(text) = left {
        let (line, rest) = cut_line(text);
        number = number.saturating_add(1);
        if !take(alloc, &mut rows, line)? {
            return Err(RowFault::Line(number));
        }
        left = rest;
    }
    Ok(rows)
}

/// The rows of a table.
pub fn read_rows<R: Row>(alloc: Global, text: &[u8]) -> Result<Listed<R>, RowFault>
    ensures ok { IfOk result (λ rows. rows ≡ rows_of R.row_of R.name_of text.now) }
    ensures complete { OnOk result (wrong_line R.row_of text.now ≡ None) }
    ensures line { (number : ℕ) → IsErrOf result (RowFault.Line number) → wrong_line R.row_of text.now ≡ Some number }
{
    let rows = all_rows(alloc, text)?;
    Ok(Listed::from_vec(first_rows(alloc, rows)?))
}

/// Writes a row after a text.
fn write_row<R: Row>(alloc: Global, text: &mut Vec<u8>, row: &R) -> Result<(), AllocError>
    ensures text { OnOk result (text.new.items ≡ text.old.items ++ R.line_of row.now ++ 10 ∷ []) }
    ensures utf8 { OnOk result (is_utf8 (R.line_of row.now) ≡ true) }
{
    let line = row.line(alloc)?;
    text.extend_from_slice(line.as_str().as_bytes())?;
    text.push(b'\n')?;
    Ok(())
}

/// The text of a table.
pub fn write_rows<R: Row>(alloc: Global, rows: &[R]) -> Result<Bytes, AllocError>
    ensures text { IfOk result (λ text. text ≡ table_text R.line_of rows.now) }
    ensures utf8 { OnOk result (list_all (λ row. is_utf8 (R.line_of row)) rows.now ≡ true) }
{
    let mut text = Vec::new(alloc);
    for row in rows {
        write_row(alloc, &mut text, row)?;
    }
    Ok(Bytes::from_vec(text))
}
