//! Shadowed passwords: shadow(5).
ghost use Rattle.std.specs.Prelude.{◌≡◌, ◌<◌, ◌+◌, ◌==◌, ℕ, None, Some, IfOk, OnOk, IsErrOf, MatchOption, length, count_by};
ghost use Rattle.account_text.specs.Field.{fields, is_colon};
ghost use Rattle.account_text.specs.Table.{wrong_line};
ghost use Rattle.account_text.specs.Shadow.{shadow_row, shadow_text, IsShadow, IsSoundShadow};
ghost use Rattle.account_text.specs.Reading.{shadow_of};

use crate::field::cut_two;
use crate::row_fault::RowFault;
use crate::table::{Row, read_rows, write_rows};
use std::alloc::{AllocError, Global};
use switch_names::{Bytes, Listed, Text};

/// The password of a user account and how it ages: a row of shadow(5).
pub struct ShadowRow {
    /// The name of the user.
    pub name: Text,
    /// The hashed password.
    pub password: Text,
    /// The seven fields that follow, with the six colons between them.
    pub rest: Text,
}

/// One call: a derived drop is proved anew in each function that lets one go.
impl Drop for ShadowRow {
    fn drop(self) {
        let ShadowRow {
            name: _,
            password: _,
            rest: _,
        } = self;
    }
}

/// The fields of a line, lent.
#[derive(Clone, Copy)]
struct ShadowFields<'a> {
    name: &'a str,
    password: &'a str,
    rest: &'a str,
}

/// How many colons a text has.
fn count_colons(text: &str) -> usize
    ensures { result ≡ count_by is_colon text.now }
{
    text.as_bytes().iter().filter(|byte| **byte == b':').count()
}

/// The fields of a row's line.
fn shadow_fields(line: &str) -> Option<ShadowFields<'_>>
    ensures { MatchOption result (shadow_row (fields line.now) ≡ None) (λ read. shadow_row (fields line.now) ≡ Some (shadow_of read)) }
{
    let Some((name, password, rest)) = cut_two(line) else {
        return None;
    };
    if name.is_empty() {
        return None;
    }
    if count_colons(rest) != 6 {
        return None;
    }
    Some(ShadowFields {
        name,
        password,
        rest,
    })
}

/// A row with these fields.
fn copied(alloc: Global, read: &ShadowFields<'_>) -> Result<ShadowRow, AllocError>
    ensures { IfOk result (λ row. row ≡ shadow_of read.now) }
{
    Ok(ShadowRow {
        name: Text::from_str(alloc, read.name)?,
        password: Text::from_str(alloc, read.password)?,
        rest: Text::from_str(alloc, read.rest)?,
    })
}

impl Row for ShadowRow {
    ghost use Rattle.account_text.specs.Shadow.{shadow_row, shadow_name, shadow_line};

    ghost row_of = { shadow_row };

    ghost name_of = { shadow_name };

    ghost line_of = { shadow_line };

    fn read(alloc: Global, line: &str) -> Result<Option<ShadowRow>, AllocError> {
        match shadow_fields(line) {
            Some(read) => Ok(Some(copied(alloc, &read)?)),
            None => Ok(None),
        }
    }

    fn name(&self) -> &Text {
        &self.name
    }

    fn line(&self, alloc: Global) -> Result<String, AllocError> {
        let (name, password, rest) = (
            self.name.as_str(),
            self.password.as_str(),
            self.rest.as_str(),
        );
        format!(in alloc; "{name}:{password}:{rest}")
    }
}

/// Reads the passwords of shadow(5).
///
/// An empty line is passed over, and of two rows with one name the first stands.
pub fn read_shadow(alloc: Global, bytes: &[u8]) -> Result<Listed<ShadowRow>, RowFault>
    ensures ok { IfOk result (IsShadow bytes.now) }
    ensures line { (number : ℕ) → IsErrOf result (RowFault.Line number) → wrong_line shadow_row bytes.now ≡ Some number }
    ensures sound { IfOk result IsSoundShadow }
{
    read_rows(alloc, bytes)
}

/// Writes passwords as shadow(5) has them, one a line.
pub fn write_shadow(alloc: Global, rows: &Listed<ShadowRow>) -> Result<Bytes, AllocError>
    ensures text { IfOk result (λ text. text ≡ shadow_text rows.now) }
    ensures read_back { IfOk result (λ text. IsSoundShadow rows.now → IsShadow text rows.now) }
{
    write_rows(alloc, rows.as_slice())
}
