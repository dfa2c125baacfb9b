//! Groups: group(5).
ghost use Rattle.std.specs.Prelude.{◌≡◌, ℕ, None, Some, IfOk, OnOk, IsErrOf, MatchOption};
ghost use Rattle.account_text.specs.Field.{fields};
ghost use Rattle.account_text.specs.Table.{wrong_line};
ghost use Rattle.account_text.specs.Group.{group_row, group_text, IsGroup, IsSoundGroup};
ghost use Rattle.account_text.specs.Reading.{group_of};

use crate::field::{cut_field, cut_two, join_members, last_field, read_id, read_members};
use crate::row_fault::RowFault;
use crate::table::{Row, read_rows, write_rows};
use std::alloc::{AllocError, Global};
use switch_names::{Bytes, Listed, Text};

/// A group: a row of group(5).
pub struct GroupRow {
    /// The name of the group.
    pub name: Text,
    /// The password field.
    pub password: Text,
    /// The group's id.
    pub gid: u32,
    /// The names of the users that are in the group besides those whose own group it is.
    pub members: Listed<Text>,
}

/// One call: a derived drop is proved anew in each function that lets one go.
impl Drop for GroupRow {
    fn drop(self) {
        let GroupRow {
            name: _,
            password: _,
            gid: _,
            members: _,
        } = self;
    }
}

/// The fields of a line, lent.
#[derive(Clone, Copy)]
struct GroupFields<'a> {
    name: &'a str,
    password: &'a str,
    gid: u32,
    members: &'a str,
}

/// The fields of a row's line.
fn group_fields(line: &str) -> Option<GroupFields<'_>>
    ensures { MatchOption result (group_row (fields line.now) ≡ None) (λ read. group_row (fields line.now) ≡ Some (group_of read)) }
{
    let Some((name, password, rest)) = cut_two(line) else {
        return None;
    };
    let Some((gid, rest)) = cut_field(rest) else {
        return None;
    };
    let Some(members) = last_field(rest) else {
        return None;
    };
    if name.is_empty() {
        return None;
    }
    Some(GroupFields {
        name,
        password,
        gid: read_id(gid)?,
        members,
    })
}

/// A row with these fields.
fn copied(alloc: Global, read: &GroupFields<'_>) -> Result<GroupRow, AllocError>
    ensures { IfOk result (λ row. row ≡ group_of read.now) }
{
    Ok(GroupRow {
        name: Text::from_str(alloc, read.name)?,
        password: Text::from_str(alloc, read.password)?,
        gid: read.gid,
        members: read_members(alloc, read.members)?,
    })
}

impl Row for GroupRow {
    ghost use Rattle.account_text.specs.Group.{group_row, group_name, group_line};

    ghost row_of = { group_row };

    ghost name_of = { group_name };

    ghost line_of = { group_line };

    fn read(alloc: Global, line: &str) -> Result<Option<GroupRow>, AllocError> {
        match group_fields(line) {
            Some(read) => Ok(Some(copied(alloc, &read)?)),
            None => Ok(None),
        }
    }

    fn name(&self) -> &Text {
        &self.name
    }

    fn line(&self, alloc: Global) -> Result<String, AllocError> {
        let members = join_members(alloc, self.members.as_slice())?;
        let (name, password, gid) = (self.name.as_str(), self.password.as_str(), self.gid);
        format!(in alloc; "{name}:{password}:{gid}:{members}")
    }
}

/// Reads the groups of group(5).
///
/// An empty line is passed over, and of two rows with one name the first stands.
pub fn read_group(alloc: Global, bytes: &[u8]) -> Result<Listed<GroupRow>, RowFault>
    ensures ok { IfOk result (IsGroup bytes.now) }
    ensures line { (number : ℕ) → IsErrOf result (RowFault.Line number) → wrong_line group_row bytes.now ≡ Some number }
    ensures sound { IfOk result IsSoundGroup }
{
    read_rows(alloc, bytes)
}

/// Writes groups as group(5) has them, one a line.
pub fn write_group(alloc: Global, rows: &Listed<GroupRow>) -> Result<Bytes, AllocError>
    ensures text { IfOk result (λ text. text ≡ group_text rows.now) }
    ensures read_back { IfOk result (λ text. IsSoundGroup rows.now → IsGroup text rows.now) }
{
    write_rows(alloc, rows.as_slice())
}
