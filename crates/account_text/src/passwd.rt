//! User accounts: passwd(5).
ghost use Rattle.std.specs.Prelude.{◌≡◌, ◌≢◌, ◌∷◌, [], ℕ, length, None, Some, IfOk, OnOk, IsErrOf, MatchOption};
ghost use Rattle.account_text.specs.Field.{fields};
ghost use Rattle.account_text.specs.Table.{wrong_line};
ghost use Rattle.account_text.specs.Passwd.{passwd_row, passwd_text, IsPasswd, IsSoundPasswd};
ghost use Rattle.account_text.specs.Reading.{passwd_of};

use crate::field::{cut_field, cut_two, last_field, read_id};
use crate::row_fault::RowFault;
use crate::table::{Row, read_rows, write_rows};
use std::alloc::{AllocError, Global};
use switch_names::{Bytes, Listed, Text};

/// A user account: a row of passwd(5).
pub struct PasswdRow {
    /// The name of the user.
    pub name: Text,
    /// The password field, `x` where the password is in the shadow table.
    pub password: Text,
    /// The user's id.
    pub uid: u32,
    /// The id of the user's group.
    pub gid: u32,
    /// The user's full name, or what else is said of it.
    pub gecos: Text,
    /// The user's folder.
    pub home: Text,
    /// The program that is run at login.
    pub shell: Text,
}

/// One call: a derived drop is proved anew in each function that lets one go.
impl Drop for PasswdRow {
    fn drop(self) {
        let PasswdRow {
            name: _,
            password: _,
            uid: _,
            gid: _,
            gecos: _,
            home: _,
            shell: _,
        } = self;
    }
}

/// The fields of a line, lent.
#[derive(Clone, Copy)]
struct PasswdFields<'a> {
    name: &'a str,
    password: &'a str,
    uid: u32,
    gid: u32,
    gecos: &'a str,
    home: &'a str,
    shell: &'a str,
}

/// The fields of a text that has three.
fn three_fields(text: &str) -> Option<(&str, &str, &str)>
    ensures { MatchOption result (length (fields text.now) ≢ 3) (λ cut. fields text.now ≡ cut.0.now ∷ cut.1.now ∷ cut.2.now ∷ []) }
{
    let Some((gecos, rest)) = cut_field(text) else {
        return None;
    };
    let (home, rest) = cut_field(rest)?;
    let Some(shell) = last_field(rest) else {
        return None;
    };
    Some((gecos, home, shell))
}

/// The fields of a row's line.
fn passwd_fields(line: &str) -> Option<PasswdFields<'_>>
    ensures { MatchOption result (passwd_row (fields line.now) ≡ None) (λ read. passwd_row (fields line.now) ≡ Some (passwd_of read)) }
{
    let Some((name, password, rest)) = cut_two(line) else {
        return None;
    };
    let Some((uid, gid, rest)) = cut_two(rest) else {
        return None;
    };
    let Some((gecos, home, shell)) = three_fields(rest) else {
        return None;
    };
    if name.is_empty() {
        return None;
    }
    Some(PasswdFields {
        name,
        password,
        uid: read_id(uid)?,
        gid: read_id(gid)?,
        gecos,
        home,
        shell,
    })
}

/// A row with these fields.
fn copied(alloc: Global, read: &PasswdFields<'_>) -> Result<PasswdRow, AllocError>
    ensures { IfOk result (λ row. row ≡ passwd_of read.now) }
{
    Ok(PasswdRow {
        name: Text::from_str(alloc, read.name)?,
        password: Text::from_str(alloc, read.password)?,
        uid: read.uid,
        gid: read.gid,
        gecos: Text::from_str(alloc, read.gecos)?,
        home: Text::from_str(alloc, read.home)?,
        shell: Text::from_str(alloc, read.shell)?,
    })
}

impl Row for PasswdRow {
    ghost use Rattle.account_text.specs.Passwd.{passwd_row, passwd_name, passwd_line};

    ghost row_of = { passwd_row };

    ghost name_of = { passwd_name };

    ghost line_of = { passwd_line };

    fn read(alloc: Global, line: &str) -> Result<Option<PasswdRow>, AllocError> {
        match passwd_fields(line) {
            Some(read) => Ok(Some(copied(alloc, &read)?)),
            None => Ok(None),
        }
    }

    fn name(&self) -> &Text {
        &self.name
    }

    fn line(&self, alloc: Global) -> Result<String, AllocError> {
        let (gecos, home, shell) = (self.gecos.as_str(), self.home.as_str(), self.shell.as_str());
        let person = format!(in alloc; "{gecos}:{home}:{shell}")?;
        let (name, password) = (self.name.as_str(), self.password.as_str());
        let (uid, gid) = (self.uid, self.gid);
        format!(in alloc; "{name}:{password}:{uid}:{gid}:{person}")
    }
}

/// Reads the user accounts of passwd(5).
///
/// An empty line is passed over, and of two rows with one name the first stands.
pub fn read_passwd(alloc: Global, bytes: &[u8]) -> Result<Listed<PasswdRow>, RowFault>
    ensures ok { IfOk result (IsPasswd bytes.now) }
    ensures line { (number : ℕ) → IsErrOf result (RowFault.Line number) → wrong_line passwd_row bytes.now ≡ Some number }
    ensures sound { IfOk result IsSoundPasswd }
{
    read_rows(alloc, bytes)
}

/// Writes user accounts as passwd(5) has them, one a line.
pub fn write_passwd(alloc: Global, rows: &Listed<PasswdRow>) -> Result<Bytes, AllocError>
    ensures text { IfOk result (λ text. text ≡ passwd_text rows.now) }
    ensures read_back { IfOk result (λ text. IsSoundPasswd rows.now → IsPasswd text rows.now) }
{
    write_rows(alloc, rows.as_slice())
}
