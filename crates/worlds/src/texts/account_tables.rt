//! Account tables, by passwd(5), group(5) and shadow(5).
ghost use Rattle.std.specs.Prelude.{IfOk};
ghost use Rattle.account_text.specs.Group.{IsSoundGroup};
ghost use Rattle.account_text.specs.Passwd.{IsSoundPasswd};
ghost use Rattle.account_text.specs.Shadow.{IsSoundShadow};

use crate::writing::{show_bytes, show_value};
use account_text::{
    Tables, group_in_order, passwd_in_order, read_group, read_passwd, read_shadow, write_group,
    write_passwd, write_shadow,
};
use std::alloc::Global;
use std::test::Fail;
use world_text::Lines;

/// Shows what is written of the users of a text, as they stand and in order, or the line that is no row.
pub fn show_passwd(alloc: Global, lines: &mut Lines, text: &[u8]) -> Result<(), Fail> {
    match read_passwd(alloc, text) {
        Ok(rows) => {
            show_bytes(lines, &write_passwd(alloc, &rows)?)?;
            show_bytes(lines, &write_passwd(alloc, &passwd_in_order(rows))?)
        }
        Err(fault) => {
            show_value(lines, &fault);
            Ok(())
        }
    }
}

/// Shows what is written of the groups of a text, as they stand and in order, or the line that is no row.
pub fn show_group(alloc: Global, lines: &mut Lines, text: &[u8]) -> Result<(), Fail> {
    match read_group(alloc, text) {
        Ok(rows) => {
            show_bytes(lines, &write_group(alloc, &rows)?)?;
            show_bytes(lines, &write_group(alloc, &group_in_order(rows))?)
        }
        Err(fault) => {
            show_value(lines, &fault);
            Ok(())
        }
    }
}

/// Shows what is written of the passwords of a text, and what each row has after its hash, or the line that
/// is no row.
pub fn show_shadow(alloc: Global, lines: &mut Lines, text: &[u8]) -> Result<(), Fail> {
    match read_shadow(alloc, text) {
        Ok(rows) => {
            show_bytes(lines, &write_shadow(alloc, &rows)?)?;
            for row in rows.as_slice() {
                show_value(lines, &row.rest.as_str());
            }
            Ok(())
        }
        Err(fault) => {
            show_value(lines, &fault);
            Ok(())
        }
    }
}

/// The tables of these texts.
pub fn tables_of(alloc: Global, passwd: &[u8], group: &[u8], shadow: &[u8]) -> Result<Tables, Fail>
    ensures group { IfOk result (λ tables. IsSoundGroup tables.group) }
    ensures passwd { IfOk result (λ tables. IsSoundPasswd tables.passwd) }
    ensures shadow { IfOk result (λ tables. IsSoundShadow tables.shadow) }
{
    Ok(Tables {
        group: read_group(alloc, group)?,
        passwd: read_passwd(alloc, passwd)?,
        shadow: read_shadow(alloc, shadow)?,
    })
}
