//! Rows of ids in byte order of their names.
ghost use Rattle.std.specs.Prelude.{◌≡◌, ◌≤◌, Some, IfOk, IfErr, OnOk, OnErr, slice_get};
ghost use Rattle.std.specs.FinMap.{get, insert};
ghost use Rattle.switch_names.specs.Ids.{id_max};
ghost use Rattle.id_memory.specs.Ids.{IsPlaceFor, IsSortedList, ids_of, names_of};

use crate::id_row::IdRow;
use std::alloc::{AllocError, Global};
use switch_names::{Listed, Text};

/// Where a name stands among rows in order, or where it would.
fn find_row(rows: &Listed<IdRow>, name: &str) -> Result<usize, usize>
    requires { IsSortedList rows.now }
    ensures found { IfOk result (λ at. slice_get (names_of rows.now) at ≡ Some name.now) }
    ensures missing { IfErr result (λ at. IsPlaceFor rows.now name.now at) }
{
    rows.as_slice()
        .binary_search_by(|row| row.name.as_str().cmp(name))
}

/// The id of a name among rows in order.
pub fn id_in(rows: &Listed<IdRow>, name: &str) -> Option<u32>
    requires { IsSortedList rows.now }
    ensures { result ≡ get (ids_of rows.now) name.now }
{
    match find_row(rows, name) {
        Ok(at) => Some(rows.as_slice()[at].id),
        Err(_) => None,
    }
}

/// Gives a name its id among rows in order.
pub fn put_into(rows: &mut Listed<IdRow>, name: Text, id: u32) -> Result<(), AllocError>
    requires sorted { IsSortedList rows.old }
    requires bounded { id ≤ id_max }
    ensures ok { OnOk result (ids_of rows.new ≡ insert (ids_of rows.old) name id) }
    ensures err { OnErr result (rows.new ≡ rows.old) }
    ensures sorted { IsSortedList rows.new }
{
    match find_row(rows, name.as_str()) {
        Ok(at) => {
            let _was = rows.replace(at, IdRow { name, id });
            Ok(())
        }
        Err(at) => rows.insert(at, IdRow { name, id }),
    }
}

/// Equal rows.
pub fn copies(alloc: Global, rows: &[IdRow]) -> Result<Vec<IdRow>, AllocError>
    ensures { IfOk result (λ copied. copied.items ≡ rows.now) }
{
    let mut copied = Vec::with_capacity(alloc, rows.len())?;
    for row in rows {
        copied.push(row.copy(alloc)?)?;
    }
    Ok(copied)
}
