//! Ids as a JSON object.
ghost use Rattle.std.specs.Prelude.{◌≡◌, ◌≤◌, None, Some, IfOk, IsErrOf, string_bytes};
ghost use Rattle.std.specs.List.Sorted.{IsStrictlySortedBy};
ghost use Rattle.host_trait.specs.Bytes.{bytes_cmp};
ghost use Rattle.serde_json.specs.Find.{as_object};
ghost use Rattle.serde_json.specs.View.{view, members_view};
ghost use Rattle.switch_names.specs.Ids.{id_max};
ghost use Rattle.id_memory.specs.Ids.{IsSortedList, names_of};
ghost use Rattle.id_memory.specs.Json.{id_in, members_in, members_of, rows_in, rows_read, rows_text};

use crate::id_fault::IdFault;
use crate::id_row::IdRow;
use serde_json::{Map, Value};
use std::alloc::{AllocError, Global};
use switch_names::Text;

/// The greatest id. The number after it is the id that means none.
pub const ID_MAX: u32 = 4294967294;

/// The id that a value is.
fn id_of(value: &Value) -> Option<u32>
    ensures { result ≡ id_in (view value.now) }
{
    let id = value.as_u64()?;
    if id <= u64::from(ID_MAX) {
        Some(id as u32)
    } else {
        None
    }
}

/// The members of an object.
fn members_of_value(value: Value) -> Result<Map<String, Value>, IdFault>
    ensures ok { IfOk result (λ members. as_object (view value) ≡ Some (members_view members.entries)) }
    ensures form { IsErrOf result IdFault.Form → as_object (view value) ≡ None }
{
    if let Value::Object(members) = value {
        Ok(members)
    } else {
        Err(IdFault::Form)
    }
}

/// The members of the object that bytes are.
fn members_of_bytes(alloc: Global, bytes: &[u8]) -> Result<Map<String, Value>, IdFault>
    ensures ok { IfOk result (λ members. members_in bytes.now ≡ Some (members_view members.entries)) }
    ensures form { IsErrOf result IdFault.Form → members_in bytes.now ≡ None }
{
    match Value::from_slice(alloc, bytes) {
        Ok(value) => members_of_value(value),
        Err(fault) => {
            if fault.is_memory() {
                Err(IdFault::Memory)
            } else {
                Err(IdFault::Form)
            }
        }
    }
}

/// The rows that members are.
fn rows_of_members(alloc: Global, members: Map<String, Value>) -> Result<Vec<IdRow>, IdFault>
    ensures ok { IfOk result (λ rows. rows_in (members_view members.entries) ≡ Some rows.items) }
    ensures form { IsErrOf result IdFault.Form → rows_in (members_view members.entries) ≡ None }
    ensures sorted { IfOk result (λ rows. IsSortedList rows.items) }
{
    let mut rows = Vec::with_capacity(alloc, members.len())?;
    for (name, value) in members {
        let Some(id) = id_of(&value) else {
            return Err(IdFault::Form);
        };
        rows.push(IdRow {
            name: Text::from_string(name),
            id,
        })?;
    }
    Ok(rows)
}

/// The rows of a JSON object of ids.
pub fn rows_of_bytes(alloc: Global, bytes: &[u8]) -> Result<Vec<IdRow>, IdFault>
    ensures ok { IfOk result (λ rows. rows_read bytes.now ≡ Some rows.items) }
    ensures form { IsErrOf result IdFault.Form → rows_read bytes.now ≡ None }
    ensures sorted { IfOk result (λ rows. IsSortedList rows.items) }
{
    rows_of_members(alloc, members_of_bytes(alloc, bytes)?)
}

/// The members that rows in order are.
fn members_of_rows(alloc: Global, rows: &[IdRow]) -> Result<Map<String, Value>, AllocError>
    requires { IsStrictlySortedBy bytes_cmp (names_of rows.now) }
    ensures { IfOk result (λ members. members_view members.entries ≡ members_of rows.now) }
{
    let mut members = Map::new(alloc);
    for row in rows {
        let name = String::from_str(alloc, row.name.as_str())?;
        members.insert(name, Value::from(row.id))?;
    }
    Ok(members)
}

/// The text of rows in order: a JSON object, and a line feed.
pub fn text_of_rows(alloc: Global, rows: &[IdRow]) -> Result<String, AllocError>
    requires { IsSortedList rows.now }
    ensures text { IfOk result (λ text. string_bytes text ≡ rows_text rows.now) }
    ensures reads_back { IfOk result (λ text. rows_read (string_bytes text) ≡ Some rows.now) }
{
    let object = Value::Object(members_of_rows(alloc, rows)?);
    let mut text = object.to_string(alloc)?;
    text.push('\n')?;
    Ok(text)
}
