//! Remembered ids.
ghost use Rattle.std.specs.Prelude.{◌≡◌, ◌≤◌, None, Some, IfOk, IfSome, IsErrOf, OnOk, OnErr};
ghost use Rattle.std.specs.FinMap.{empty, get, insert};
ghost use Rattle.std.specs.List.Sorted.{IsStrictlySortedBy};
ghost use Rattle.host_trait.specs.Bytes.{bytes_cmp};
ghost use Rattle.switch_names.specs.Ids.{id_max};
ghost use Rattle.id_memory.specs.Ids.{AreIds, names_of, rows_of};
ghost use Rattle.id_memory.specs.Json.{ids_read, ids_text};

use crate::id_fault::IdFault;
use crate::id_row::IdRow;
use crate::members::{rows_of_bytes, text_of_rows};
use crate::rows::{copies, id_in, put_into};
use std::alloc::{AllocError, Global};
use std::marker::Model;
use switch_names::{Bytes, Listed, Text};

/// The ids of users or of groups, by their names.
///
/// Contracts see the map from names to ids.
pub struct IdMap {
    rows: Listed<IdRow>,
}

/// One call: a derived drop is proved anew in each function that lets one go.
impl Drop for IdMap {
    fn drop(self) {
        let IdMap { rows: _ } = self;
    }
}

impl Model for IdMap {
    ghost use Rattle.host_trait.specs.Ids.{Ids, ids_code};
    ghost use Rattle.id_memory.specs.Ids.{IsSortedList, ids_of};

    ghost Value = { Ids };

    ghost coded = { ids_code };

    ghost view = { λ map. ids_of map.rows };

    ghost invariant = { λ map. IsSortedList map.rows };
}

impl IdMap {
    /// No id is remembered.
    pub fn none(alloc: Global) -> IdMap
        ensures { result ≡ empty }
    {
        IdMap {
            rows: Listed::new(alloc),
        }
    }

    /// Reads a JSON object of ids (RFC 8259): numbers in digits alone, from 0 to 4,294,967,294.
    ///
    /// Of a name that stands twice the last value counts.
    pub fn read(alloc: Global, bytes: &[u8]) -> Result<IdMap, IdFault>
        ensures ok { IfOk result (λ map. ids_read bytes.now ≡ Some map) }
        ensures form { IsErrOf result IdFault.Form → ids_read bytes.now ≡ None }
    {
        Ok(IdMap {
            rows: Listed::from_vec(rows_of_bytes(alloc, bytes)?),
        })
    }

    /// Writes the ids as a JSON object without blanks, in byte order of names, and a line feed.
    pub fn write(&self, alloc: Global) -> Result<Bytes, AllocError>
        ensures text { IfOk result (λ bytes. bytes ≡ ids_text self.now) }
        ensures reads_back { IfOk result (λ bytes. ids_read bytes ≡ Some self.now) }
    {
        let text = text_of_rows(alloc, self.rows.as_slice())?;
        Ok(Bytes::from_vec(text.into_bytes()))
    }

    /// The id that is remembered for a name.
    pub fn get(&self, name: &str) -> Option<u32>
        ensures id { result ≡ get self.now name.now }
        ensures bounded { IfSome result (λ id. id ≤ id_max) }
    {
        id_in(&self.rows, name)
    }

    /// Remembers an id for a name, in place of the one that it had.
    ///
    /// A name after all others in byte order goes to the end; any other moves those after it.
    pub fn set(&mut self, name: Text, id: u32) -> Result<(), AllocError>
        requires { id ≤ id_max }
        ensures ok { OnOk result (self.new ≡ insert self.old name id) }
        ensures err { OnErr result (self.new ≡ self.old) }
    {
        put_into(&mut self.rows, name, id)
    }

    /// The names and their ids, in byte order of names.
    pub fn rows(&self) -> &Listed<IdRow>
        ensures rows { result.now ≡ rows_of self.now }
        ensures sorted { IsStrictlySortedBy bytes_cmp (names_of result.now) }
        ensures are_ids { AreIds self.now }
    {
        &self.rows
    }

    /// Equal ids.
    pub fn copy(&self, alloc: Global) -> Result<IdMap, AllocError>
        ensures { IfOk result (λ copied. copied ≡ self.now) }
    {
        Ok(IdMap {
            rows: Listed::from_vec(copies(alloc, self.rows.as_slice())?),
        })
    }
}
