//! Of rows with one name the first.
ghost use Rattle.std.specs.Prelude.{◌≡◌, [], Some, IfOk, OnOk, map};
ghost use Rattle.account_text.specs.Table.{are_distinct, firsts};
ghost use Rattle.account_text.specs.Reading.{with_row, AreNamesOf};

use crate::table::Row;
use std::alloc::{AllocError, Global};
use std::collections::BTreeSet;
use switch_names::Text;

/// Whether no two rows have one name.
fn have_own_names<R: Row>(alloc: Global, rows: &[R]) -> Result<bool, AllocError>
    ensures { IfOk result (λ own. own ≡ are_distinct (map R.name_of rows.now)) }
{
    let mut sorted = Vec::with_capacity(alloc, rows.len())?;
    for row in rows {
        sorted.push(row)?;
    }
    sorted.sort_unstable_by(|row, other| row.name().cmp(other.name()));
    Ok(sorted.is_sorted_by(|row, next| row.name() < next.name()))
}

/// Rows, and the names that they have.
struct Firsts<R> {
    rows: Vec<R>,
    names: BTreeSet<Text>,
}

/// One call: a derived drop is proved anew in each function that lets one go.
impl<R: Drop> Drop for Firsts<R> {
    fn drop(self) {
        let Firsts { rows: _, names: _ } = self;
    }
}

impl<R: Row> Firsts<R> {
    /// No rows.
    fn new(alloc: Global) -> Firsts<R>
        ensures rows { result.rows.items ≡ [] }
        ensures names { AreNamesOf R.name_of result.rows.items result.names.keys }
    {
        Firsts {
            rows: Vec::new(alloc),
            names: BTreeSet::new(alloc),
        }
    }

    /// Adds a row, unless there is one of its name.
    fn add(&mut self, alloc: Global, row: R) -> Result<(), AllocError>
        requires { AreNamesOf R.name_of self.old.rows.items self.old.names.keys }
        ensures rows { OnOk result (self.new.rows.items ≡ with_row R.name_of self.old.rows.items (Some row)) }
        ensures names { OnOk result (AreNamesOf R.name_of self.new.rows.items self.new.names.keys) }
    {
        if self.names.insert(row.name().copy(alloc)?)? {
            self.rows.push(row)?;
        }
        Ok(())
    }

    /// The rows, without a copy.
    fn into_rows(self) -> Vec<R>
        ensures { result.items ≡ self.rows.items }
    {
        let Firsts { rows, names: _ } = self;
        rows
    }
}

/// Of rows with one name the first. No name is copied where each row has its own.
pub fn first_rows<R: Row>(alloc: Global, all: Vec<R>) -> Result<Vec<R>, AllocError>
    ensures { IfOk result (λ kept. kept.items ≡ firsts R.name_of all.items) }
{
    if have_own_names(alloc, all.as_slice())? {
        return Ok(all);
    }
    let mut kept = Firsts::new(alloc);
    for row in all {
        kept.add(alloc, row)?;
    }
    Ok(kept.into_rows())
}
