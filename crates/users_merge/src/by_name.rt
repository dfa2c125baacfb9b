//! Rows that are found by name.
ghost use Rattle.std.specs.Prelude.{◌≡◌, IfOk, option_map};
ghost use Rattle.users_merge.specs.ByName.{Finds, found_in};

use crate::named::Named;
use std::alloc::{AllocError, Global};
use std::collections::BTreeMap;
use switch_names::Text;

/// Where rows are found by name. Of rows with one name the first is found.
pub struct ByName<'a, R> {
    rows: BTreeMap<Text, &'a R>,
}

/// One call: a derived drop is proved anew in each function that lets one go.
impl<'a, R> Drop for ByName<'a, R> {
    fn drop(self) {
        let ByName { rows: _ } = self;
    }
}

impl<'a, R: Named> ByName<'a, R> {
    /// These rows by name.
    pub fn of(alloc: Global, rows: &'a [R]) -> Result<ByName<'a, R>, AllocError>
        ensures { IfOk result (λ by_name. Finds R.name_of by_name.rows rows.now) }
    {
        let mut by_name = BTreeMap::new(alloc);
        let mut at = rows.len();
        while at > 0 {
            at -= 1;
            let row = &rows[at];
            by_name.insert(row.name().copy(alloc)?, row)?;
        }
        Ok(ByName { rows: by_name })
    }

    /// The row of a name.
    pub fn find(&self, name: &Text) -> Option<&'a R>
        ensures { option_map (λ row. row.now) result ≡ found_in self.now.rows name.now }
    {
        self.rows.get(name).copied()
    }
}
