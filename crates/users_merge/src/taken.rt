//! The ids that can't be given any more.
ghost use Rattle.std.specs.Prelude.{◌≡◌, ◌++◌, ◌∷◌, [], List, ℕ, length, map, find, IfOk, OnOk};
ghost use Rattle.std.specs.List.{filter_map};
ghost use Rattle.host_trait.specs.Ids.{Ids};
ghost use Rattle.id_memory.specs.Ids.{AreIds, rows_of};
ghost use Rattle.users_merge.specs.Account.{has_id, span, used_ids};
ghost use Rattle.users_merge.specs.Taken.{AreTaken, is_open, wanted_ids};

use crate::declaration::Declaration;
use crate::named::Numbered;
use id_memory::{IdMap, free_id};
use std::alloc::{AllocError, Global};
use std::collections::BTreeSet;

/// One past the greatest id that is given to an account for which none is asked.
const SPAN_END: usize = 30000;

/// The ids that are used, and of those that may be given the used and the remembered ones.
pub struct Taken {
    used: BTreeSet<u32>,
    marked: Vec<bool>,
}

/// One call: a derived drop is proved anew in each function that lets one go.
impl Drop for Taken {
    fn drop(self) {
        let Taken { used: _, marked: _ } = self;
    }
}

impl Taken {
    /// No id is taken.
    fn none(alloc: Global) -> Result<Taken, AllocError>
        ensures { IfOk result (AreTaken [] []) }
    {
        Ok(Taken {
            used: BTreeSet::new(alloc),
            marked: vec![in alloc; false; SPAN_END]?,
        })
    }

    /// Marks an id, where it may be given.
    fn mark(&mut self, id: u32)
        ensures { (used known : List ℕ) → AreTaken used known self.old → AreTaken used (known ++ id ∷ []) self.new }
    {
        let at = id as usize;
        if at < self.marked.len() {
            self.marked[at] = true;
        }
    }

    /// Uses an id.
    pub fn take(&mut self, id: u32) -> Result<(), AllocError>
        ensures { OnOk result ((used known : List ℕ) → AreTaken used known self.old → AreTaken (used ++ id ∷ []) known self.new) }
    {
        self.mark(id);
        self.used.insert(id)?;
        Ok(())
    }

    /// Uses the ids of rows.
    fn take_rows<R: Numbered>(&mut self, rows: &[R]) -> Result<(), AllocError>
        ensures { OnOk result ((used known : List ℕ) → AreTaken used known self.old → AreTaken (used ++ map R.id_of rows.now) known self.new) }
    {
        for row in rows {
            self.take(row.id())?;
        }
        Ok(())
    }

    /// Uses the id that is asked for an account, where one is.
    fn take_wanted<D: Declaration>(&mut self, account: &D) -> Result<(), AllocError>
        ensures { OnOk result ((used known : List ℕ) → AreTaken used known self.old → AreTaken (used ++ wanted_ids (D.asked account.now ∷ [])) known self.new) }
    {
        match account.wanted() {
            Some(id) => self.take(id),
            None => Ok(()),
        }
    }

    /// Uses the ids that are asked for.
    fn take_all_wanted<D: Declaration>(&mut self, accounts: &[D]) -> Result<(), AllocError>
        ensures { OnOk result ((used known : List ℕ) → AreTaken used known self.old → AreTaken (used ++ wanted_ids (map D.asked accounts.now)) known self.new) }
    {
        for account in accounts {
            self.take_wanted(account)?;
        }
        Ok(())
    }

    /// Marks the ids that are remembered.
    fn mark_known(&mut self, known: &IdMap)
        ensures are_ids { AreIds known.now }
        ensures marked { (used marked : List ℕ) → AreTaken used marked self.old → AreTaken used (marked ++ map (λ row. row.id) (rows_of known.now)) self.new }
    {
        for row in known.rows().as_slice() {
            self.mark(row.id);
        }
    }

    /// The ids of a table's rows, those that are asked for accounts, and those that are remembered.
    pub fn of<R: Numbered, D: Declaration>(
        alloc: Global,
        table: &[R],
        accounts: &[D],
        known: &IdMap,
    ) -> Result<Taken, AllocError>
        ensures are_ids { OnOk result (AreIds known.now) }
        ensures taken { IfOk result (AreTaken (used_ids (map R.id_of table.now) (map D.asked accounts.now)) (map (λ row. row.id) (rows_of known.now))) }
    {
        let mut taken = Taken::none(alloc)?;
        taken.take_rows(table)?;
        taken.take_all_wanted(accounts)?;
        taken.mark_known(known);
        Ok(taken)
    }

    /// Whether an id is used.
    pub fn is_used(&self, id: u32) -> bool
        ensures { (used known : List ℕ) → AreTaken used known self.now → result ≡ has_id used id }
    {
        self.used.contains(&id)
    }

    /// The first id of a range that is neither used nor remembered.
    ///
    /// Source: login.defs(5), "SYS_UID_MAX" and "UID_MIN".
    pub fn free(&self, is_system: bool) -> Option<u32>
        requires { length self.now.marked.items ≡ 30000 }
        ensures { (used known : List ℕ) → AreTaken used known self.now → result ≡ find (is_open used known) (span is_system) }
    {
        if is_system {
            free_id(self.marked.as_slice(), 999, 400)
        } else {
            free_id(self.marked.as_slice(), 1000, 29999)
        }
    }
}
