//! Gives ids to declared accounts.
ghost use Rattle.std.specs.Prelude.{◌≡◌, List, ℕ, map, take, length, option_map, IfOk, IfSome};
ghost use Rattle.std.specs.FinMap.{get};
ghost use Rattle.id_memory.specs.Ids.{rows_of};
ghost use Rattle.users_merge.specs.Account.{choose, give, unused, used_ids};
ghost use Rattle.users_merge.specs.ByName.{found_in, row_ids};
ghost use Rattle.std.specs.List.{AllByRecursion};
ghost use Rattle.switch_names.specs.Names.{Name};
ghost use Rattle.users_merge.specs.Given.{IsId, given_accounts, given_ids};
ghost use Rattle.users_merge.specs.Taken.{AreTaken};

use crate::by_name::ByName;
use crate::declaration::Declaration;
use crate::named::{Named, Numbered};
use crate::taken::Taken;
use id_memory::IdMap;
use std::alloc::{AllocError, Global};
use switch_names::Text;

/// A declared account and the id that it gets.
pub struct Given<'a, D> {
    pub account: &'a D,
    pub id: u32,
}

/// One call: a derived drop is proved anew in each function that lets one go.
impl<'a, D> Drop for Given<'a, D> {
    fn drop(self) {
        let Given { account: _, id: _ } = self;
    }
}

impl<D: Declaration> Named for Given<'_, D> {
    ghost name_of = { λ one. (D.asked one.account.now).name };

    fn name(&self) -> &Text {
        self.account.account_name()
    }
}

impl<D: Declaration> Numbered for Given<'_, D> {
    ghost id_of = { λ one. one.id };

    fn id(&self) -> u32 {
        self.id
    }
}

/// The id that is remembered for a name, where it isn't used.
fn unused(known: &IdMap, taken: &Taken, name: &Text) -> Option<u32>
    ensures { (used marked : List ℕ) → AreTaken used marked taken.now → result ≡ unused used (get known.now name.now) }
{
    let id = known.get(name.as_str())?;
    if taken.is_used(id) { None } else { Some(id) }
}

/// The id that an account gets.
fn choose<R: Named + Numbered, D: Declaration>(
    rows: &ByName<'_, R>,
    known: &IdMap,
    taken: &Taken,
    account: &D,
) -> Option<u32>
    requires { length taken.now.marked.items ≡ 30000 }
    ensures { (used : List ℕ) → AreTaken used (map (λ row. row.id) (rows_of known.now)) taken.now
        → result ≡ choose (λ name. option_map R.id_of (found_in rows.now.rows name)) known.now used (D.asked account.now) }
{
    let name = account.account_name();
    if let Some(row) = rows.find(name) {
        return Some(row.id());
    }
    if let Some(id) = account.wanted() {
        return Some(id);
    }
    if let Some(id) = unused(known, taken, name) {
        return Some(id);
    }
    taken.free(account.is_system())
}

/// Gives each account its id, up to the first that gets none.
fn give_each<'a, R: Named + Numbered, D: Declaration>(
    alloc: Global,
    rows: &ByName<'_, R>,
    known: &IdMap,
    taken: &mut Taken,
    accounts: &'a [D],
) -> Result<Vec<Given<'a, D>>, AllocError>
    requires { (used : List ℕ) × AreTaken used (map (λ row. row.id) (rows_of known.now)) taken.old }
    ensures ids { (used : List ℕ) → AreTaken used (map (λ row. row.id) (rows_of known.now)) taken.old
        → IfOk result (λ given. given_ids given.items ≡ give (λ name. option_map R.id_of (found_in rows.now.rows name)) known.now used (map D.asked accounts.now)) }
    ensures accounts { IfOk result (λ given. given_accounts given.items ≡ take (length given.items) accounts.now) }
{
    let mut given = Vec::with_capacity(alloc, accounts.len())?;
    for account in accounts {
        let Some(id) = choose(rows, known, taken, account) else {
            return Ok(given);
        };
        taken.take(id)?;
        given.push(Given { account, id })?;
    }
    Ok(given)
}

/// The ids of declared accounts, in the order of declaration, up to the first that gets none.
///
/// An account keeps the id of its row. Else it gets the one that is asked for, else the one that is
/// remembered for its name, where that isn't used, and else a free one.
///
/// Source: nixpkgs, update-users-groups.pl.
pub fn give<'a, R: Named + Numbered, D: Declaration>(
    alloc: Global,
    table: &[R],
    known: &IdMap,
    accounts: &'a [D],
) -> Result<Vec<Given<'a, D>>, AllocError>
    ensures ids { IfOk result (λ given. given_ids given.items ≡ give (row_ids R.name_of R.id_of table.now) known.now
        (used_ids (map R.id_of table.now) (map D.asked accounts.now)) (map D.asked accounts.now)) }
    ensures accounts { IfOk result (λ given. given_accounts given.items ≡ take (length given.items) accounts.now) }
    ensures bounded { ((name : Name) → IfSome (row_ids R.name_of R.id_of table.now name) IsId) → AllByRecursion (λ account. IfSome account.wanted IsId) (map D.asked accounts.now)
        → IfOk result (λ given. AllByRecursion IsId (given_ids given.items)) }
{
    let rows = ByName::of(alloc, table)?;
    let mut taken = Taken::of(alloc, table, accounts, known)?;
    give_each(alloc, &rows, known, &mut taken, accounts)
}
