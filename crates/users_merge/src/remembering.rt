//! The ids that are remembered after a merge.
ghost use Rattle.std.specs.Prelude.{◌≡◌, map, IfOk, OnOk};
ghost use Rattle.std.specs.BTreeMap as tree;
ghost use Rattle.std.specs.FinMap.{get};
ghost use Rattle.std.specs.List.{AllByRecursion};
ghost use Rattle.std.specs.Map.{values_of};
ghost use Rattle.std.specs.Option.{option_or};
ghost use Rattle.host_trait.specs.Bytes.{bytes_cmp};
ghost use Rattle.switch_names.specs.Names.{Name};
ghost use Rattle.users_merge.specs.Account.{id_of};
ghost use Rattle.users_merge.specs.ByName.{row_ids};
ghost use Rattle.users_merge.specs.Given.{IsId, given_accounts, given_ids};

use crate::declaration::Declaration;
use crate::giving::Given;
use crate::named::{Named, Numbered};
use id_memory::IdMap;
use std::alloc::{AllocError, Global};
use std::collections::BTreeMap;
use switch_names::Text;

/// Ids by name.
type Ids = BTreeMap<Text, u32>;

/// Gives names the ids of rows, in place of those that they had. Of rows with one name the first
/// counts.
fn insert_ids<R: Named + Numbered>(
    alloc: Global,
    ids: &mut Ids,
    rows: &[R],
) -> Result<(), AllocError>
    requires bounded { AllByRecursion IsId (map R.id_of rows.now) }
    requires were_bounded { AllByRecursion IsId (values_of ids.old.entries) }
    ensures ids { OnOk result ((name : Name) → tree.get bytes_cmp ids.new name ≡ option_or (row_ids R.name_of R.id_of rows.now name) (tree.get bytes_cmp ids.old name)) }
    ensures bounded { OnOk result (AllByRecursion IsId (values_of ids.new.entries)) }
{
    let mut at = rows.len();
    while at > 0 {
        at -= 1;
        let row = &rows[at];
        ids.insert(row.name().copy(alloc)?, row.id())?;
    }
    Ok(())
}

/// The ids of a map, which come in the order of their names, so that each goes to the end.
fn id_map(alloc: Global, ids: Ids) -> Result<IdMap, AllocError>
    requires { AllByRecursion IsId (values_of ids.entries) }
    ensures { IfOk result (λ made. (name : Name) → get made name ≡ tree.get bytes_cmp ids name) }
{
    let mut made = IdMap::none(alloc);
    for (name, id) in ids {
        made.set(name, id)?;
    }
    Ok(made)
}

/// The remembered ids, with those of the declared accounts in place of theirs.
///
/// Ids are never forgotten, so that an account that comes back gets the id that it had.
///
/// Source: nixpkgs, update-users-groups.pl.
pub fn with_ids<D: Declaration>(
    alloc: Global,
    known: &IdMap,
    given: &[Given<'_, D>],
) -> Result<IdMap, AllocError>
    requires { AllByRecursion IsId (given_ids given.now) }
    ensures { IfOk result (λ ids. (name : Name) → get ids name ≡ option_or (id_of (map D.asked (given_accounts given.now)) (given_ids given.now) name) (get known.now name)) }
{
    let mut ids = BTreeMap::new(alloc);
    insert_ids(alloc, &mut ids, known.rows().as_slice())?;
    insert_ids(alloc, &mut ids, given)?;
    id_map(alloc, ids)
}
