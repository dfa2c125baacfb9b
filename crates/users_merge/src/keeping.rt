//! The accounts that keep other ids than those that are asked for.
ghost use Rattle.std.specs.Prelude.{◌≡◌, ◌++◌, ◌∷◌, [], map, OnOk};
ghost use Rattle.users_merge.specs.Given.{given_accounts, given_ids};
ghost use Rattle.users_merge.specs.Merge.{keeps_other, kept_of};

use crate::declaration::Declaration;
use crate::giving::Given;
use crate::kept::Kept;
use std::alloc::{AllocError, Global};
use switch_names::Listed;

/// Whether an account has another id than the one that is asked for.
fn keeps_other<D: Declaration>(account: &D, id: u32) -> bool
    ensures { result ≡ keeps_other (D.asked account.now) id }
{
    match account.wanted() {
        Some(wanted) => wanted != id,
        None => false,
    }
}

/// Adds an account, where it keeps another id than the one that is asked for.
fn add_kept_one<D: Declaration>(
    alloc: Global,
    kept: &mut Listed<Kept>,
    user: bool,
    one: &Given<'_, D>,
) -> Result<(), AllocError>
    ensures { OnOk result (kept.new ≡ kept.old ++ kept_of user (D.asked one.now.account.now ∷ []) (one.now.id ∷ [])) }
{
    if keeps_other(one.account, one.id) {
        kept.push(Kept {
            user,
            name: one.account.account_name().copy(alloc)?,
            id: one.id,
        })?;
    }
    Ok(())
}

/// Adds the accounts that keep other ids than those that are asked for.
pub fn add_kept<D: Declaration>(
    alloc: Global,
    kept: &mut Listed<Kept>,
    user: bool,
    given: &[Given<'_, D>],
) -> Result<(), AllocError>
    ensures { OnOk result (kept.new ≡ kept.old ++ kept_of user (map D.asked (given_accounts given.now)) (given_ids given.now)) }
{
    for one in given {
        add_kept_one(alloc, kept, user, one)?;
    }
    Ok(())
}
