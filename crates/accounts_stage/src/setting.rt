//! Sets the accounts that are planned.
ghost use Rattle.std.specs.Prelude.{◌≡◌, ◌++◌, None, OnOk};
ghost use Rattle.host_trait.specs.Host.{Comes, HasCause, Leads, Passes, Told};
ghost use Rattle.switch_parts.specs.Part.{final_leaf};
ghost use Rattle.switch_parts.specs.Quiet.{IsQuiet};
ghost use Rattle.tree_put.specs.Sequence.{IsPutting, WritesOthers, with_puts};
ghost use Rattle.tree_put.specs.WrittenPlace.{in_the_way};
ghost use Rattle.accounts_stage.specs.AccountsPart.{accounts_part};
ghost use Rattle.accounts_stage.specs.OnTheWay.{names_first};
ghost use Rattle.accounts_stage.specs.Places.{account_places};
ghost use Rattle.accounts_stage.specs.Plan.{AreAccountsSet, CanSetAccounts, IsSettingAccounts};
ghost use Rattle.accounts_stage.specs.Puts.{AreAtAccounts, answer_puts};

use crate::accounts_plan::AccountsPlan;
use crate::puts::{first_puts, last_puts};
use host_trait::{HostFault, Tree};
use std::alloc::Global;
use switch_names::SystemName;
use switch_parts::put_kept;
use tree_put::{LeafPut, put_all};
use users_merge::Merged;

/// Puts files of accounts, and has them kept beyond a loss of power before the last ones are put.
fn put_accounts<T: Tree>(
    alloc: Global,
    host: &mut T,
    first: &[LeafPut],
    last: &[LeafPut],
) -> Result<(), HostFault>
    requires places { AreAtAccounts first.now × AreAtAccounts last.now }
    requires way { Told (T.host host.old) (λ w. in_the_way account_places w.leaves ≡ None) }
    ensures ok { OnOk result (Comes (T.host host.old) (T.host host.new) (with_puts (first.now ++ last.now))) }
    ensures written { OnOk result (Leads (T.host host.old) (T.host host.new) (WritesOthers (first.now ++ last.now))) }
    ensures moments { Passes (T.host host.old) (T.host host.new) (IsPutting (first.now ++ last.now)) }
    ensures cause { HasCause (T.host host.old) (T.host host.new) result }
{
    put_kept(alloc, host, first)?;
    put_all(alloc, host, last)
}

/// Puts the nine files of a merge, in this order: the names that were ever declared, the ids, the
/// tables, and the names that are declared now.
///
/// A leaf that stands already is left alone. All memory but that of host calls is taken before the
/// first change. At each moment the world is, but for the stage, the one after the first so many of
/// the nine puts. The tables, and what is put before them, are kept beyond a loss of power before the
/// names that are declared now are put, so that whoever is dropped counts as declared while its row
/// stands.
///
/// Source: nixpkgs, update-users-groups.pl.
pub fn apply<T: Tree>(alloc: Global, host: &mut T, merged: &Merged) -> Result<(), HostFault>
    requires { Told (T.host host.old) (λ w. in_the_way account_places w.leaves ≡ None) }
    ensures ok { OnOk result (Comes (T.host host.old) (T.host host.new) (with_puts (answer_puts merged.now))) }
    ensures written { OnOk result (Leads (T.host host.old) (T.host host.new) (WritesOthers (answer_puts merged.now))) }
    ensures moments { Passes (T.host host.old) (T.host host.new) (IsPutting (answer_puts merged.now)) }
    ensures cause { HasCause (T.host host.old) (T.host host.new) result }
{
    let first = first_puts(alloc, merged)?;
    let last = last_puts(alloc, merged)?;
    put_accounts(alloc, host, first.as_slice(), last.as_slice())
}

/// Sets the accounts that are planned, where the system declares any. All memory but that of host calls was taken in the plan.
///
/// At each moment the world is, but for the stage, the one after the first so many of the puts of
/// the merge, and a moment is enough to plan the same again. Each file is written at most once, a list
/// of declared names at most twice, and none where what is put stands.
///
/// Source: nixpkgs, update-users-groups.pl.
pub fn set_accounts<T: Tree>(
    alloc: Global,
    host: &mut T,
    system: &SystemName,
    plan: &AccountsPlan,
) -> Result<(), HostFault>
    requires { Told (T.host host.old) (CanSetAccounts system.now plan.now) }
    ensures ok { OnOk result (Leads (T.host host.old) (T.host host.new) (AreAccountsSet system.now)) }
    ensures quiet { OnOk result (Leads (T.host host.old) (T.host host.new) (IsQuiet (names_first system.now) (final_leaf (accounts_part system.now)))) }
    ensures moments { Passes (T.host host.old) (T.host host.new) (IsSettingAccounts system.now) }
    ensures cause { HasCause (T.host host.old) (T.host host.new) result }
{
    match &plan.merged {
        Some(_merged) => put_accounts(alloc, host, plan.first.as_slice(), plan.last.as_slice()),
        None => Ok(()),
    }
}
