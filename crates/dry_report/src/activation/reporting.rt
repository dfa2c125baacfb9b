//! What is told of an activation.
ghost use Rattle.std.specs.Prelude.{◌≡◌, ◌++◌, ℕ, List, OnOk};
ghost use Rattle.host_trait.specs.World.{Leaves};
ghost use Rattle.switch_names.specs.Names.{Name};
ghost use Rattle.accounts_stage.specs.Plan.{IsAccountsPlanOf};
ghost use Rattle.activation_stage.specs.ActivationPart.{IsActivationPlanOf};
ghost use Rattle.dry_report.specs.Activation.{IsActivationReport, account_lines};
ghost use Rattle.dry_report.specs.Lines.{etc_lines};

use super::accounts::{write_all_kept, write_tables};
use super::lines::write_paths;
use accounts_stage::AccountsPlan;
use activation_stage::ActivationPlan;
use etc_clean::Sorted;
use std::alloc::{AllocError, Global};

/// Writes the lines of the accounts: those that keep other ids, and what the tables drop and add.
fn write_accounts(alloc: Global, out: &mut Vec<u8>, plan: &AccountsPlan) -> Result<(), AllocError>
    ensures { OnOk result ((system : Name) (leaves : Leaves) → IsAccountsPlanOf system leaves plan.now → out.new.items ≡ out.old.items ++ account_lines system leaves) }
{
    if let Some(merged) = &plan.merged {
        write_all_kept(alloc, out, merged.kept.as_slice())?;
        write_tables(alloc, out, &plan.tables, &merged.tables)?;
    }
    Ok(())
}

/// Writes the lines of what is gone from `/etc`, and of the entries that are blocked there.
fn write_etc(out: &mut Vec<u8>, sorted: &Sorted) -> Result<(), AllocError>
    ensures { OnOk result (out.new.items ≡ out.old.items ++ etc_lines sorted.now) }
{
    write_paths(out, "remove etc/", sorted.gone.as_slice())?;
    write_paths(out, "skip etc/", sorted.blocked.as_slice())
}

/// Writes what is told of a planned activation: the accounts that keep other ids than those that are
/// asked for, the groups and the users that are dropped and added, what is gone from `/etc`, and the
/// entries that are blocked there, a line each.
///
/// Source: update-users-groups.pl and setup-etc.pl of nixpkgs.
pub(crate) fn write_activation(
    alloc: Global,
    out: &mut Vec<u8>,
    plan: &ActivationPlan,
) -> Result<(), AllocError>
    ensures { OnOk result ((system : Name) (leaves : Leaves) → IsActivationPlanOf system leaves plan.now → (text : List ℕ) × (out.new.items ≡ out.old.items ++ text) × IsActivationReport system leaves text) }
{
    write_accounts(alloc, out, &plan.accounts)?;
    write_etc(out, &plan.etc.sorted)
}
