//! Plans what is done to the accounts and to `/etc`.
ghost use Rattle.std.specs.Prelude.{◌≡◌, None, Some, IfOk, IsErrOf, OnOk};
ghost use Rattle.host_trait.specs.declared.tree.HostFault.TheVariants.{Device};
ghost use Rattle.host_trait.specs.Host.{Told};
ghost use Rattle.host_trait.specs.Reading.{IsReadingOf};
ghost use Rattle.switch_parts.specs.declared.plan_fault.PlanFault.TheVariants.{Host, Refused};
ghost use Rattle.switch_parts.specs.declared.refusal.Refusal.{Refusal};
ghost use Rattle.tree_put.specs.Found.{AreFound};
ghost use Rattle.activation_stage.specs.ActivationPart.{IsActivationPlanOf, activation_in};
ghost use Rattle.activation_stage.specs.Owners.{owners_in};

use crate::activation_plan::ActivationPlan;
use account_text::Tables;
use accounts_stage::plan_accounts;
use etc_farm::plan_etc;
use etc_manifest::Owners;
use host_trait::Tree;
use std::alloc::{AllocError, Global};
use std::collections::BTreeMap;
use switch_names::{Path, SystemName};
use switch_parts::PlanFault;
use tree_put::Found;

/// The owners that tables have.
fn owners_of(alloc: Global, tables: &Tables) -> Result<Owners, AllocError>
    ensures { IfOk result (λ owners. owners ≡ owners_in tables.now) }
{
    Owners::of(alloc, tables)
}

/// Plans the accounts of a system and its etc, and changes nothing.
///
/// The refusals are sought in this order: those of the accounts, and those of the entries below etc,
/// whose owners are those of the tables that the plan leaves. What was found at a place that it reads is taken out of the
/// notes, and isn't read again.
/// Source: NixOS manual, "What happens during a system switch?".
pub fn plan_activation<T: Tree>(
    alloc: Global,
    host: &mut T,
    findings: &mut BTreeMap<Path, Found>,
    system: &SystemName,
) -> Result<ActivationPlan, PlanFault>
    requires found { Told (T.host host.old) (λ w. AreFound w.leaves findings.old) }
    ensures plan { IfOk result (λ plan. Told (T.host host.old) (λ w. IsActivationPlanOf system.now w.leaves plan)) }
    ensures not_refused { OnOk result (Told (T.host host.old) (λ w. (activation_in system.now w.leaves).refusal w.leaves ≡ None)) }
    ensures refused { (why : Refusal) → IsErrOf result (Refused why) → Told (T.host host.old) (λ w. (activation_in system.now w.leaves).refusal w.leaves ≡ Some why) }
    ensures others { OnOk result (Told (T.host host.old) (λ w. AreFound w.leaves findings.new)) }
    ensures reads { IsReadingOf (T.host host.old) (T.host host.new) (IsErrOf result (Host Device)) }
{
    let accounts = plan_accounts(alloc, host, findings, system)?;
    let owners = owners_of(alloc, accounts.tables_after())?;
    let etc = plan_etc(alloc, host, findings, system, owners)?;
    Ok(ActivationPlan { accounts, etc })
}
