//! Plans what is done to the accounts.
ghost use Rattle.std.specs.Prelude.{◌≡◌, None, Ok, Some, IfOk, IsErrOf, OnOk, option_and_then, option_map};
ghost use Rattle.host_trait.specs.declared.tree.HostFault.TheVariants.{Device};
ghost use Rattle.host_trait.specs.Host.{Told};
ghost use Rattle.host_trait.specs.Reading.{IsReadingOf};
ghost use Rattle.host_trait.specs.World.{Leaves};
ghost use Rattle.switch_parts.specs.declared.plan_fault.PlanFault.TheVariants.{Host, Refused};
ghost use Rattle.switch_parts.specs.declared.refusal.Refusal.{Refusal};
ghost use Rattle.tree_put.specs.Found.{AreFound};
ghost use Rattle.users_merge.specs.Merge.{fault};
ghost use Rattle.accounts_stage.specs.All.{AreSoundTables, stored_with};
ghost use Rattle.accounts_stage.specs.AccountsPart.{accounts_refusal};
ghost use Rattle.accounts_stage.specs.Answer.{Answers, IsMergedBy, merge_fault};
ghost use Rattle.accounts_stage.specs.Judging.{later_refusal, plan_past};
ghost use Rattle.accounts_stage.specs.Plan.{ArePlanned, IsAccountsPlanOf};
ghost use Rattle.accounts_stage.specs.Refusals.{merge_refusal};
ghost use Rattle.accounts_stage.specs.Standing.{memory_in, tables_in};

use crate::accounts_plan::AccountsPlan;
use crate::judging::{Judged, judge, read_account_texts};
use crate::memory::MemoryTexts;
use crate::puts::{first_puts, last_puts};
use crate::rows::tables_past;
use crate::stored::{Stored, with_texts};
use account_text::Tables;
use host_trait::{HostFault, Tree};
use std::alloc::Global;
use std::collections::BTreeMap;
use switch_names::{Listed, Path, SystemName};
use switch_parts::{PlanFault, Refusal, What, refuse, too_many};
use tree_put::Found;
use users_merge::{MergeFault, Merged, merge};
use users_spec::Spec;

/// What comes of a fault of a merge.
fn merge_fault(fault: MergeFault) -> PlanFault
    ensures { result ≡ merge_fault fault }
{
    match fault {
        MergeFault::NoFreeId(name) => PlanFault::Refused(Refusal::NoFreeId(name)),
        MergeFault::UnknownGroup { user, group } => {
            PlanFault::Refused(Refusal::UnknownGroup { user, group })
        }
        MergeFault::Memory => PlanFault::Host(HostFault::Memory),
    }
}

/// Merges what is declared with what stands.
fn merge_stored(alloc: Global, spec: &Spec, stored: &Stored) -> Result<Merged, PlanFault>
    requires { AreSoundTables stored.now.tables }
    ensures merged { Answers (option_and_then merge_refusal (fault spec.now (stored_with stored.now))) (IsMergedBy spec.now (stored_with stored.now)) result }
    ensures cause { IsErrOf result (Host Device) → ⊥ }
{
    match merge(
        alloc,
        spec,
        &stored.tables,
        &stored.remembered,
        &stored.declared,
    ) {
        Ok(merged) => Ok(merged),
        Err(fault) => Err(merge_fault(fault)),
    }
}

/// Plans accounts that are declared so: what stands is merged with them.
fn plan_merge(
    alloc: Global,
    spec: &Spec,
    tables: Tables,
    memory: &MemoryTexts,
) -> Result<AccountsPlan, PlanFault>
    requires { AreSoundTables tables }
    ensures plan { (leaves : Leaves) → tables ≡ tables_in leaves → memory.now ≡ memory_in leaves
        → Answers (later_refusal leaves (Some spec.now)) (ArePlanned leaves (Some (Ok spec.now))) result }
    ensures cause { IsErrOf result (Host Device) → ⊥ }
{
    let stored = with_texts(alloc, tables, memory)?;
    let merged = merge_stored(alloc, spec, &stored)?;
    let first = first_puts(alloc, &merged)?;
    let last = last_puts(alloc, &merged)?;
    Ok(AccountsPlan {
        tables: stored.into_tables(),
        merged: Some(merged),
        first,
        last,
    })
}

/// Plans accounts of what was judged. Where none are declared the tables stay as they stand.
fn plan_judged(
    alloc: Global,
    judged: Judged,
    memory: &MemoryTexts,
) -> Result<AccountsPlan, PlanFault>
    requires { AreSoundTables judged.tables }
    ensures plan { (leaves : Leaves) → judged.tables ≡ tables_in leaves → memory.now ≡ memory_in leaves
        → Answers (later_refusal leaves judged.spec) (ArePlanned leaves (option_map Ok judged.spec)) result }
    ensures cause { IsErrOf result (Host Device) → ⊥ }
{
    let (spec, tables) = judged.into_parts();
    match &spec {
        Some(spec) => plan_merge(alloc, spec, tables, memory),
        None => Ok(AccountsPlan {
            tables,
            merged: None,
            first: Listed::new(alloc),
            last: Listed::new(alloc),
        }),
    }
}

/// How many rows the first table has that a plan leaves with too many.
fn plan_past(plan: &AccountsPlan) -> Option<u64>
    ensures { result ≡ plan_past plan.now }
{
    match &plan.merged {
        Some(merged) => tables_past(&merged.tables),
        None => None,
    }
}

/// Plans the accounts of a system, and changes nothing.
///
/// It reads the specification, the tables, the names that were declared and the maps of ids, each once, before it judges
/// anything: what was found at one of these places is taken out of the notes, and isn't read again. The refusals are
/// sought in this order: a table with more than `ROWS_MAX` lines that aren't empty, those of the specification, of the
/// tables, of the maps, and of the merge, more than `ROWS_MAX` merged groups or users, and a content of more than
/// `LEAF_MAX` bytes among all that was read, the first in byte order. That a file would be put so long is for
/// `AccountsPlan::long` to say.
///
/// Source: nixpkgs, update-users-groups.pl; NixOS manual, "User Management".
pub fn plan_accounts<T: Tree>(
    alloc: Global,
    host: &mut T,
    findings: &mut BTreeMap<Path, Found>,
    system: &SystemName,
) -> Result<AccountsPlan, PlanFault>
    requires found { Told (T.host host.old) (λ w. AreFound w.leaves findings.old) }
    ensures plan { IfOk result (λ plan. Told (T.host host.old) (λ w. IsAccountsPlanOf system.now w.leaves plan)) }
    ensures not_refused { OnOk result (Told (T.host host.old) (λ w. accounts_refusal system.now w.leaves ≡ None)) }
    ensures refused { (why : Refusal) → IsErrOf result (Refused why) → Told (T.host host.old) (λ w. accounts_refusal system.now w.leaves ≡ Some why) }
    ensures others { OnOk result (Told (T.host host.old) (λ w. AreFound w.leaves findings.new)) }
    ensures reads { IsReadingOf (T.host host.old) (T.host host.new) (IsErrOf result (Host Device)) }
{
    let texts = read_account_texts(alloc, host, findings, system)?;
    let judged = judge(alloc, &texts)?;
    let plan = plan_judged(alloc, judged, &texts.memory)?;
    let many = too_many(What::Rows, plan_past(&plan));
    refuse(many.or(too_many(What::LeafBytes, texts.long())))?;
    Ok(plan)
}
