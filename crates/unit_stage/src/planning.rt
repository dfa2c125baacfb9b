//! Plans what a switch does to the units.
ghost use Rattle.std.specs.Prelude.{◌≡◌, ◌↔◌, None, Some, IfOk, IsErrOf, IsTrue, OnOk};
ghost use Rattle.std.specs.List.Sorted.{IsStrictlySortedBy};
ghost use Rattle.host_trait.specs.declared.tree.HostFault.TheVariants.{Device};
ghost use Rattle.host_trait.specs.Bytes.{bytes_cmp};
ghost use Rattle.host_trait.specs.Reading.{IsReadingOf};
ghost use Rattle.host_trait.specs.Host.{Told};
ghost use Rattle.host_trait.specs.States.{state_of};
ghost use Rattle.owed_log.specs.Writing.{IsFilled};
ghost use Rattle.owed_plan.specs.Owed.{IsPlan};
ghost use Rattle.owed_plan.specs.Pull.{Pulled};
ghost use Rattle.owed_plan.specs.Systems.{systems_in};
ghost use Rattle.switch_parts.specs.declared.plan_fault.PlanFault.TheVariants.{Host, Refused};
ghost use Rattle.switch_parts.specs.declared.refusal.Refusal.{Refusal};
ghost use Rattle.unit_defs.specs.Defs.{found_in};
ghost use Rattle.unit_stage.specs.Known.{AreOwedCalls, IsPlanBy};
ghost use Rattle.unit_stage.specs.Order.{AreInOrder};
ghost use Rattle.switch_names.specs.Names.{IsListOf};
ghost use Rattle.tree_put.specs.Found.{AreFound};
ghost use Rattle.unit_stage.specs.Owes.{IsSteadyWorld};
ghost use Rattle.unit_stage.specs.Plan.{IsUnitPlanOf};
ghost use Rattle.unit_stage.specs.System.{unit_refusal};

use crate::known::{Known, read_known};
use crate::room::have_room;
use crate::unit_plan::UnitPlan;
use host_trait::Manager;
use owed_plan::{Duty, Owed, calls, is_steady, order_edges, plan, pull, roots};
use start_order::{Ordered, order};
use std::alloc::{AllocError, Global};
use std::collections::BTreeMap;
use switch_names::{Listed, Path, SystemName, UnitName};
use switch_parts::PlanFault;
use tree_put::Found;
use unit_defs::Defs;

/// What is owed, with its starts in order and its calls, and whether the world is steady.
#[derive(Drop)]
struct OwedCalls {
    owed: Owed,
    steady: bool,
    ordered: Ordered,
    duties: Listed<Duty>,
}

/// The units that the targets pull.
fn pulled_by(alloc: Global, known: &Known) -> Result<Listed<UnitName>, AllocError>
    ensures { IfOk result (λ pulled. IsListOf pulled (Pulled (systems_in known.now.old.defs known.now.new) (state_of known.now.units.states) known.now.units.lists)) }
{
    let units = &known.units;
    let roots = roots(alloc, &known.new, &units.states, &units.lists.starts)?;
    let pulled = pull(alloc, &known.new, &roots)?;
    Ok(pulled)
}

/// What a switch owes the units, given those that the targets pull.
fn owed_by(alloc: Global, known: &Known, pulled: &Listed<UnitName>) -> Result<Owed, AllocError>
    requires { IsListOf pulled.now (Pulled (systems_in known.now.old.defs known.now.new) (state_of known.now.units.states) known.now.units.lists) }
    ensures { IfOk result (IsPlan (systems_in known.now.old.defs known.now.new) (state_of known.now.units.states) known.now.units.lists) }
{
    let units = &known.units;
    plan(
        alloc,
        &known.old.defs,
        &known.new,
        &units.states,
        &units.lists,
        pulled,
    )
}

/// The units that are started in order, by the edges that their texts put between them.
fn ordered_by(alloc: Global, new: &Defs, starts: &Listed<UnitName>) -> Result<Ordered, AllocError>
    requires { IsStrictlySortedBy bytes_cmp starts.now }
    ensures { IfOk result (AreInOrder (found_in new.now) starts.now) }
{
    let edges = order_edges(alloc, new, starts)?;
    let ordered = order(alloc, starts, &edges)?;
    Ok(ordered)
}

/// What a switch owes by what is known, with its calls.
fn owed_calls(alloc: Global, known: &Known) -> Result<OwedCalls, AllocError>
    ensures { IfOk result (AreOwedCalls known.now) }
{
    let pulled = pulled_by(alloc, known)?;
    let owed = owed_by(alloc, known, &pulled)?;
    let marks = is_steady(&known.new, &known.units.lists, &pulled);
    let room = have_room(alloc, &owed)?;
    let ordered = ordered_by(alloc, &known.new, &owed.lists.starts)?;
    let duties = calls(alloc, &owed, &ordered, &known.units.states)?;
    Ok(OwedCalls {
        owed,
        steady: marks && room,
        ordered,
        duties,
    })
}

/// The plan of these parts, with what has to be written to record what is owed.
fn plan_of(alloc: Global, known: Known, calls: OwedCalls) -> Result<UnitPlan, AllocError>
    requires { AreOwedCalls known calls }
    ensures plan { IfOk result (IsPlanBy known) }
    ensures filled { IfOk result (λ plan. IsFilled plan.write) }
{
    let Known { old, new, units } = known;
    let OwedCalls {
        owed,
        steady,
        ordered,
        duties,
    } = calls;
    let write = units.log.prepare(alloc, &owed.lists)?;
    Ok(UnitPlan::new(old.name, new, owed, write, steady, ordered, duties))
}

/// The plan of a switch by what is known.
fn plan_by(alloc: Global, known: Known) -> Result<UnitPlan, AllocError>
    ensures plan { IfOk result (IsPlanBy known) }
    ensures filled { IfOk result (λ plan. IsFilled plan.write) }
{
    let calls = owed_calls(alloc, &known)?;
    plan_of(alloc, known, calls)
}

/// Plans what a switch to a system does to the units, and changes nothing. As the machine starts up,
/// `multi-user.target` waits for a start, where the system defines it. The log and the lists of an older program aren't read
/// again where something was found at their places.
///
/// Source: NixOS manual, "What happens during a system switch?".
pub fn plan_units<H: Manager>(
    alloc: Global,
    host: &mut H,
    findings: &mut BTreeMap<Path, Found>,
    system: &SystemName,
    start_up: bool,
) -> Result<UnitPlan, PlanFault>
    requires found { Told (H.host host.old) (λ w. AreFound w.leaves findings.old) }
    ensures plan { IfOk result (λ plan. Told (H.host host.old) (λ w. IsUnitPlanOf start_up system.now w plan)) }
    ensures filled { IfOk result (λ plan. IsFilled plan.write) }
    ensures steady { IfOk result (λ plan. Told (H.host host.old) (λ w. IsTrue plan.steady ↔ IsSteadyWorld start_up system.now w)) }
    ensures not_refused { OnOk result (Told (H.host host.old) (λ w. unit_refusal w.leaves system.now ≡ None)) }
    ensures refused { (why : Refusal) → IsErrOf result (Refused why) → Told (H.host host.old) (λ w. unit_refusal w.leaves system.now ≡ Some why) }
    ensures others { OnOk result (Told (H.host host.old) (λ w. AreFound w.leaves findings.new)) }
    ensures reads { IsReadingOf (H.host host.old) (H.host host.new) (IsErrOf result (Host Device)) }
{
    let known = read_known(alloc, host, findings, system, start_up)?;
    let plan = plan_by(alloc, known)?;
    Ok(plan)
}
