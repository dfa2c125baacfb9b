//! Carries a planned command out.
ghost use Rattle.std.specs.Prelude.{◌≡◌, ◌↔◌, IfOk, IsSome, IsTrue, None, OnOk, false};
ghost use Rattle.std.specs.FinMap.{empty};
ghost use Rattle.generations.specs.Goal.{goal_leaf, goal_place};
ghost use Rattle.host_trait.specs.World.{WorldState, seen, with_leaf};
ghost use Rattle.host_trait.specs.Host.{Told, Leads, Comes, Passes, HasCause};
ghost use Rattle.owed_log.specs.Writing.{IsFilled};
ghost use Rattle.switch_engine.specs.Carried.{CanRecordBy, CanMakeBy, CanSwitch, CanSwitchBy, IsPrepared, IsPreparing, IsSwitchMomentBy, IsSwitchedBy, cleared_by, moves_of};
ghost use Rattle.switch_engine.specs.Commands.{IsBoot, IsQuery};
ghost use Rattle.switch_engine.specs.Final.{HasFailed, IsEndOf, LeavesFailed};
ghost use Rattle.switch_engine.specs.Moments.{IsClearStep, IsMomentOf, IsRecordStep, IsDefaultStep, IsSwitchMoment, IsSwitched, record_world, default_world};
ghost use Rattle.switch_engine.specs.Plan.{IsPlanOf, IsSound, units_of};
ghost use Rattle.switch_engine.specs.Quiet.{IsQuietCommand, IsQuietSwitch, is_not_quiet};
ghost use Rattle.tree_put.specs.Put.{CanPut, IsOldOrNew};
ghost use Rattle.tree_put.specs.Written.{WritesOnly};
ghost use Rattle.unit_stage.specs.System.{system_leaf};

use crate::outcome::{Outcome, has_failed};
use crate::plan::Plan;
use activation_stage::{ActivationPlan, activate};
use boot_entries::make_boot_default;
use generations::{Move, clear_goal, record_goal, system_link};
use host_trait::{HostFault, Leaf, Manager, Tree};
use std::alloc::Global;
use switch_names::SystemName;
use unit_stage::{UnitPlan, bring_units, calls_of, stop_units};

/// Records the goal of a rollback, and has it kept beyond a loss of power.
fn record_kept<T: Tree>(alloc: Global, host: &mut T, number: u32) -> Result<(), HostFault>
    requires { Told (T.host host.old) (CanPut goal_place) }
    ensures ok { OnOk result (Comes (T.host host.old) (T.host host.new) (with_leaf goal_place (goal_leaf number))) }
    ensures written { OnOk result (Leads (T.host host.old) (T.host host.new) (WritesOnly is_not_quiet)) }
    ensures moments { Passes (T.host host.old) (T.host host.new) (IsOldOrNew goal_place (goal_leaf number)) }
    ensures cause { HasCause (T.host host.old) (T.host host.new) result }
{
    record_goal(alloc, host, number)?;
    host.sync(alloc)?;
    Ok(())
}

/// Records the goal of a rollback where the profile goes back to a generation.
fn record_back<T: Tree>(alloc: Global, host: &mut T, plan: &Plan) -> Result<(), HostFault>
    requires { Told (T.host host.old) (CanRecordBy (moves_of plan.now.boot_default)) }
    ensures ok { OnOk result (Leads (T.host host.old) (T.host host.new) (λ w r. seen r ≡ record_world (moves_of plan.now.boot_default) w)) }
    ensures written { OnOk result (Leads (T.host host.old) (T.host host.new) (WritesOnly is_not_quiet)) }
    ensures moments { Passes (T.host host.old) (T.host host.new) (IsRecordStep (moves_of plan.now.boot_default)) }
    ensures cause { HasCause (T.host host.old) (T.host host.new) result }
{
    let Some(boot_default) = &plan.boot_default else {
        return Ok(());
    };
    match boot_default.to {
        Move::Set => Ok(()),
        Move::Point(number) => record_kept(alloc, host, number),
    }
}

/// Makes a system the boot default, where that is planned: moves the profile, and makes the boot menu.
fn make_default<T: Tree>(alloc: Global, host: &mut T, plan: &Plan) -> Result<(), HostFault>
    requires can { Told (T.host host.old) (CanMakeBy plan.now.row.system plan.now.boot_default) }
    requires sound { IsSound plan.now }
    ensures ok { OnOk result (Leads (T.host host.old) (T.host host.new) (λ w u. seen u ≡ default_world (moves_of plan.now.boot_default) plan.now.row.system w)) }
    ensures written { OnOk result (Leads (T.host host.old) (T.host host.new) (WritesOnly is_not_quiet)) }
    ensures moments { Passes (T.host host.old) (T.host host.new) (IsDefaultStep (moves_of plan.now.boot_default) plan.now.row.system) }
    ensures cause { HasCause (T.host host.old) (T.host host.new) result }
{
    match &plan.boot_default {
        Some(boot_default) => make_boot_default(alloc, host, plan.to(), boot_default),
        None => Ok(()),
    }
}

/// Takes all steps of a planned switch of the units, in their order.
fn switch_units<H: Manager>(
    alloc: Global,
    host: &mut H,
    system: &SystemName,
    plan: &UnitPlan,
    activation: &ActivationPlan,
    current: &Leaf,
) -> Result<(), HostFault>
    requires can { Told (H.host host.old) (CanSwitch system.now plan.now activation.now) }
    requires filled { IsFilled plan.now.write }
    requires current { current.now ≡ system_leaf system.now }
    ensures ok { OnOk result (Leads (H.host host.old) (H.host host.new) (IsSwitched system.now plan.now.owed plan.now.ordered.units)) }
    ensures quiet { OnOk result (Leads (H.host host.old) (H.host host.new) (IsQuietSwitch system.now)) }
    ensures moments { Passes (H.host host.old) (H.host host.new) (IsSwitchMoment system.now plan.now.owed plan.now.ordered.units) }
    ensures cause { HasCause (H.host host.old) (H.host host.new) result }
{
    let calls = calls_of(plan);
    stop_units(alloc, host, plan.write(), calls.stops)?;
    activate(alloc, host, system, activation)?;
    bring_units(alloc, host, system, current, calls)?;
    Ok(())
}

/// Carries a planned switch of the units out, and says how it ended.
fn carry_switch<H: Manager>(
    alloc: Global,
    host: &mut H,
    system: &SystemName,
    plan: &UnitPlan,
    activation: &ActivationPlan,
    current: &Leaf,
) -> Result<Outcome, HostFault>
    requires can { Told (H.host host.old) (CanSwitch system.now plan.now activation.now) }
    requires filled { IsFilled plan.now.write }
    requires current { current.now ≡ system_leaf system.now }
    ensures ok { OnOk result (Leads (H.host host.old) (H.host host.new) (IsSwitched system.now plan.now.owed plan.now.ordered.units)) }
    ensures quiet { OnOk result (Leads (H.host host.old) (H.host host.new) (IsQuietSwitch system.now)) }
    ensures states { IfOk result (λ outcome. Told (H.host host.new) (λ v. outcome.states ≡ v.manager.states)) }
    ensures failed { IfOk result (λ outcome. IsTrue outcome.failed ↔ HasFailed plan.now.defs outcome.states) }
    ensures moments { Passes (H.host host.old) (H.host host.new) (IsSwitchMoment system.now plan.now.owed plan.now.ordered.units) }
    ensures cause { HasCause (H.host host.old) (H.host host.new) result }
{
    switch_units(alloc, host, system, plan, activation, current)?;
    let states = host.units(alloc)?;
    let failed = has_failed(plan.defs(), &states);
    Ok(Outcome { states, failed })
}

/// Carries a planned switch of the units out, where one is planned. Else no state is told.
fn carry_units<H: Manager>(
    alloc: Global,
    host: &mut H,
    plan: &Plan,
    current: &Leaf,
) -> Result<Outcome, HostFault>
    requires can { Told (H.host host.old) (CanSwitchBy plan.now.row.system plan.now.switch) }
    requires sound { IsSound plan.now }
    requires current { current.now ≡ system_leaf plan.now.row.system }
    ensures ok { OnOk result (Leads (H.host host.old) (H.host host.new) (IsSwitchedBy plan.now.row.system plan.now.switch)) }
    ensures quiet { OnOk result (IsSome plan.now.switch → Leads (H.host host.old) (H.host host.new) (IsQuietSwitch plan.now.row.system)) }
    ensures states { IfOk result (λ outcome. IsSome plan.now.switch → Told (H.host host.new) (λ v. outcome.states ≡ v.manager.states)) }
    ensures failed { IfOk result (λ outcome. IsTrue outcome.failed ↔ HasFailed (units_of plan.now).defs outcome.states) }
    ensures none { IfOk result (λ outcome. plan.now.switch ≡ None → outcome ≡ record { states = empty; failed = false }) }
    ensures moments { Passes (H.host host.old) (H.host host.new) (IsSwitchMomentBy plan.now.row.system plan.now.switch) }
    ensures cause { HasCause (H.host host.old) (H.host host.new) result }
{
    match &plan.switch {
        Some(switch) => carry_switch(
            alloc,
            host,
            plan.to(),
            &switch.units,
            &switch.activation,
            current,
        ),
        None => Ok(Outcome::none(alloc)),
    }
}

/// Removes the goal of a rollback, where the profile is moved. All that was done before is kept beyond a loss of
/// power first.
fn clear_back<T: Tree>(alloc: Global, host: &mut T, plan: &Plan) -> Result<(), HostFault>
    ensures ok { OnOk result (Leads (T.host host.old) (T.host host.new) (λ w v. v ≡ cleared_by (moves_of plan.now.boot_default) w)) }
    ensures written { OnOk result (Leads (T.host host.old) (T.host host.new) (WritesOnly is_not_quiet)) }
    ensures moments { Passes (T.host host.old) (T.host host.new) (IsClearStep (moves_of plan.now.boot_default)) }
    ensures cause { HasCause (T.host host.old) (T.host host.new) result }
{
    let Some(_boot_default) = &plan.boot_default else {
        return Ok(());
    };
    host.sync(alloc)?;
    clear_goal(alloc, host)
}

/// Removes the goal of a rollback, where the profile is moved, and has what was done kept beyond a loss of power.
fn finish<T: Tree>(alloc: Global, host: &mut T, plan: &Plan) -> Result<(), HostFault>
    ensures ok { OnOk result (Leads (T.host host.old) (T.host host.new) (λ w v. v ≡ cleared_by (moves_of plan.now.boot_default) w)) }
    ensures written { OnOk result (Leads (T.host host.old) (T.host host.new) (WritesOnly is_not_quiet)) }
    ensures moments { Passes (T.host host.old) (T.host host.new) (IsClearStep (moves_of plan.now.boot_default)) }
    ensures cause { HasCause (T.host host.old) (T.host host.new) result }
{
    clear_back(alloc, host, plan)?;
    host.sync(alloc)?;
    Ok(())
}

/// Records the goal of a rollback, and then makes its system the boot default, where that is planned.
fn prepare<T: Tree>(alloc: Global, host: &mut T, plan: &Plan) -> Result<(), HostFault>
    requires record { Told (T.host host.old) (CanRecordBy (moves_of plan.now.boot_default)) }
    requires can { Told (T.host host.old) (λ w. (r : WorldState) → seen r ≡ record_world (moves_of plan.now.boot_default) w → CanMakeBy plan.now.row.system plan.now.boot_default r) }
    requires sound { IsSound plan.now }
    ensures ok { OnOk result (Leads (T.host host.old) (T.host host.new) (IsPrepared (moves_of plan.now.boot_default) plan.now.row.system)) }
    ensures written { OnOk result (Leads (T.host host.old) (T.host host.new) (WritesOnly is_not_quiet)) }
    ensures moments { Passes (T.host host.old) (T.host host.new) (IsPreparing (moves_of plan.now.boot_default) plan.now.row.system) }
    ensures cause { HasCause (T.host host.old) (T.host host.new) result }
{
    record_back(alloc, host, plan)?;
    make_default(alloc, host, plan)?;
    Ok(())
}

/// Carries a planned command out.
///
/// A rollback records its goal first. A set of the profile makes the generation where it is new, and then points
/// the profile to it, as a rollback does to one that stands; both then make the boot menu: it puts the entries of
/// the generations that name systems, then what the boot loader reads first, and removes the entries of
/// generations that don't stand. A switch of the units records what it owes, stops units, sets the accounts, makes
/// `/etc`, puts the link to the new system, loads its definitions, and reloads, restarts and starts units. Each
/// list is cleared after the last of its calls. A command that does both moves the profile and makes the boot menu
/// first. One that moves the profile removes the goal of a rollback last. What each leaves is kept beyond a loss of
/// power before it answers `Ok`.
/// Source: NixOS manual, "What happens during a system switch?"; Boot Loader Specification, "Type #1 Boot
/// Loader Specification Entries".
pub fn carry_out<H: Manager>(alloc: Global, host: &mut H, plan: &Plan) -> Result<Outcome, HostFault>
    requires planned { Told (H.host host.old) (λ w. IsPlanOf w plan.now) }
    requires sound { IsSound plan.now }
    requires changes { IsQuery plan.now.command → ⊥ }
    ensures ok { OnOk result (Leads (H.host host.old) (H.host host.new) (IsEndOf plan.now.command)) }
    ensures quiet { OnOk result (Leads (H.host host.old) (H.host host.new) (IsQuietCommand plan.now.command)) }
    ensures states { IfOk result (λ outcome. (IsBoot plan.now.command → ⊥) → Told (H.host host.new) (λ v. outcome.states ≡ v.manager.states)) }
    ensures failed { IfOk result (λ outcome. IsTrue outcome.failed ↔ HasFailed (units_of plan.now).defs outcome.states) }
    ensures verdict { IfOk result (λ outcome. Told (H.host host.old) (λ w. IsTrue outcome.failed ↔ LeavesFailed plan.now.command w)) }
    ensures moments { Passes (H.host host.old) (H.host host.new) (IsMomentOf plan.now.command) }
    ensures cause { HasCause (H.host host.old) (H.host host.new) result }
{
    let current = system_link(alloc, plan.to())?;
    prepare(alloc, host, plan)?;
    let outcome = carry_units(alloc, host, plan, &current)?;
    finish(alloc, host, plan)?;
    Ok(outcome)
}
