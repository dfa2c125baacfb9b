//! Gives the units what they are owed.
ghost use Rattle.std.specs.Prelude.{◌≡◌, ◌≢◌, ◌↔◌, IsTrue, OnOk};
ghost use Rattle.std.specs.List.{flat_map};
ghost use Rattle.host_trait.specs.Host.{Told, Leads, Becomes, Comes, Passes, HasCause};
ghost use Rattle.host_trait.specs.World.{IsFileAt};
ghost use Rattle.log_text.specs.declared.lists.Which.{Which};
ghost use Rattle.log_text.specs.declared.lists.Which.TheVariants.{Starts};
ghost use Rattle.owed_log.specs.Places.{is_owed_place, log_place};
ghost use Rattle.owed_plan.specs.Calls.{give_order};
ghost use Rattle.owed_log.specs.Writing.{CanWrite, IsFilled, IsRecordMoment, recorded};
ghost use Rattle.tree_put.specs.Written.{WritesOnly};
ghost use Rattle.unit_stage.specs.Acts.{CanPerform, IsPerforming, with_calls};
ghost use Rattle.unit_stage.specs.Owned.{owns_units};
ghost use Rattle.unit_stage.specs.PlanCalls.{calls_in};
ghost use Rattle.unit_stage.specs.Steps.{CanBring, HasLogFor, IsBringMoment, IsClearingMoment, IsGiveMoment, IsListMoment, IsStopMoment, with_all_given, with_brought, with_cleared, with_given, with_stops};
ghost use Rattle.unit_stage.specs.System.{system_leaf};

use crate::acting::call_units;
use crate::linking::load_system;
use crate::plan_calls::PlanCalls;
use host_trait::{HostFault, Leaf, Manager, Tree};
use log_text::Which;
use owed_log::{LogWrite, clear, record};
use owed_plan::{Duty, GIVE_ORDER};
use std::alloc::Global;
use switch_names::SystemName;

/// Records what is owed, and has that kept beyond a loss of power.
fn record_kept<T: Tree>(alloc: Global, host: &mut T, write: &LogWrite) -> Result<(), HostFault>
    requires can { Told (T.host host.old) (CanWrite write.now) }
    requires filled { IsFilled write.now }
    ensures ok { OnOk result (Comes (T.host host.old) (T.host host.new) (recorded write.now)) }
    ensures written { OnOk result (Leads (T.host host.old) (T.host host.new) (WritesOnly is_owed_place)) }
    ensures moments { Passes (T.host host.old) (T.host host.new) (IsRecordMoment write.now) }
    ensures cause { HasCause (T.host host.old) (T.host host.new) result }
{
    record(alloc, host, write)?;
    host.sync(alloc)?;
    Ok(())
}

/// Makes calls on units, and has what they leave kept beyond a loss of power.
fn call_kept<H: Manager>(alloc: Global, host: &mut H, calls: &[Duty]) -> Result<(), HostFault>
    requires { Told (H.host host.old) (λ w. CanPerform calls.now w.manager) }
    ensures ok { OnOk result (Becomes (H.host host.old) (H.host host.new) (with_calls calls.now)) }
    ensures moments { Passes (H.host host.old) (H.host host.new) (IsPerforming calls.now) }
    ensures cause { HasCause (H.host host.old) (H.host host.new) result }
{
    call_units(alloc, host, calls)?;
    host.sync(alloc)?;
    Ok(())
}

/// Records what is owed, and then stops units.
///
/// A cut leaves the log as it stood, with any part of what is appended, or written, and then some of the stops made. It is kept
/// beyond a loss of power before the first stop.
pub fn stop_units<H: Manager>(
    alloc: Global,
    host: &mut H,
    write: &LogWrite,
    stops: &[Duty],
) -> Result<(), HostFault>
    requires can { Told (H.host host.old) (CanWrite write.now) }
    requires filled { IsFilled write.now }
    requires calls { Told (H.host host.old) (λ w. CanPerform stops.now w.manager) }
    ensures ok { OnOk result (Comes (H.host host.old) (H.host host.new) (with_stops write.now stops.now)) }
    ensures written { OnOk result (Leads (H.host host.old) (H.host host.new) (WritesOnly owns_units)) }
    ensures moments { Passes (H.host host.old) (H.host host.new) (IsStopMoment write.now stops.now) }
    ensures cause { HasCause (H.host host.old) (H.host host.new) result }
{
    record_kept(alloc, host, write)?;
    call_units(alloc, host, stops)?;
    Ok(())
}

/// Makes calls on units, and then clears their list, once what the calls leave is kept beyond a loss of power.
fn call_listed<H: Manager>(
    alloc: Global,
    host: &mut H,
    which: Which,
    calls: &[Duty],
) -> Result<(), HostFault>
    requires calls { Told (H.host host.old) (λ w. CanPerform calls.now w.manager) }
    requires file { which ≢ Starts → Told (H.host host.old) (λ w. IsFileAt w.leaves log_place) }
    ensures ok { OnOk result (Becomes (H.host host.old) (H.host host.new) (with_cleared which calls.now)) }
    ensures moments { Passes (H.host host.old) (H.host host.new) (IsClearingMoment which calls.now) }
    ensures cause { HasCause (H.host host.old) (H.host host.new) result }
{
    call_kept(alloc, host, calls)?;
    clear(alloc, host, which)?;
    Ok(())
}

/// Whether the log goes with a list, as it does with that of the starts.
fn takes_log(which: Which) -> bool
    ensures { IsTrue result ↔ (which ≡ Starts) }
{
    matches!(which, Which::Starts)
}

/// Makes the calls of a list, and clears it; the log goes with the starts. Where another list has no calls, no name was recorded, and nothing is done.
fn give<H: Manager>(
    alloc: Global,
    host: &mut H,
    calls: PlanCalls<'_>,
    which: Which,
) -> Result<(), HostFault>
    requires calls { Told (H.host host.old) (λ w. CanPerform (calls_in calls which) w.manager) }
    requires log { Told (H.host host.old) (λ w. HasLogFor which (calls_in calls which) w.leaves) }
    ensures ok { OnOk result (Becomes (H.host host.old) (H.host host.new) (with_given which (calls_in calls.entry which))) }
    ensures moments { Passes (H.host host.old) (H.host host.new) (IsListMoment which (calls_in calls.entry which)) }
    ensures cause { HasCause (H.host host.old) (H.host host.new) result }
{
    let listed = calls.of(which);
    if !takes_log(which) && listed.is_empty() {
        return Ok(());
    }
    call_listed(alloc, host, which, listed)
}

/// Makes the calls of each list, in the order of the lists, and clears each list after the last of its calls.
fn give_all<H: Manager>(alloc: Global, host: &mut H, calls: PlanCalls<'_>) -> Result<(), HostFault>
    requires calls { Told (H.host host.old) (λ w. CanPerform (flat_map (calls_in calls) give_order) w.manager) }
    requires log { Told (H.host host.old) (λ w. (which : Which) → HasLogFor which (calls_in calls which) w.leaves) }
    ensures ok { OnOk result (Becomes (H.host host.old) (H.host host.new) (with_all_given (calls_in calls.entry) give_order)) }
    ensures moments { Passes (H.host host.old) (H.host host.new) (IsGiveMoment (calls_in calls.entry) give_order) }
    ensures cause { HasCause (H.host host.old) (H.host host.new) result }
{
    for which in GIVE_ORDER {
        give(alloc, host, calls, which)?;
    }
    Ok(())
}

/// Brings a system into use, loads its definitions, and reloads, restarts and starts units. Each list
/// is cleared after the last of its calls: the reloads and the restarts by a block without names, the starts with the log.
///
/// Source: NixOS manual, "What happens during a system switch?".
pub fn bring_units<H: Manager>(
    alloc: Global,
    host: &mut H,
    system: &SystemName,
    current: &Leaf,
    calls: PlanCalls<'_>,
) -> Result<(), HostFault>
    requires can { Told (H.host host.old) (CanBring system.now (calls_in calls)) }
    requires current { current.now ≡ system_leaf system.now }
    ensures ok { OnOk result (Comes (H.host host.old) (H.host host.new) (with_brought system.now (calls_in calls.entry))) }
    ensures written { OnOk result (Leads (H.host host.old) (H.host host.new) (WritesOnly owns_units)) }
    ensures moments { Passes (H.host host.old) (H.host host.new) (IsBringMoment system.now (calls_in calls.entry)) }
    ensures cause { HasCause (H.host host.old) (H.host host.new) result }
{
    load_system(alloc, host, system, current)?;
    give_all(alloc, host, calls)?;
    Ok(())
}
