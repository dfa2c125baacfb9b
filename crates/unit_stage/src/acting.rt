//! Makes calls on units.
ghost use Rattle.std.specs.Prelude.{◌≡◌, OnOk};
ghost use Rattle.host_trait.specs.declared.entry.Act.TheVariants.{Reload};
ghost use Rattle.host_trait.specs.declared.unit_state.State.TheVariants.{Active};
ghost use Rattle.host_trait.specs.Change.{Perform, finished, IsMoment};
ghost use Rattle.host_trait.specs.Host.{Told, Becomes, Passes, HasCause};
ghost use Rattle.host_trait.specs.States.{state_of};
ghost use Rattle.unit_stage.specs.Acts.{CanPerform, IsPerforming, with_calls};

use host_trait::{Act, HostFault, Manager};
use owed_plan::Duty;
use std::alloc::Global;

/// Makes a call on a unit.
fn call_unit<H: Manager>(alloc: Global, host: &mut H, call: &Duty) -> Result<(), HostFault>
    requires { Told (H.host host.old) (λ w. call.now.act ≡ Reload → state_of w.manager.states call.now.unit ≡ Active) }
    ensures ok { OnOk result (Becomes (H.host host.old) (H.host host.new) (finished (Perform call.now.act call.now.unit))) }
    ensures moments { Passes (H.host host.old) (H.host host.new) (IsMoment (Perform call.now.act call.now.unit)) }
    ensures cause { HasCause (H.host host.old) (H.host host.new) result }
{
    match call.act {
        Act::Stop => host.stop(alloc, &call.unit),
        Act::Reload => host.reload(alloc, &call.unit),
        Act::Restart => host.restart(alloc, &call.unit),
        Act::Start => host.start(alloc, &call.unit),
    }
}

/// Makes calls on units, in their order.
///
/// A cut leaves some of them made, and may leave a restart half way through.
/// Source: systemctl(1), "Unit Commands".
pub fn call_units<H: Manager>(alloc: Global, host: &mut H, calls: &[Duty]) -> Result<(), HostFault>
    requires { Told (H.host host.old) (λ w. CanPerform calls.now w.manager) }
    ensures ok { OnOk result (Becomes (H.host host.old) (H.host host.new) (with_calls calls.now)) }
    ensures moments { Passes (H.host host.old) (H.host host.new) (IsPerforming calls.now) }
    ensures cause { HasCause (H.host host.old) (H.host host.new) result }
{
    for call in calls {
        call_unit(alloc, host, call)?;
    }
    Ok(())
}
