//! One run of a command, without a report.
ghost use Rattle.std.specs.Prelude.{◌↔◌, IfOk, IsTrue};
ghost use Rattle.host_trait.specs.Host.{HasCause, Leads, Passes};
ghost use Rattle.rehearse.specs.Ends.{HasEnded, IsHeld, IsRepeatable};

use crate::summary::End;
use host_trait::{HostFault, Manager};
use std::alloc::Global;
use switch_engine::{Command, PlanFault, carry_out, plan_all};

/// Whether a run of a command goes on where another was cut: it changes something, and never takes the profile back. A
/// rollback that is cut once its goal is removed goes back one generation further when it is made again.
pub fn is_repeatable(command: &Command) -> bool
    ensures { IsTrue result ↔ IsRepeatable command.now }
{
    match command {
        Command::Switch(_) | Command::Test(_) | Command::Boot(_) | Command::StartUp => true,
        // it has no end to come to
        Command::DryActivate(_) => false,
        // once its goal is removed, it would go back one generation further
        Command::Rollback => false,
    }
}

/// Plans a command and carries it out.
pub(crate) fn attempt<H: Manager>(
    alloc: Global,
    host: &mut H,
    command: &Command,
) -> Result<End, HostFault>
    requires repeatable { IsRepeatable command.now }
    ensures ended { IfOk result (λ how. Leads (H.host host.old) (H.host host.new) (HasEnded command.now how)) }
    ensures moments { Passes (H.host host.old) (H.host host.new) (IsHeld command.now) }
    ensures cause { HasCause (H.host host.old) (H.host host.new) result }
{
    let plan = match plan_all(alloc, host, command) {
        Ok(plan) => plan,
        Err(PlanFault::Refused(why)) => return Ok(End::Refused(why)),
        Err(PlanFault::Host(fault)) => return Err(fault),
    };
    let outcome = carry_out(alloc, host, &plan)?;
    if outcome.failed {
        return Ok(End::UnitsFailed);
    }
    Ok(End::Done)
}
