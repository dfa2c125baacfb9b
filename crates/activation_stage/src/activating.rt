//! Sets the accounts and makes `/etc`.
ghost use Rattle.std.specs.Prelude.{OnOk};
ghost use Rattle.host_trait.specs.Host.{HasCause, Leads, Passes, Told};
ghost use Rattle.activation_stage.specs.ActivationPart.{CanActivate, IsActivated, IsActivating};
ghost use Rattle.activation_stage.specs.Quiet.{ActivatesQuietly};

use crate::activation_plan::ActivationPlan;
use accounts_stage::set_accounts;
use etc_farm::put_etc;
use host_trait::{HostFault, Tree};
use std::alloc::Global;
use switch_names::SystemName;

/// Sets the accounts of a system as planned, and then makes `/etc` what it wants.
///
/// A cut leaves the accounts after some of their puts, or all of them and `/etc` after some of its
/// steps. What stands isn't written: each place is written at most once for each leaf that it gets.
/// Source: NixOS manual, "What happens during a system switch?".
pub fn activate<T: Tree>(
    alloc: Global,
    host: &mut T,
    system: &SystemName,
    plan: &ActivationPlan,
) -> Result<(), HostFault>
    requires { Told (T.host host.old) (CanActivate system.now plan.now) }
    ensures ok { OnOk result (Leads (T.host host.old) (T.host host.new) (IsActivated system.now)) }
    ensures quiet { OnOk result (Leads (T.host host.old) (T.host host.new) (ActivatesQuietly system.now)) }
    ensures moments { Passes (T.host host.old) (T.host host.new) (IsActivating system.now) }
    ensures cause { HasCause (T.host host.old) (T.host host.new) result }
{
    // The laws of the parts hold of a path of the store alone.
    let _path = system.path();
    set_accounts(alloc, host, system, &plan.accounts)?;
    put_etc(alloc, host, system, &plan.etc)?;
    Ok(())
}
