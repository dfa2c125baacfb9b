//! Puts the farm of a system as planned.
ghost use Rattle.std.specs.Prelude.{OnOk};
ghost use Rattle.host_trait.specs.Host.{HasCause, Leads, Passes, Told};
ghost use Rattle.switch_parts.specs.Part.{IsAtEnd, IsPartMoment, final_leaf};
ghost use Rattle.switch_parts.specs.Quiet.{IsQuiet};
ghost use Rattle.etc_farm.specs.EtcPart.{CanPutEtc, etc_part};
ghost use Rattle.etc_farm.specs.Making.{IsMakingEtc};
ghost use Rattle.etc_farm.specs.Written.{clean_first};

use crate::etc_plan::EtcPlan;
use crate::farm::apply_prepared;
use host_trait::{HostFault, Tree};
use std::alloc::Global;
use switch_names::SystemName;

/// Makes `/etc` what a system wants, as planned.
///
/// A cut leaves `/etc` in the making: planned again, it has the same end. The memory for what is put and removed beside the
/// entries was taken in the plan.
/// Source: setup-etc.pl of nixpkgs.
pub fn put_etc<T: Tree>(
    alloc: Global,
    host: &mut T,
    system: &SystemName,
    plan: &EtcPlan,
) -> Result<(), HostFault>
    requires { Told (T.host host.old) (CanPutEtc system.now plan.now) }
    ensures ok { OnOk result (Leads (T.host host.old) (T.host host.new) (IsAtEnd (etc_part system.now plan.now.owners))) }
    ensures quiet { OnOk result (Leads (T.host host.old) (T.host host.new) (IsQuiet (clean_first system.now plan.now.owners) (final_leaf (etc_part system.now plan.now.owners)))) }
    ensures steps { Passes (T.host host.old) (T.host host.new) (IsMakingEtc system.now plan.now.owners) }
    ensures moments { Passes (T.host host.old) (T.host host.new) (IsPartMoment (etc_part system.now plan.now.owners)) }
    ensures cause { HasCause (T.host host.old) (T.host host.new) result }
{
    // The moments hold of a path of the store alone.
    let _path = system.path();
    apply_prepared(
        alloc,
        host,
        system,
        &plan.manifest,
        &plan.sorted,
        &plan.prepared,
    )
}
