//! Why a plan isn't made.
ghost use Rattle.std.specs.Prelude.{◌≡◌, None, Some, IsErrOf, OnOk};
ghost use Rattle.host_trait.specs.declared.tree.HostFault.TheVariants.{Device, Memory};
ghost use Rattle.switch_parts.specs.declared.plan_fault.PlanFault.TheVariants.{Host, Refused};
ghost use Rattle.switch_parts.specs.declared.refusal.Refusal.{Refusal};

use crate::refusal::Refusal;
use host_trait::HostFault;
use std::alloc::AllocError;
use thiserror::Error;

/// Why a plan isn't made.
#[derive(Debug, Drop, Error)]
pub enum PlanFault {
    /// The command is refused.
    #[error("the command is refused")]
    Refused(Refusal),
    /// A call on the host has failed.
    #[error("the host has failed")]
    Host(HostFault),
}

impl From<HostFault> for PlanFault {
    ghost from_gives = { λ fault given. given ≡ Host fault };

    fn from(fault: HostFault) -> PlanFault {
        PlanFault::Host(fault)
    }
}

impl From<AllocError> for PlanFault {
    ghost from_gives = { λ _ given. given ≡ Host Memory };

    fn from(_error: AllocError) -> PlanFault {
        PlanFault::Host(HostFault::Memory)
    }
}

/// Refuses for a reason, where there is one.
pub fn refuse(refusal: Option<Refusal>) -> Result<(), PlanFault>
    ensures not_refused { OnOk result (refusal ≡ None) }
    ensures refused { (why : Refusal) → IsErrOf result (Refused why) → refusal ≡ Some why }
    ensures no_host { IsErrOf result (Host Device) → ⊥ }
{
    match refusal {
        Some(why) => Err(PlanFault::Refused(why)),
        None => Ok(()),
    }
}
