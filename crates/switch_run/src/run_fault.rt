//! Why a run breaks off.
ghost use Rattle.std.specs.Prelude.{◌≡◌};
ghost use Rattle.host_trait.specs.declared.tree.HostFault.TheVariants.{Memory};
ghost use Rattle.switch_run.specs.declared.run_fault.RunFault.TheVariants.{Host, Sink};
ghost use Rattle.switch_run.specs.Run.{collect_fault_of, fault_of};

use host_trait::{HostFault, SinkFault};
use std::alloc::AllocError;
use store_collect::{CollectFault, CollectRefusal};
use switch_engine::{PlanFault, Refusal, What};
use thiserror::Error;

/// Why a run breaks off.
#[derive(Debug, Drop, Error)]
pub enum RunFault {
    /// The words give no command.
    #[error("no such command")]
    Usage,
    /// The command is refused.
    #[error("the command is refused")]
    Refused(Refusal),
    /// A call on the host has failed.
    #[error("the host has failed")]
    Host(HostFault),
    /// A put has failed.
    #[error("the output has failed")]
    Sink,
}

impl From<PlanFault> for RunFault {
    ghost from_gives = { λ fault given. given ≡ fault_of fault };

    fn from(fault: PlanFault) -> RunFault {
        match fault {
            PlanFault::Refused(why) => RunFault::Refused(why),
            PlanFault::Host(why) => RunFault::Host(why),
        }
    }
}

impl From<CollectFault> for RunFault {
    ghost from_gives = { λ fault given. given ≡ collect_fault_of fault };

    fn from(fault: CollectFault) -> RunFault {
        match fault {
            CollectFault::Refused(CollectRefusal::Unfinished) => {
                RunFault::Refused(Refusal::Unfinished)
            }
            CollectFault::Refused(CollectRefusal::LeafBytes(count)) => {
                RunFault::Refused(Refusal::TooMany {
                    what: What::LeafBytes,
                    count,
                })
            }
            CollectFault::Refused(CollectRefusal::InTheWay(at)) => {
                RunFault::Refused(Refusal::InTheWay(at))
            }
            CollectFault::Host(why) => RunFault::Host(why),
        }
    }
}

impl From<HostFault> for RunFault {
    ghost from_gives = { λ fault given. given ≡ Host fault };

    fn from(fault: HostFault) -> RunFault {
        RunFault::Host(fault)
    }
}

impl From<AllocError> for RunFault {
    ghost from_gives = { λ _ given. given ≡ Host Memory };

    fn from(_error: AllocError) -> RunFault {
        RunFault::Host(HostFault::Memory)
    }
}

impl From<SinkFault> for RunFault {
    ghost from_gives = { λ _ given. given ≡ Sink };

    fn from(_fault: SinkFault) -> RunFault {
        RunFault::Sink
    }
}
