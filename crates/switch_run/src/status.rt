//! How a run ends.
ghost use Rattle.std.specs.Prelude.{◌≡◌, IfOk};
ghost use Rattle.switch_run.specs.Run.{fault_status, status_of};
ghost use Rattle.switch_run.specs.StatusTexts.{status_number, status_text};

use crate::refusal_text::refusal_text;
use crate::run_fault::RunFault;
use host_trait::HostFault;
use std::alloc::{AllocError, Global};
use switch_engine::Refusal;
use switch_names::Text;

/// How a run ends.
#[derive(Debug, Drop)]
pub enum Status {
    /// The command was carried out.
    Done,
    /// The words give no command.
    Usage,
    /// The command is refused. Nothing was put, and nothing changed.
    Refused(Refusal),
    /// A call on the host failed.
    HostFault,
    /// The output failed.
    SinkFault,
    /// The command was carried out, and a unit that the system defines has failed.
    UnitsFailed,
    /// There was no memory.
    NoMemory,
}

/// How a run that broke off so ends.
fn fault_status(fault: RunFault) -> Status
    ensures { result ≡ fault_status fault }
{
    match fault {
        RunFault::Usage => Status::Usage,
        RunFault::Refused(why) => Status::Refused(why),
        RunFault::Host(HostFault::Memory) => Status::NoMemory,
        RunFault::Host(HostFault::Device) => Status::HostFault,
        RunFault::Sink => Status::SinkFault,
    }
}

/// How a run that ended so ends, with a unit failed or none, or broken off.
pub fn status_of(ending: Result<bool, RunFault>) -> Status
    ensures { result ≡ status_of ending }
{
    match ending {
        Ok(true) => Status::UnitsFailed,
        Ok(false) => Status::Done,
        Err(fault) => fault_status(fault),
    }
}

impl Status {
    /// The exit status.
    pub fn number(&self) -> u8
        ensures { result ≡ status_number self.now }
    {
        match self {
            Status::Done => 0,
            Status::Usage => 1,
            Status::Refused(_) => 2,
            Status::HostFault => 3,
            Status::SinkFault => 6,
            Status::UnitsFailed => 4,
            Status::NoMemory => 5,
        }
    }

    /// The line for standard error, without a line feed. It is empty for `Done`.
    pub fn text(&self, alloc: Global) -> Result<Text, AllocError>
        ensures { IfOk result (λ text. text ≡ status_text self.now) }
    {
        match self {
            Status::Done => Text::from_str(alloc, ""),
            Status::Usage => Text::from_str(
                alloc,
                "usage: nixswitch ROOT switch|test|boot|dry-activate SYSTEM | rollback | generations | rehearse NUMBER",
            ),
            Status::Refused(refusal) => {
                let why = refusal_text(alloc, refusal)?;
                let line = format!(in alloc; "refused: {}", why.as_str())?;
                Text::from_str(alloc, line.as_str())
            }
            Status::HostFault => Text::from_str(alloc, "fault: host"),
            Status::SinkFault => Text::from_str(alloc, "fault: output"),
            Status::UnitsFailed => Text::from_str(alloc, "units failed"),
            Status::NoMemory => Text::from_str(alloc, "no memory"),
        }
    }
}
