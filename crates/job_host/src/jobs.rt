//! A tree beside a service manager that queues jobs.
ghost use Rattle.std.specs.Prelude.{◌≡◌, [], false, IfOk, OnOk};
ghost use Rattle.host_trait.specs.declared.entry.Act.TheVariants.{Reload};
ghost use Rattle.host_trait.specs.declared.unit_state.State.TheVariants.{Active};
ghost use Rattle.host_trait.specs.Change.{finished, IsMoment, Perform, DaemonReload};
ghost use Rattle.host_trait.specs.Host.{Told, Becomes, Passes, HasCause};
ghost use Rattle.host_trait.specs.Reading.{IsReading};
ghost use Rattle.host_trait.specs.States.{state_of};
ghost use Rattle.host_trait.specs.Waiting.{StaysWithin};
ghost use Rattle.job_host.specs.Jobs.{AddsAtMost, IsSubmitMoment};
ghost use Rattle.switch_names.specs.Names.{has};

use host_trait::{Act, HostFault, States, Tree};
use std::alloc::Global;
use switch_names::{Text, UnitName};

/// A device with a queue of jobs on distinct units, which end in any order during its calls.
///
/// The world that it tells is the one in which each job has ended (`Settled`), so the end of a job changes nothing of
/// it, and a cut leaves the queue as it is. Source: systemctl(1), "--no-block".
pub trait Jobs: Tree {
    /// Queues an act on a unit of which no job waits, and enters it in the journal.
    fn submit(&mut self, alloc: Global, act: Act, unit: &UnitName) -> Result<(), HostFault>
        requires free { has (Self.waiting self.old) unit.now ≡ false }
        requires active { act ≡ Reload → Told (Self.host self.old) (λ w. state_of w.manager.states unit.now ≡ Active) }
        ensures ok { OnOk result (Becomes (Self.host self.old) (Self.host self.new) (finished (Perform act unit.now))) }
        ensures moments { Passes (Self.host self.old) (Self.host self.new) (IsSubmitMoment act unit.now) }
        ensures waits { AddsAtMost unit.now (Self.waiting self.old) (Self.waiting self.new) }
        ensures cause { HasCause (Self.host self.old) (Self.host self.new) result };

    /// Waits for the end of each job.
    fn settle(&mut self, alloc: Global) -> Result<(), HostFault>
        ensures none { OnOk result (Self.waiting self.new ≡ []) }
        ensures clock { (Self.host self.new).clock ≡ (Self.host self.old).clock }
        ensures waits { StaysWithin (Self.waiting self.old) (Self.waiting self.new) }
        ensures reads { IsReading (Self.host self.old) (Self.host self.new) result };

    /// Where the definitions lie that the manager has loaded, which no job changes.
    fn loaded_now(&mut self, alloc: Global) -> Result<Text, HostFault>
        ensures loaded { IfOk result (λ text. Told (Self.host self.old) (λ w. text ≡ w.manager.loaded)) }
        ensures waits { StaysWithin (Self.waiting self.old) (Self.waiting self.new) }
        ensures reads { IsReading (Self.host self.old) (Self.host self.new) result };

    /// The units that aren't inactive, with their states. No job may wait.
    fn units_now(&mut self, alloc: Global) -> Result<States, HostFault>
        requires { Self.waiting self.old ≡ [] }
        ensures states { IfOk result (λ states. Told (Self.host self.old) (λ w. states ≡ w.manager.states)) }
        ensures waits { StaysWithin (Self.waiting self.old) (Self.waiting self.new) }
        ensures reads { IsReading (Self.host self.old) (Self.host self.new) result };

    /// Loads the definitions to which the link at `etc/static` leads. No job may wait.
    fn reread(&mut self, alloc: Global) -> Result<(), HostFault>
        requires { Self.waiting self.old ≡ [] }
        ensures ok { OnOk result (Becomes (Self.host self.old) (Self.host self.new) (finished DaemonReload)) }
        ensures moments { Passes (Self.host self.old) (Self.host self.new) (IsMoment DaemonReload) }
        ensures waits { StaysWithin (Self.waiting self.old) (Self.waiting self.new) }
        ensures cause { HasCause (Self.host self.old) (Self.host self.new) result };
}
