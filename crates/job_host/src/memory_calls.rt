//! The calls on a device in memory: each begins with a turn of its schedule.
use crate::jobs::Jobs;
use crate::memory_jobs::MemoryJobs;
use crate::queued_job::QueuedJob;
use host_trait::{Act, HostFault, Leaf, Manager, States, Tree};
use std::alloc::Global;
use switch_names::{Listed, Path, Text, UnitName};

impl Tree for MemoryJobs {
    ghost use Rattle.job_host.specs.MemoryJobs.{host_of, waiting_of};
    ghost use Rattle.job_host.specs.MemoryLaws.{jobs_are_host};

    ghost host = { host_of };

    ghost waiting = { waiting_of };

    fn read(&mut self, alloc: Global, at: &Path) -> Result<Option<Leaf>, HostFault> {
        self.turn(alloc)?;
        self.host.read(alloc, at)
    }

    fn list(&mut self, alloc: Global, under: &Path) -> Result<Listed<Path>, HostFault> {
        self.turn(alloc)?;
        self.host.list(alloc, under)
    }

    fn tops(&mut self, alloc: Global) -> Result<Listed<Path>, HostFault> {
        self.turn(alloc)?;
        self.host.tops(alloc)
    }

    /// A world in memory outlasts no loss of power, so this does nothing, and takes no number of the schedule.
    fn sync(&mut self, alloc: Global) -> Result<(), HostFault> {
        self.host.sync(alloc)
    }

    fn write_stage(&mut self, alloc: Global, leaf: &Leaf) -> Result<(), HostFault> {
        self.turn(alloc)?;
        self.host.write_stage(alloc, leaf)
    }

    fn rename_stage(&mut self, alloc: Global, to: &Path) -> Result<(), HostFault> {
        self.turn(alloc)?;
        self.host.rename_stage(alloc, to)
    }

    fn remove(&mut self, alloc: Global, at: &Path) -> Result<(), HostFault> {
        self.turn(alloc)?;
        self.host.remove(alloc, at)
    }

    fn append(&mut self, alloc: Global, at: &Path, bytes: &[u8]) -> Result<(), HostFault> {
        self.turn(alloc)?;
        self.host.append(alloc, at, bytes)
    }

    ghost is_host = { jobs_are_host };
}

impl MemoryJobs {
    ghost use Rattle.std.specs.Prelude.{◌≡◌, false, OnOk};
    ghost use Rattle.host_trait.specs.Change.{finished, Perform};
    ghost use Rattle.host_trait.specs.Host.{Becomes, HasCause, Passes};
    ghost use Rattle.job_host.specs.Jobs.{AddsAtMost, IsSubmitMoment};
    ghost use Rattle.job_host.specs.MemoryJobs.{host_of, waiting_of};
    ghost use Rattle.switch_names.specs.Names.{has};

    /// Queues an act on a unit of which no job waits, and enters it.
    fn queue_act(&mut self, alloc: Global, act: Act, unit: &UnitName) -> Result<(), HostFault>
        requires { has (waiting_of self.old) unit.now ≡ false }
        ensures ok { OnOk result (Becomes (host_of self.old) (host_of self.new) (finished (Perform act unit.now))) }
        ensures moments { Passes (host_of self.old) (host_of self.new) (IsSubmitMoment act unit.now) }
        ensures waits { AddsAtMost unit.now (waiting_of self.old) (waiting_of self.new) }
        ensures cause { HasCause (host_of self.old) (host_of self.new) result }
    {
        self.queue.reserve(1)?;
        // The name is asked for what it says: that it is a unit's.
        let _name = unit.as_str();
        let job = QueuedJob::new(act, unit.copy(alloc)?);
        let clock = self.host.clock();
        let answer = self.host.enter(alloc, act, unit);
        // A call that was cut may have entered it.
        if self.host.clock() > clock {
            self.queue.push_reserved(job);
        }
        answer
    }
}

impl Jobs for MemoryJobs {
    ghost use Rattle.std.specs.Prelude.{◌≡◌, [], OnOk};
    ghost use Rattle.host_trait.specs.Reading.{IsReading};
    ghost use Rattle.host_trait.specs.Waiting.{StaysWithin};
    ghost use Rattle.job_host.specs.MemoryJobs.{EndsAll, host_of, waiting_of};

    fn submit(&mut self, alloc: Global, act: Act, unit: &UnitName) -> Result<(), HostFault> {
        self.turn(alloc)?;
        self.queue_act(alloc, act, unit)
    }

    fn settle(&mut self, alloc: Global) -> Result<(), HostFault>
        ensures order { OnOk result (EndsAll self.old self.new) }
        ensures none { OnOk result (waiting_of self.new ≡ []) }
        ensures clock { (host_of self.new).clock ≡ (host_of self.old).clock }
        ensures waits { StaysWithin (waiting_of self.old) (waiting_of self.new) }
        ensures reads { IsReading (host_of self.old) (host_of self.new) result }
    {
        self.turn(alloc)?;
        self.host.admit()?;
        self.end_all(alloc)
    }

    fn loaded_now(&mut self, alloc: Global) -> Result<Text, HostFault> {
        self.turn(alloc)?;
        self.host.loaded(alloc)
    }

    fn units_now(&mut self, alloc: Global) -> Result<States, HostFault> {
        self.turn(alloc)?;
        self.host.units(alloc)
    }

    fn reread(&mut self, alloc: Global) -> Result<(), HostFault> {
        self.turn(alloc)?;
        self.host.daemon_reload(alloc)
    }
}
