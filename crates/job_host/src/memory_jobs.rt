//! A device in memory that queues jobs.
ghost use Rattle.std.specs.Prelude.{◌≡◌, ◌<◌, [], length, OnErr, OnOk};
ghost use Rattle.std.proofs.Props.{props};
ghost use Rattle.host_memory.specs.MemoryHost.{manager_of};
ghost use Rattle.host_trait.specs.States.{AreStates};
ghost use Rattle.job_host.specs.Distinct.{distinct_once};
ghost use Rattle.job_host.specs.Settled.{AreDistinct, settled};

use crate::queued_job::QueuedJob;
use crate::schedule::Schedule;
use host_memory::MemoryHost;
use host_trait::{HostFault, World};
use std::alloc::Global;
use switch_names::{Listed, UnitName};

/// A device in memory that queues jobs, which end by a schedule. It fails where it is told to.
///
/// As each of its calls begins, but for `sync`, it takes the next number of its schedule, or 0 after the last. Of n jobs
/// that wait, the one ends whose place in the order of submission, counted from 1, is the remainder of that number by n + 1;
/// where it is 0, none does. A cut that falls on a submit leaves the moment before or after, and the jobs that wait.
pub struct MemoryJobs {
    pub(crate) host: MemoryHost,
    pub(crate) queue: Vec<QueuedJob>,
    pub(crate) schedule: Schedule,
    pub(crate) ended: Vec<UnitName>,
    ghost distinct: { AreDistinct queue.items } by { Prim.hlevel (props, distinct_once) },
    ghost states: { AreStates (settled queue.items (manager_of host)).states } by { Prim.hlevel props },
}

/// One call: a derived drop is proved anew in each function that lets one go.
impl Drop for MemoryJobs {
    fn drop(self) {
        let MemoryJobs {
            host: _,
            queue: _,
            schedule: _,
            ended: _,
        } = self;
    }
}

impl MemoryJobs {
    ghost use Rattle.std.specs.Prelude.{◌+◌, ◌++◌, ◌&&◌, None, Some, IsTrue, is_none, false};
    ghost use Rattle.host_memory.specs.Troubles.{is_empty};
    ghost use Rattle.host_trait.specs.Change.{IsSame};
    ghost use Rattle.host_trait.specs.Host.{Passes};
    ghost use Rattle.host_trait.specs.Reading.{IsReading};
    ghost use Rattle.host_trait.specs.Waiting.{StaysWithin};
    ghost use Rattle.job_host.specs.MemoryJobs.{Ends, HasTurned, host_of, next_number, raw_of, waiting_of};
    ghost use Rattle.job_host.specs.Schedule.{ending};

    /// A device with this world, on which no job waits and nothing fails, and whose jobs end by this schedule.
    pub fn new(alloc: Global, world: World, schedule: Listed<u64>) -> MemoryJobs
        ensures world { (host_of result).world ≡ Some world }
        ensures raw { raw_of result ≡ world }
        ensures waiting { waiting_of result ≡ [] }
        ensures clock { (host_of result).clock ≡ 0 }
        ensures last { (host_of result).last ≡ None }
        ensures faults { (host_of result).faults ≡ 0 }
        ensures sure { IsTrue (host_of result).is_sure }
    {
        // The states are asked for what they say of the world: that they are in one form.
        let _states = world.states();
        MemoryJobs {
            host: MemoryHost::new(alloc, world),
            queue: Vec::new(alloc),
            schedule: Schedule::new(schedule),
            ended: Vec::new(alloc),
        }
    }

    /// Its world as it is, in which jobs may wait: what their acts change is still as it was.
    pub fn raw(&self) -> &World
        ensures { raw_of self.now ≡ result.now }
    {
        self.host.world()
    }

    /// The units of which a job has ended, in the order of the ends.
    pub fn ended(&self) -> &[UnitName]
        ensures { result.now ≡ self.now.ended.items }
    {
        self.ended.as_slice()
    }

    /// How many calls have failed.
    pub fn faults(&self) -> u64
        ensures { result ≡ (host_of self.now).faults }
    {
        self.host.faults()
    }

    /// How many calls it has had since it was made, those among them that failed.
    pub fn calls(&self) -> u64 {
        self.host.calls()
    }

    /// How many changing calls have answered `Ok` since it was made.
    pub fn changes(&self) -> u64 {
        self.host.changes()
    }

    /// Cuts the next changing call after so many more that finish, as `MemoryHost::arm` does. The jobs that wait still do.
    pub fn arm(&mut self, after: u64, pick: u64)
        ensures moments { Passes (host_of self.old) (host_of self.new) IsSame }
        ensures waiting { waiting_of self.new ≡ waiting_of self.old }
        ensures clock { (host_of self.new).clock ≡ (host_of self.old).clock }
        ensures last { (host_of self.new).last ≡ Some ((host_of self.old).clock + after + 1) }
        ensures faults { (host_of self.new).faults ≡ (host_of self.old).faults }
        ensures sure { (host_of self.new).is_sure ≡ false }
    {
        self.host.arm(after, pick);
    }

    /// Fails the calls with these numbers, where the next call has the number 0. A call that fails so does nothing.
    pub fn fail(&mut self, calls: Listed<u64>)
        ensures moments { Passes (host_of self.old) (host_of self.new) IsSame }
        ensures waiting { waiting_of self.new ≡ waiting_of self.old }
        ensures clock { (host_of self.new).clock ≡ (host_of self.old).clock }
        ensures last { (host_of self.new).last ≡ (host_of self.old).last }
        ensures faults { (host_of self.new).faults ≡ (host_of self.old).faults }
        ensures sure { (host_of self.new).is_sure ≡ (is_none (host_of self.old).last && is_empty calls) }
    {
        self.host.fail(calls);
    }

    /// Takes back what `arm` and `fail` have done. The jobs that wait still do.
    pub fn revive(&mut self)
        ensures moments { Passes (host_of self.old) (host_of self.new) IsSame }
        ensures waiting { waiting_of self.new ≡ waiting_of self.old }
        ensures clock { (host_of self.new).clock ≡ (host_of self.old).clock }
        ensures last { (host_of self.new).last ≡ None }
        ensures faults { (host_of self.new).faults ≡ (host_of self.old).faults }
        ensures sure { IsTrue (host_of self.new).is_sure }
    {
        self.host.revive();
    }

    /// Ends the job at a place of the queue: its act takes effect, and enters nothing.
    fn end_at(&mut self, alloc: Global, at: usize) -> Result<(), HostFault>
        requires { at < length self.old.queue.items }
        ensures ok { OnOk result (Ends at self.old self.new) }
        ensures err { OnErr result (self.new.queue.items ≡ self.old.queue.items) }
        ensures clock { (host_of self.new).clock ≡ (host_of self.old).clock }
        ensures waits { StaysWithin (waiting_of self.old) (waiting_of self.new) }
        ensures reads { IsReading (host_of self.old) (host_of self.new) result }
    {
        self.ended.reserve(1)?;
        let job = &self.queue[at];
        self.host.take_effect(alloc, job.act(), job.unit())?;
        let job = self.queue.remove(at);
        self.ended.push_reserved(job.into_unit());
        Ok(())
    }

    /// Takes the next number of the schedule, and lets the job end whose turn it is.
    pub(crate) fn turn(&mut self, alloc: Global) -> Result<(), HostFault>
        ensures turn { OnOk result (HasTurned (ending (next_number self.old) self.old.queue.items) self.old self.new) }
        ensures clock { (host_of self.new).clock ≡ (host_of self.old).clock }
        ensures waits { StaysWithin (waiting_of self.old) (waiting_of self.new) }
        ensures reads { IsReading (host_of self.old) (host_of self.new) result }
    {
        let number = self.schedule.next();
        let at = number % (self.queue.len() as u64 + 1);
        if at == 0 {
            return Ok(());
        }
        self.end_at(alloc, at as usize - 1)
    }

    /// Ends each job that waits, in the order of submission.
    pub(crate) fn end_all(&mut self, alloc: Global) -> Result<(), HostFault>
        ensures ended { OnOk result (self.new.ended.items ≡ self.old.ended.items ++ waiting_of self.old) }
        ensures none { OnOk result (waiting_of self.new ≡ []) }
        ensures clock { (host_of self.new).clock ≡ (host_of self.old).clock }
        ensures waits { StaysWithin (waiting_of self.old) (waiting_of self.new) }
        ensures reads { IsReading (host_of self.old) (host_of self.new) result }
    {
        for _number in 0..self.queue.len() {
            self.end_at(alloc, 0)?;
        }
        Ok(())
    }
}
