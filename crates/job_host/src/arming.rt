//! What goes wrong on the device of a host with jobs.
ghost use Rattle.std.specs.Prelude.{◌≡◌, ◌+◌, Some, None, IsTrue};
ghost use Rattle.host_trait.specs.Change.{IsSame};
ghost use Rattle.host_trait.specs.Host.{Passes};
ghost use Rattle.job_host.specs.MemoryJobs.{host_of, waiting_of};

use crate::job_host::JobHost;
use crate::memory_jobs::MemoryJobs;
use switch_names::Listed;

impl JobHost<MemoryJobs> {
    /// Cuts the next changing call of its device after so many more that finish.
    pub fn arm(&mut self, after: u64, pick: u64)
        ensures moments { Passes (host_of self.old.device) (host_of self.new.device) IsSame }
        ensures clock { (host_of self.new.device).clock ≡ (host_of self.old.device).clock }
        ensures last { (host_of self.new.device).last ≡ Some ((host_of self.old.device).clock + after + 1) }
        ensures faults { (host_of self.new.device).faults ≡ (host_of self.old.device).faults }
    {
        self.device.arm(after, pick);
    }

    /// Fails the calls of its device with these numbers, where the next one has the number 0.
    pub fn fail(&mut self, calls: Listed<u64>)
        ensures moments { Passes (host_of self.old.device) (host_of self.new.device) IsSame }
        ensures clock { (host_of self.new.device).clock ≡ (host_of self.old.device).clock }
        ensures faults { (host_of self.new.device).faults ≡ (host_of self.old.device).faults }
    {
        self.device.fail(calls);
    }

    /// Takes back what `arm` and `fail` have done. Of which units jobs wait isn't known any more, so the next act waits for all.
    pub fn revive(&mut self)
        ensures moments { Passes (host_of self.old.device) (host_of self.new.device) IsSame }
        ensures waiting { waiting_of self.new.device ≡ waiting_of self.old.device }
        ensures unknown { self.new.submitted ≡ None }
        ensures clock { (host_of self.new.device).clock ≡ (host_of self.old.device).clock }
        ensures last { (host_of self.new.device).last ≡ None }
        ensures faults { (host_of self.new.device).faults ≡ (host_of self.old.device).faults }
        ensures sure { IsTrue (host_of self.new.device).is_sure }
    {
        self.device.revive();
        self.submitted = None;
    }
}
