//! Managers on which something goes wrong where it is told to.
ghost use Rattle.std.specs.Prelude.{◌≡◌, ◌+◌, Some, IsTrue};
ghost use Rattle.host_trait.specs.Change.{IsSame};
ghost use Rattle.host_trait.specs.Host.{Passes};

use host_memory::MemoryHost;
use host_trait::Manager;
use job_host::{JobHost, MemoryJobs};
use switch_names::Listed;

/// A manager on which something goes wrong where it is told to. What is told changes nothing of its world.
pub trait Troubled: Manager {
    /// Cuts the next changing call after so many more that finish. It leaves what `pick` gives of that call.
    fn arm(&mut self, after: u64, pick: u64)
        ensures moments { Passes (Self.host self.old) (Self.host self.new) IsSame }
        ensures clock { (Self.host self.new).clock ≡ (Self.host self.old).clock }
        ensures last { (Self.host self.new).last ≡ Some ((Self.host self.old).clock + after + 1) }
        ensures faults { (Self.host self.new).faults ≡ (Self.host self.old).faults };

    /// Fails the calls with these numbers, where the next call has the number 0.
    fn fail(&mut self, calls: Listed<u64>)
        ensures moments { Passes (Self.host self.old) (Self.host self.new) IsSame }
        ensures clock { (Self.host self.new).clock ≡ (Self.host self.old).clock }
        ensures faults { (Self.host self.new).faults ≡ (Self.host self.old).faults };

    /// Takes back what `arm` and `fail` have done.
    fn revive(&mut self)
        ensures moments { Passes (Self.host self.old) (Self.host self.new) IsSame }
        ensures clock { (Self.host self.new).clock ≡ (Self.host self.old).clock }
        ensures faults { (Self.host self.new).faults ≡ (Self.host self.old).faults }
        ensures sure { IsTrue (Self.host self.new).is_sure };
}

impl Troubled for MemoryHost {
    fn arm(&mut self, after: u64, pick: u64) {
        self.arm(after, pick);
    }

    fn fail(&mut self, calls: Listed<u64>) {
        self.fail(calls);
    }

    fn revive(&mut self) {
        self.revive();
    }
}

impl Troubled for JobHost<MemoryJobs> {
    fn arm(&mut self, after: u64, pick: u64) {
        self.arm(after, pick);
    }

    fn fail(&mut self, calls: Listed<u64>) {
        self.fail(calls);
    }

    fn revive(&mut self) {
        self.revive();
    }
}
