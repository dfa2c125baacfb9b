//! What is to go wrong on a host, and how many calls it has had.
ghost use Rattle.std.specs.Prelude.{◌≡◌, ◌≤◌, ℕ, [], None, Some, IfErr, is_err, if◌then◌else◌};
ghost use Rattle.std.specs.Option.{ForSome};
ghost use Rattle.host_memory.specs.Failures.{counted};
ghost use Rattle.host_memory.specs.Troubles.{armed, fallen, has_fallen, is_refused, due, admitted, changed, refused};

use crate::cuts::ArmedCut;
use crate::failures::Failures;
use host_trait::HostFault;
use std::alloc::Global;
use std::marker::Model;
use switch_names::Listed;

/// A cut, the calls that are to fail, and the counts of all calls, of those that have failed, and
/// of the changing ones that have finished.
pub(crate) struct Troubles {
    cut: Option<ArmedCut>,
    failures: Failures,
    faults: u64,
    calls: u64,
    changes: u64,
}

/// One call: a derived drop is proved anew in each function that lets one go.
impl Drop for Troubles {
    fn drop(self) {
        let Troubles {
            cut: _,
            failures: _,
            faults: _,
            calls: _,
            changes: _,
        } = self;
    }
}

impl Model for Troubles {
    ghost use Rattle.host_memory.specs.Troubles.{TroublesState};

    ghost Value = { TroublesState };

    ghost view = { λ troubles. record { cut = troubles.cut; failing = troubles.failures.numbers.items; next = troubles.failures.next; faults = troubles.faults; calls = troubles.calls; changes = troubles.changes } };
}

impl Troubles {
    ghost use Rattle.host_trait.specs.declared.tree.HostFault.TheVariants.{Device};

    /// Nothing goes wrong.
    pub(crate) fn new(alloc: Global) -> Troubles
        ensures { result ≡ record { cut = None; failing = []; next = 0; faults = 0; calls = 0; changes = 0 } }
    {
        Troubles {
            cut: None,
            failures: Failures::new(alloc),
            faults: 0,
            calls: 0,
            changes: 0,
        }
    }

    /// A cut is to fall on the next changing call after so many more.
    ///
    /// Where one has fallen already, each call is still refused.
    pub(crate) fn arm(&mut self, clock: usize, after: u64, pick: u64)
        ensures { self.new ≡ record self.old { cut = Some (armed self.old.cut clock after pick) } }
    {
        self.cut = Some(ArmedCut {
            from: clock,
            after,
            pick,
            has_fallen: has_fallen(&self.cut),
        });
    }

    /// The calls with these numbers are to fail.
    pub(crate) fn fail(&mut self, calls: Listed<u64>)
        ensures { self.new ≡ record self.old { failing = calls; next = 0 } }
    {
        self.failures = Failures::of(calls);
    }

    /// Nothing goes wrong any more.
    pub(crate) fn clear(&mut self)
        ensures { self.new ≡ record self.old { cut = None; failing = []; next = 0 } }
    {
        self.cut = None;
        self.failures.clear();
    }

    /// How many calls have failed.
    pub(crate) fn faults(&self) -> u64
        ensures { result ≡ self.now.faults }
    {
        self.faults
    }

    /// How many calls there have been.
    pub(crate) fn calls(&self) -> u64
        ensures { result ≡ self.now.calls }
    {
        self.calls
    }

    /// How many changing calls have finished.
    pub(crate) fn changes(&self) -> u64
        ensures { result ≡ self.now.changes }
    {
        self.changes
    }

    /// Counts a changing call that has finished.
    pub(crate) fn finish(&mut self)
        ensures { self.new ≡ changed self.old }
    {
        self.changes = self.changes.saturating_add(1);
    }

    /// Counts a call, and refuses it where it is listed and where the cut has fallen.
    pub(crate) fn admit(&mut self) -> Result<(), HostFault>
        ensures answer { is_err result ≡ is_refused self.old }
        ensures device { IfErr result (λ fault. fault ≡ Device) }
        ensures new { self.new ≡ (if is_err result then refused self.old else admitted self.old) }
        ensures later { self.old.faults ≤ self.new.faults }
    {
        self.calls = self.calls.saturating_add(1);
        let is_listed = self.failures.next_fails();
        if is_listed || has_fallen(&self.cut) {
            return Err(self.fault());
        }
        Ok(())
    }

    /// The cut that falls on the next changing call.
    pub(crate) fn due(&self, clock: usize) -> Option<ArmedCut>
        requires { ForSome self.now.cut (λ cut. cut.from ≤ clock) }
        ensures { result ≡ due self.now.cut clock }
    {
        match self.cut {
            Some(cut) if cut.is_due(clock) => Some(cut),
            _ => None,
        }
    }

    /// Lets a cut fall, and counts the call that it falls on.
    pub(crate) fn fall(&mut self, cut: ArmedCut) -> HostFault
        ensures fault { result ≡ Device }
        ensures new { self.new ≡ record self.old { cut = Some (fallen cut); faults = counted self.old.faults } }
        ensures later { self.old.faults ≤ self.new.faults }
    {
        self.cut = Some(ArmedCut {
            has_fallen: true,
            ..cut
        });
        self.fault()
    }

    /// Counts a call that fails.
    fn fault(&mut self) -> HostFault
        ensures fault { result ≡ Device }
        ensures new { self.new ≡ record self.old { faults = counted self.old.faults } }
        ensures later { self.old.faults ≤ self.new.faults }
    {
        self.faults = self.faults.saturating_add(1);
        HostFault::Device
    }
}

/// Whether a cut has fallen.
fn has_fallen(cut: &Option<ArmedCut>) -> bool
    ensures { result ≡ has_fallen cut.now }
{
    match cut {
        Some(cut) => cut.has_fallen,
        None => false,
    }
}
