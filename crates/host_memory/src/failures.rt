//! The calls that are to fail, by their numbers.
ghost use Rattle.std.specs.Prelude.{◌≡◌, []};
ghost use Rattle.host_memory.specs.Failures.{counted, is_listed};

use std::alloc::Global;
use switch_names::Listed;

/// The numbers of the calls that are to fail, and the number of the next call.
pub(crate) struct Failures {
    numbers: Vec<u64>,
    next: u64,
}

/// One call: a derived drop is proved anew in each function that lets one go.
impl Drop for Failures {
    fn drop(self) {
        let Failures {
            numbers: _,
            next: _,
        } = self;
    }
}

impl Failures {
    /// No call is to fail.
    pub(crate) fn new(alloc: Global) -> Failures
        ensures numbers { result.numbers.items ≡ [] }
        ensures next { result.next ≡ 0 }
    {
        Failures {
            numbers: Vec::new(alloc),
            next: 0,
        }
    }

    /// The calls with these numbers are to fail, where the next call has the number 0.
    pub(crate) fn of(numbers: Listed<u64>) -> Failures
        ensures numbers { result.numbers.items ≡ numbers }
        ensures next { result.next ≡ 0 }
    {
        Failures {
            numbers: numbers.into_vec(),
            next: 0,
        }
    }

    /// No call is to fail any more.
    pub(crate) fn clear(&mut self)
        ensures numbers { self.new.numbers.items ≡ [] }
        ensures next { self.new.next ≡ 0 }
    {
        self.numbers.clear();
        self.next = 0;
    }

    /// Counts a call, and answers whether it is to fail.
    pub(crate) fn next_fails(&mut self) -> bool
        ensures fails { result ≡ is_listed self.old.numbers.items self.old.next }
        ensures numbers { self.new.numbers.items ≡ self.old.numbers.items }
        ensures next { self.new.next ≡ counted self.old.next }
    {
        let fails = self.numbers.as_slice().contains(&self.next);
        self.next = self.next.saturating_add(1);
        fails
    }
}
