//! Numbers that say which job ends as a call begins.
ghost use Rattle.std.specs.Prelude.{◌≡◌, unwrap_or, slice_get};
ghost use Rattle.host_memory.specs.Failures.{counted};

use switch_names::Listed;

/// Numbers that say which job ends as a call begins, and how many of them were taken.
pub(crate) struct Schedule {
    pub(crate) numbers: Listed<u64>,
    pub(crate) taken: usize,
}

/// One call: a derived drop is proved anew in each function that lets one go.
impl Drop for Schedule {
    fn drop(self) {
        let Schedule {
            numbers: _,
            taken: _,
        } = self;
    }
}

impl Schedule {
    /// None of these numbers is taken yet.
    pub(crate) fn new(numbers: Listed<u64>) -> Schedule
        ensures { result ≡ record { numbers = numbers; taken = 0 } }
    {
        Schedule { numbers, taken: 0 }
    }

    /// Takes the next number, or 0 after the last.
    pub(crate) fn next(&mut self) -> u64
        ensures number { result ≡ unwrap_or (slice_get self.old.numbers self.old.taken) 0 }
        ensures new { self.new ≡ record self.old { taken = counted self.old.taken } }
    {
        let number = self.numbers.as_slice().get(self.taken).copied();
        self.taken = self.taken.saturating_add(1);
        number.unwrap_or(0)
    }
}
