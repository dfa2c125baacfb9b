//! Standard output as a sink.
ghost use Rattle.std.specs.Prelude.{◌≡◌, IfOk};

use host_trait::{Sink, SinkFault};
use std::alloc::AllocError;
use std::io;
use std::io::{ErrorKind, Write};

/// Standard output. It tells nothing of what was put, and counts the puts that failed.
pub struct OutSink<R: Print + Clone + Drop> {
    rt: R,
    faults: u64,
}

/// One call: a derived drop is proved anew in each function that lets one go.
impl<R: Print + Clone + Drop> Drop for OutSink<R> {
    fn drop(self) {
        let OutSink { rt: _, faults: _ } = self;
    }
}

/// Writes all of these bytes to standard output, and says whether it took them.
fn write_all<R: Print + Clone + Drop>(rt: &R, bytes: &[u8]) -> bool {
    let mut out = io::writer(rt);
    let mut rest = bytes;
    for _ in 0..u64::MAX {
        if rest.is_empty() {
            break;
        }
        match out.write(rest) {
            Ok(0) => return false,
            Ok(taken) => rest = &rest[taken..],
            Err(error) if error.kind() == ErrorKind::Interrupted => {}
            Err(_) => return false,
        }
    }
    out.flush().is_ok()
}

impl<R: Print + Clone + Drop> OutSink<R> {
    /// The standard output of a runtime.
    pub fn new(rt: &R) -> Result<OutSink<R>, AllocError>
        ensures faults { IfOk result (λ out. out.faults ≡ 0) }
    {
        Ok(OutSink {
            rt: rt.clone()?,
            faults: 0,
        })
    }
}

impl<R: Print + Clone + Drop> Sink for OutSink<R> {
    ghost use Rattle.std.specs.Prelude.{None};

    ghost sink = { λ out. record { contents = None; faults = out.faults } };

    fn put(&mut self, bytes: &[u8]) -> Result<(), SinkFault> {
        if write_all(&self.rt, bytes) {
            return Ok(());
        }
        self.faults = self.faults.saturating_add(1);
        Err(SinkFault::Device)
    }
}
