//! A sink that keeps in memory what is put.
ghost use Rattle.std.specs.Prelude.{◌≡◌, ◌≤◌, ◌+◌, ◌-◌, ◌++◌, [], length, OnOk, OnErr, is_err};

use crate::failures::Failures;
use host_trait::{Sink, SinkFault};
use std::alloc::{AllocError, Global};
use std::marker::Model;
use switch_names::Listed;

/// A sink that keeps what is put, as far as it has room.
pub struct MemorySink {
    put: Vec<u8>,
    room: usize,
    failures: Failures,
    faults: u64,
}

/// One call: a derived drop is proved anew in each function that lets one go.
impl Drop for MemorySink {
    fn drop(self) {
        let MemorySink {
            put: _,
            room: _,
            failures: _,
            faults: _,
        } = self;
    }
}

impl Model for MemorySink {
    ghost use Rattle.std.specs.Prelude.{◌≤◌, ◌+◌, vec_len};
    ghost use Rattle.std.specs.Vec.{vec_capacity};
    ghost use Rattle.host_memory.specs.MemorySink.{MemorySinkState};

    ghost Value = { MemorySinkState };

    ghost view = { λ sink. record { bytes = sink.put.items; room = sink.room; failing = sink.failures.numbers.items; next = sink.failures.next; faults = sink.faults } };

    ghost invariant = { λ sink. vec_len sink.put + sink.room ≤ vec_capacity sink.put };
}

impl MemorySink {
    ghost use Rattle.host_memory.specs.Failures.{counted};

    /// A sink with no room, in which no put is to fail.
    pub fn new(alloc: Global) -> MemorySink
        ensures { result ≡ record { bytes = []; room = 0; failing = []; next = 0; faults = 0 } }
    {
        MemorySink {
            put: Vec::new(alloc),
            room: 0,
            failures: Failures::new(alloc),
            faults: 0,
        }
    }

    /// Makes room for so many bytes more.
    pub fn room(&mut self, bytes: usize) -> Result<(), AllocError>
        ensures ok { OnOk result (self.new ≡ record self.old { room = self.old.room + bytes }) }
        ensures err { OnErr result (self.new ≡ self.old) }
    {
        let Some(room) = self.room.checked_add(bytes) else {
            return Err(AllocError);
        };
        self.put.reserve(room)?;
        self.room = room;
        Ok(())
    }

    /// Fails the puts with these numbers, where the next put has the number 0.
    pub fn fail(&mut self, puts: Listed<u64>)
        ensures { self.new ≡ record self.old { failing = puts; next = 0 } }
    {
        self.failures = Failures::of(puts);
    }

    /// What was put.
    pub fn bytes(&self) -> &[u8]
        ensures { result.now ≡ self.now.bytes }
    {
        self.put.as_slice()
    }

    /// How many puts have failed.
    pub fn faults(&self) -> u64
        ensures { result ≡ self.now.faults }
    {
        self.faults
    }

    /// Counts a put that fails.
    fn fault(&mut self) -> SinkFault
        ensures { self.new ≡ record self.old { faults = counted self.old.faults } }
    {
        self.faults = self.faults.saturating_add(1);
        SinkFault::Device
    }

    /// Appends bytes that there is room for.
    fn append(&mut self, bytes: &[u8])
        requires { length bytes.now ≤ self.old.room }
        ensures { self.new ≡ record self.old { bytes = self.old.bytes ++ bytes.now; room = self.old.room - length bytes.now } }
    {
        self.put.extend_from_slice(bytes).unwrap();
        self.room -= bytes.len();
    }
}

impl Sink for MemorySink {
    ghost use Rattle.host_memory.specs.MemorySink.{sink_of, after_put, put_fails};
    ghost use Rattle.host_trait.specs.Sink.{SinkState, Puts, IsPrefixOf, HasSinkCause};

    ghost sink = { sink_of };

    fn put(&mut self, bytes: &[u8]) -> Result<(), SinkFault>
        ensures fails { is_err result ≡ put_fails self.old bytes.now }
        ensures put { self.new ≡ after_put self.old bytes.now }
        ensures ok { OnOk result (Puts (sink_of self.old) (sink_of self.new) (λ more. more ≡ bytes.now)) }
        ensures prefix { Puts (sink_of self.old) (sink_of self.new) (IsPrefixOf bytes.now) }
        ensures cause { HasSinkCause (sink_of self.old) (sink_of self.new) result }
    {
        if self.failures.next_fails() {
            return Err(self.fault());
        }
        let fits = self.room.min(bytes.len());
        self.append(&bytes[..fits]);
        if fits < bytes.len() {
            return Err(self.fault());
        }
        Ok(())
    }
}
