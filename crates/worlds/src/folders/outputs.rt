//! Standard output, and outputs that are interrupted and then are full or not.
ghost use Rattle.std.specs.Prelude.{◌≤◌, IfOk, length};

use crate::writing::show_value;
use host_files::OutSink;
use host_trait::Sink;
use std::alloc::AllocError;
use std::cell::Cell;
use std::fmt::Display;
use std::io;
use std::io::ErrorKind;
use std::test::Fail;
use world_text::Lines;

/// An output that is interrupted, takes a byte, and then takes more or is full.
struct Shaky<'a> {
    turn: &'a Cell<u64>,
    is_full: bool,
}

impl Clone for Shaky<'_> {
    fn clone(&self) -> Result<Self, AllocError> {
        Ok(Shaky {
            turn: self.turn,
            is_full: self.is_full,
        })
    }
}

impl Drop for Shaky<'_> {
    fn drop(self) {
        let Shaky {
            turn: _,
            is_full: _,
        } = self;
    }
}

impl Print for Shaky<'_> {
    fn print<D: Display + Drop>(&self, _value: D) -> io::Result<()> {
        Err(io::Error::from(ErrorKind::Unsupported))
    }

    fn println<D: Display + Drop>(&self, _value: D) -> io::Result<()> {
        Err(io::Error::from(ErrorKind::Unsupported))
    }

    fn write_all(&self, _bytes: &[u8]) -> io::Result<()> {
        Err(io::Error::from(ErrorKind::Unsupported))
    }

    fn write_some(&self, bytes: &[u8]) -> io::Result<usize>
        ensures bound { IfOk result (λ n. n ≤ length bytes.now) }
    {
        let turn = self.turn.get();
        self.turn.set(turn.saturating_add(1));
        match turn {
            0 => Err(io::Error::from(ErrorKind::Interrupted)),
            1 => Ok(bytes.len().min(1)),
            _ if self.is_full => Err(io::Error::from(ErrorKind::StorageFull)),
            _ => Ok(bytes.len()),
        }
    }
}

/// Puts bytes on an output at once, and shows how that ended.
pub fn show_output<R: Print + Clone + Drop>(
    rt: &R,
    lines: &mut Lines,
    bytes: &[u8],
) -> Result<(), Fail> {
    let mut sink = OutSink::new(rt)?;
    show_value(lines, &sink.put(bytes));
    Ok(())
}

/// Shows the same of an output that is interrupted, and then is full or not.
pub fn show_interrupted(lines: &mut Lines, is_full: bool, bytes: &[u8]) -> Result<(), Fail> {
    let turn = Cell::new(0);
    let output = Shaky {
        turn: &turn,
        is_full,
    };
    show_output(&output, lines, bytes)
}
