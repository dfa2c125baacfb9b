//! A file that is open, of which one call may fail.
ghost use Rattle.std.specs.Io.{ReadsAtMost, WritesAtMost};

use super::failing::{counts_down, refused};
use std::cell::Cell;
use std::fs::{Metadata, OpenFile, Permissions};
use std::io;
use std::io::{Read, Seek, SeekFrom, Write};
use std::rt::Files;

/// An open file, with how many calls on files are still to be made before one fails.
pub struct FailingFile<'a> {
    file: <HostRuntime as Files>::File,
    left: &'a Cell<Option<u64>>,
}

impl<'a> FailingFile<'a> {
    /// An open file with this count of calls, which is shared.
    pub fn new(file: <HostRuntime as Files>::File, left: &'a Cell<Option<u64>>) -> FailingFile<'a> {
        FailingFile { file, left }
    }
}

impl Drop for FailingFile<'_> {
    fn drop(self) {
        let FailingFile { file: _, left: _ } = self;
    }
}

impl Read for FailingFile<'_> {
    fn read(&mut self, buffer: &mut [u8]) -> io::Result<usize> {
        if counts_down(self.left) {
            return refused();
        }
        self.file.read(buffer)
    }
}

impl Write for FailingFile<'_> {
    fn write(&mut self, bytes: &[u8]) -> io::Result<usize> {
        if counts_down(self.left) {
            return refused();
        }
        self.file.write(bytes)
    }

    fn flush(&mut self) -> io::Result<()> {
        self.file.flush()
    }
}

impl Seek for FailingFile<'_> {
    fn seek(&mut self, to: SeekFrom) -> io::Result<u64> {
        if counts_down(self.left) {
            return refused();
        }
        self.file.seek(to)
    }
}

impl OpenFile for FailingFile<'_> {
    fn metadata(&self) -> io::Result<Metadata> {
        if counts_down(self.left) {
            return refused();
        }
        self.file.metadata()
    }

    fn set_len(&self, len: u64) -> io::Result<()> {
        if counts_down(self.left) {
            return refused();
        }
        self.file.set_len(len)
    }

    fn sync_all(&self) -> io::Result<()> {
        if counts_down(self.left) {
            return refused();
        }
        self.file.sync_all()
    }

    fn sync_data(&self) -> io::Result<()> {
        if counts_down(self.left) {
            return refused();
        }
        self.file.sync_data()
    }

    fn set_permissions(&self, mode: Permissions) -> io::Result<()> {
        if counts_down(self.left) {
            return refused();
        }
        self.file.set_permissions(mode)
    }
}
