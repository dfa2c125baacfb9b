//! A runtime of which one call on files may fail.
ghost use Rattle.std.specs.Prelude.{IsErr};

use super::open_file::FailingFile;
use host_folder::FolderHost;
use std::alloc::{AllocError, Allocator, Global};
use std::cell::Cell;
use std::fs::{Metadata, OpenOptions};
use std::io;
use std::io::ErrorKind;
use std::rt::Files;

/// The runtime, with how many calls on files are still to be made before one fails. None fails where that isn't
/// told. A file that it opens has its calls counted too.
pub struct Failing<'a> {
    rt: &'a HostRuntime,
    left: &'a Cell<Option<u64>>,
}

/// A host over a folder, with such a runtime.
pub type Host<'a> = FolderHost<Failing<'a>>;

impl<'a> Failing<'a> {
    /// The runtime with this count of calls, which is shared.
    pub fn new(rt: &'a HostRuntime, left: &'a Cell<Option<u64>>) -> Failing<'a> {
        Failing { rt, left }
    }

    /// Has a call fail, after so many others.
    pub fn fail_after(&self, calls: u64) {
        self.left.set(Some(calls));
    }

    /// Whether a call is still to fail.
    pub fn is_to_fail(&self) -> bool {
        self.left.get().is_some()
    }

    /// The runtime itself.
    pub fn runtime(&self) -> &HostRuntime {
        self.rt
    }

    /// Counts a call, and says whether it is the one that fails.
    fn is_failing(&self) -> bool {
        counts_down(self.left)
    }
}

/// Counts a call, and says whether it is the one that fails.
pub fn counts_down(left: &Cell<Option<u64>>) -> bool {
    let calls = left.get();
    left.set(calls.and_then(|calls| calls.checked_sub(1)));
    calls == Some(0)
}

/// The answer of a call that fails.
pub fn refused<T>() -> io::Result<T>
    ensures { IsErr result }
{
    Err(io::Error::from(ErrorKind::PermissionDenied))
}

impl Clone for Failing<'_> {
    fn clone(&self) -> Result<Self, AllocError> {
        Ok(Failing {
            rt: self.rt,
            left: self.left,
        })
    }
}

impl Drop for Failing<'_> {
    fn drop(self) {
        let Failing { rt: _, left: _ } = self;
    }
}

impl Alloc for Failing<'_> {
    type A = Global;

    fn alloc(&self) -> Global {
        self.rt.alloc()
    }
}

impl<'a> Files for Failing<'a> {
    type File = FailingFile<'a>;

    type Dir = <HostRuntime as Files>::Dir;

    fn open_file(&self, how: &OpenOptions, path: &str) -> io::Result<Self::File> {
        if self.is_failing() {
            return refused();
        }
        Ok(FailingFile::new(self.rt.open_file(how, path)?, self.left))
    }

    fn open_dir(&self, path: &str) -> io::Result<Self::Dir> {
        if self.is_failing() {
            return refused();
        }
        self.rt.open_dir(path)
    }

    fn metadata(&self, path: &str) -> io::Result<Metadata> {
        if self.is_failing() {
            return refused();
        }
        self.rt.metadata(path)
    }

    fn symlink_metadata(&self, path: &str) -> io::Result<Metadata> {
        if self.is_failing() {
            return refused();
        }
        self.rt.symlink_metadata(path)
    }

    fn copy(&self, from: &str, to: &str) -> io::Result<u64> {
        if self.is_failing() {
            return refused();
        }
        self.rt.copy(from, to)
    }

    fn rename(&self, from: &str, to: &str) -> io::Result<()> {
        if self.is_failing() {
            return refused();
        }
        self.rt.rename(from, to)
    }

    fn remove_file(&self, path: &str) -> io::Result<()> {
        if self.is_failing() {
            return refused();
        }
        self.rt.remove_file(path)
    }

    fn create_dir(&self, path: &str) -> io::Result<()> {
        if self.is_failing() {
            return refused();
        }
        self.rt.create_dir(path)
    }

    fn remove_dir(&self, path: &str) -> io::Result<()> {
        if self.is_failing() {
            return refused();
        }
        self.rt.remove_dir(path)
    }

    fn remove_dir_all<B: Allocator>(&self, alloc: B, path: &str) -> io::Result<()> {
        if self.is_failing() {
            return refused();
        }
        self.rt.remove_dir_all(alloc, path)
    }
}
