//! Calls on files, of which the place of the last one is kept.
use std::alloc::{AllocError, Allocator, Global};
use std::cell::Cell;
use std::fs::{Metadata, OpenOptions, Permissions};
use std::io;
use std::rt::Files;

/// The calls on files of a runtime. A cell keeps the place of the last one, for when it fails or what it finds is
/// foreign.
pub struct Watched<'a, R: Files> {
    rt: &'a R,
    place: &'a Cell<Option<String>>,
}

impl<'a, R: Files> Watched<'a, R> {
    /// A runtime with the cell for its places, which has a text to write them in.
    pub fn new(rt: &'a R, place: &'a Cell<Option<String>>) -> Watched<'a, R> {
        Watched { rt, place }
    }

    /// Keeps a place in the room of the one before. Where there is no memory, none is kept from here on.
    fn keep(&self, path: &str) {
        if let Some(mut place) = self.place.replace(None) {
            place.clear();
            if place.push_str(path).is_ok() {
                self.place.set(Some(place));
            }
        }
    }
}

impl<R: Files> Clone for Watched<'_, R> {
    fn clone(&self) -> Result<Self, AllocError> {
        Ok(Watched {
            rt: self.rt,
            place: self.place,
        })
    }
}

impl<R: Files> Drop for Watched<'_, R> {
    fn drop(self) {
        let Watched { rt: _, place: _ } = self;
    }
}

impl<R: Files + AllocGlobal> Alloc for Watched<'_, R> {
    type A = Global;

    fn alloc(&self) -> Global {
        self.rt.alloc()
    }
}

impl<R: Files> Files for Watched<'_, R> {
    type File = R::File;

    type Dir = R::Dir;

    fn open_file(&self, how: &OpenOptions, path: &str) -> io::Result<R::File> {
        self.keep(path);
        self.rt.open_file(how, path)
    }

    fn open_dir(&self, path: &str) -> io::Result<R::Dir> {
        self.keep(path);
        self.rt.open_dir(path)
    }

    fn metadata(&self, path: &str) -> io::Result<Metadata> {
        self.keep(path);
        self.rt.metadata(path)
    }

    fn symlink_metadata(&self, path: &str) -> io::Result<Metadata> {
        self.keep(path);
        self.rt.symlink_metadata(path)
    }

    fn copy(&self, from: &str, to: &str) -> io::Result<u64> {
        self.keep(to);
        self.rt.copy(from, to)
    }

    fn rename(&self, from: &str, to: &str) -> io::Result<()> {
        self.keep(to);
        self.rt.rename(from, to)
    }

    fn remove_file(&self, path: &str) -> io::Result<()> {
        self.keep(path);
        self.rt.remove_file(path)
    }

    fn create_dir(&self, path: &str) -> io::Result<()> {
        self.keep(path);
        self.rt.create_dir(path)
    }

    fn remove_dir(&self, path: &str) -> io::Result<()> {
        self.keep(path);
        self.rt.remove_dir(path)
    }

    fn remove_dir_all<B: Allocator>(&self, alloc: B, path: &str) -> io::Result<()> {
        self.keep(path);
        self.rt.remove_dir_all(alloc, path)
    }

    fn set_permissions(&self, path: &str, mode: Permissions) -> io::Result<()> {
        self.keep(path);
        self.rt.set_permissions(path, mode)
    }
}
