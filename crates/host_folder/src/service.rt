//! The service manager of a root, whose state is kept once it was read.
ghost use Rattle.std.specs.Prelude.{◌≡◌, ◌++◌, codes, IfOk};

use crate::folders::Folders;
use host_files::ManagerFile;
use host_trait::{Act, Leaf, States, loaded_text};
use manager_core::WrittenState;
use std::alloc::{AllocError, Global};
use std::io;
use std::rt::Files;
use switch_names::{Text, UnitName};

/// The manager's state, where it is known: not before it is read, and not after a call that has failed.
pub struct Service {
    file: ManagerFile,
    state: Option<WrittenState>,
}

/// One call: a derived drop is proved anew in each function that lets one go.
impl Drop for Service {
    fn drop(self) {
        let Service { file: _, state: _ } = self;
    }
}

impl Service {
    /// A manager below a root, of which nothing is known yet.
    pub fn new(alloc: Global, root: &str) -> Result<Service, AllocError>
        ensures { IfOk result (λ service. service.file.place ≡ root.now ++ codes "/manager") }
    {
        Ok(Service {
            file: ManagerFile::new(alloc, root)?,
            state: None,
        })
    }

    /// The manager's state, which is read where it isn't known. From here on it isn't.
    fn take<R: Files>(&mut self, rt: &R, alloc: Global) -> io::Result<WrittenState> {
        match self.state.take() {
            Some(state) => Ok(state),
            None => self.file.read(rt, alloc),
        }
    }

    /// Writes the state that a call has led to below the root of a tree. From here on it is known.
    fn put<R: Files>(
        &mut self,
        rt: &R,
        alloc: Global,
        tree: &mut Folders,
        state: WrittenState,
    ) -> io::Result<()> {
        let syncing = tree.syncing();
        let root = tree.changing_root(alloc)?;
        self.file.write(rt, root, &state, syncing)?;
        self.state = Some(state);
        Ok(())
    }

    /// The states of the units below the root of a tree.
    pub fn units<R: Files>(&mut self, rt: &R, alloc: Global, tree: &Folders) -> io::Result<States> {
        tree.root()?;
        let state = self.take(rt, alloc)?;
        let states = state.state().states.copy(alloc);
        self.state = Some(state);
        Ok(states?)
    }

    /// Where the definitions lie that the manager below the root of a tree has loaded.
    pub fn loaded<R: Files>(&mut self, rt: &R, alloc: Global, tree: &Folders) -> io::Result<Text> {
        tree.root()?;
        let state = self.take(rt, alloc)?;
        let loaded = state.state().loaded.copy(alloc);
        self.state = Some(state);
        Ok(loaded?)
    }

    /// Does something to a unit below the root of a tree.
    pub fn perform<R: Files>(
        &mut self,
        rt: &R,
        alloc: Global,
        tree: &mut Folders,
        act: Act,
        unit: &UnitName,
    ) -> io::Result<()> {
        tree.root()?;
        let state = self.take(rt, alloc)?.act(alloc, act, unit)?;
        self.put(rt, alloc, tree, state)
    }

    /// Loads the definitions to which a leaf leads, below the root of a tree.
    pub fn load<R: Files>(
        &mut self,
        rt: &R,
        alloc: Global,
        tree: &mut Folders,
        definitions: Option<&Leaf>,
    ) -> io::Result<()> {
        tree.root()?;
        let loaded = loaded_text(alloc, definitions)?;
        let state = self.take(rt, alloc)?.load(alloc, &loaded)?;
        self.put(rt, alloc, tree, state)
    }
}
