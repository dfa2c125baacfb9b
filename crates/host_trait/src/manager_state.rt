//! The service manager's part of a world.
ghost use Rattle.std.specs.Prelude.{◌≡◌, IfOk};
ghost use Rattle.host_trait.specs.Manager.{empty_manager};

use crate::copying::{copy_bad, copy_journal};
use crate::entry::{Bad, Entry};
use crate::states::States;
use std::alloc::{AllocError, Global};
use switch_names::{Listed, Text};

/// What a service manager knows and has done.
pub struct ManagerState {
    /// The states of its units.
    pub states: States,
    /// Where the definitions lie that it has loaded.
    pub loaded: Text,
    /// The units that fail when they are started, with the definitions under which they do.
    pub bad: Listed<Bad>,
    /// What it has done, the oldest first.
    pub journal: Listed<Entry>,
}

/// One call: a derived drop is proved anew in each function that lets one go.
impl Drop for ManagerState {
    fn drop(self) {
        let ManagerState {
            states: _,
            loaded: _,
            bad: _,
            journal: _,
        } = self;
    }
}

impl ManagerState {
    /// A manager that has loaded nothing, and of which every unit is inactive.
    pub fn new(alloc: Global) -> ManagerState
        ensures { result ≡ empty_manager }
    {
        ManagerState {
            states: States::new(alloc),
            loaded: Text::new(alloc),
            bad: Listed::new(alloc),
            journal: Listed::new(alloc),
        }
    }

    /// An equal state.
    pub fn copy(&self, alloc: Global) -> Result<ManagerState, AllocError>
        ensures { IfOk result (λ copied. copied ≡ self.now) }
    {
        Ok(ManagerState {
            states: self.states.copy(alloc)?,
            loaded: self.loaded.copy(alloc)?,
            bad: copy_bad(alloc, self.bad.as_slice())?,
            journal: copy_journal(alloc, self.journal.as_slice())?,
        })
    }
}
