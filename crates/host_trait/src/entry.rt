//! What a service manager did, and what fails when it starts it.
ghost use Rattle.std.specs.Prelude.{◌≡◌, IfOk};
ghost use Rattle.host_trait.specs.Words.{act_word};

use std::alloc::{AllocError, Global};
use switch_names::{Text, UnitName};

/// What is done to a unit: systemctl(1), "Unit Commands".
#[derive(Clone, Copy, Debug, PartialEq, Eq)]
pub enum Act {
    /// It is stopped.
    Stop,
    /// It is told to read its configuration anew.
    Reload,
    /// It is stopped, and then started.
    Restart,
    /// It is started, where it isn't yet.
    Start,
}

impl Act {
    /// The word for the act, as `systemctl` takes it.
    pub fn word(self) -> &'static str
        ensures { result.now ≡ act_word self }
    {
        match self {
            Act::Stop => "stop",
            Act::Reload => "reload",
            Act::Restart => "restart",
            Act::Start => "start",
        }
    }
}

/// One act in the journal.
pub struct Entry {
    /// The unit on which it was done.
    pub unit: UnitName,
    /// What was done.
    pub act: Act,
    /// Where the definitions lay that the manager had loaded at that moment.
    pub loaded: Text,
}

/// One call: a derived drop is proved anew in each function that lets one go.
impl Drop for Entry {
    fn drop(self) {
        let Entry {
            unit: _,
            act: _,
            loaded: _,
        } = self;
    }
}

/// A unit that fails when it is started under these definitions.
pub struct Bad {
    /// Where the definitions lie.
    pub loaded: Text,
    /// The unit that fails.
    pub unit: UnitName,
}

/// One call: a derived drop is proved anew in each function that lets one go.
impl Drop for Bad {
    fn drop(self) {
        let Bad { loaded: _, unit: _ } = self;
    }
}

impl Entry {
    /// An equal entry.
    pub fn copy(&self, alloc: Global) -> Result<Entry, AllocError>
        ensures { IfOk result (λ copied. copied ≡ self.now) }
    {
        Ok(Entry {
            unit: self.unit.copy(alloc)?,
            act: self.act,
            loaded: self.loaded.copy(alloc)?,
        })
    }
}

impl Bad {
    /// An equal one.
    pub fn copy(&self, alloc: Global) -> Result<Bad, AllocError>
        ensures { IfOk result (λ copied. copied ≡ self.now) }
    {
        Ok(Bad {
            loaded: self.loaded.copy(alloc)?,
            unit: self.unit.copy(alloc)?,
        })
    }
}
