//! The commands.
ghost use Rattle.std.specs.Prelude.{◌≡◌, ◌↔◌, IfOk, IsTrue};
ghost use Rattle.switch_engine.specs.Commands.{IsQuery};

use std::alloc::{AllocError, Global};
use switch_names::SystemName;

/// What a run is asked to do.
#[derive(Debug, Drop)]
pub enum Command {
    /// Makes a generation for a system, points the profile to it, makes the boot menu, and switches the
    /// accounts, `/etc` and the units to it.
    Switch(SystemName),
    /// Switches the accounts, `/etc` and the units to a system, and leaves the profile and the boot menu
    /// as they are.
    Test(SystemName),
    /// Makes a generation for a system, points the profile to it, and makes the boot menu, for the next
    /// boot.
    Boot(SystemName),
    /// Puts the report of a `test` of a system, on its units, accounts and `/etc`, and changes nothing.
    DryActivate(SystemName),
    /// Points the profile back to a generation, makes the boot menu, and switches the accounts, `/etc` and
    /// the units to the system of that generation: the one whose number is recorded by a rollback that was
    /// cut, else the one before the current one.
    Rollback,
    /// Does as the machine starts up what a `test` does of the system that the profile names, and starts
    /// `multi-user.target` with what that wants.
    StartUp,
}

impl Command {
    /// Whether the command changes nothing.
    pub fn is_query(&self) -> bool
        ensures { IsTrue result ↔ IsQuery self.now }
    {
        match self {
            Command::Switch(_)
            | Command::Test(_)
            | Command::Boot(_)
            | Command::Rollback
            | Command::StartUp => false,
            Command::DryActivate(_) => true,
        }
    }

    /// An equal command.
    pub fn copy(&self, alloc: Global) -> Result<Command, AllocError>
        ensures { IfOk result (λ command. command ≡ self.now) }
    {
        match self {
            Command::Switch(system) => Ok(Command::Switch(system.copy(alloc)?)),
            Command::Test(system) => Ok(Command::Test(system.copy(alloc)?)),
            Command::Boot(system) => Ok(Command::Boot(system.copy(alloc)?)),
            Command::DryActivate(system) => Ok(Command::DryActivate(system.copy(alloc)?)),
            Command::Rollback => Ok(Command::Rollback),
            Command::StartUp => Ok(Command::StartUp),
        }
    }
}
