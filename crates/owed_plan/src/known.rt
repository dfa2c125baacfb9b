//! What is read to plan a switch.
ghost use Rattle.std.specs.Prelude.{◌≡◌, ◌&&◌, IfOk};
ghost use Rattle.host_trait.specs.Manager.{is_active};
ghost use Rattle.owed_plan.specs.Collected.{is_socketed};
ghost use Rattle.owed_plan.specs.Decisions.{is_live_socket, situation_of};

use host_trait::{States, UnitSet};
use std::alloc::{AllocError, Global};
use switch_names::{Listed, UnitName};
use unit_decide::{Facts, is_service, sockets};
use unit_defs::Defs;

/// What is read to plan a switch: both systems, the states, and the units that wait for a start.
#[derive(Clone, Copy)]
pub struct Inputs<'a> {
    pub old: &'a Defs,
    pub new: &'a Defs,
    pub states: &'a States,
    pub waiting: &'a UnitSet,
}

impl Inputs<'_> {
    /// What the table of decisions reads of a unit.
    pub fn facts(self, unit: &UnitName) -> Facts
        ensures { result ≡ (situation_of self.entry).systems.facts unit.now }
    {
        Facts::of(self.old.find(unit), self.new.find(unit), unit)
    }

    /// Whether the new system defines a unit.
    pub fn is_defined(self, unit: &UnitName) -> bool
        ensures { result ≡ ((situation_of self.entry).systems.facts unit.now).in_new }
    {
        self.new.find(unit).is_some()
    }

    /// Whether a unit is Active.
    pub fn is_active(self, unit: &UnitName) -> bool
        ensures { result ≡ is_active ((situation_of self.entry).states unit.now) }
    {
        self.states.of(unit).is_active()
    }

    /// Whether a socket that the new system defines is Active or waits for a start.
    pub fn is_live_socket(self, socket: &UnitName) -> bool
        ensures { result ≡ is_live_socket (situation_of self.entry) socket.now }
    {
        let waits = self.waiting.contains(socket);
        self.is_defined(socket) && (self.is_active(socket) || waits)
    }

    /// The sockets that a unit is paired with.
    pub fn sockets(self, alloc: Global, unit: &UnitName) -> Result<Listed<UnitName>, AllocError>
        ensures { IfOk result (λ sockets. sockets ≡ (situation_of self.entry).systems.sockets unit.now) }
    {
        match self.new.find(unit) {
            Some(text) => sockets(alloc, text, unit),
            None => Ok(Listed::new(alloc)),
        }
    }

    /// Whether a unit is a service with a socket that the new system defines.
    pub fn is_socketed(self, alloc: Global, unit: &UnitName) -> Result<bool, AllocError>
        ensures { IfOk result (λ is. is ≡ is_socketed (situation_of self.entry).systems unit.now) }
    {
        if !is_service(unit.kind()) {
            return Ok(false);
        }
        let sockets = self.sockets(alloc, unit)?;
        for socket in sockets.as_slice() {
            if self.is_defined(socket) {
                return Ok(true);
            }
        }
        Ok(false)
    }
}
