//! What a device that queues acts makes of a host in memory: an act is entered at once, and takes effect later.
ghost use Rattle.std.specs.Prelude.{◌≡◌, ◌⊎◌, ◌↔◌, OnErr, OnOk, IsErrOf, IsTrue};
ghost use Rattle.host_memory.specs.MemoryHost.{HasEntered, IsStill, TakesEffect, after_read, clock_of, host_of, is_refusing, troubles_of};
ghost use Rattle.host_trait.specs.declared.tree.HostFault.TheVariants.{Device};
ghost use Rattle.host_trait.specs.Host.{HasCause};
ghost use Rattle.host_trait.specs.Reading.{IsReading};

use crate::cuts::cut_enter;
use crate::memory_host::MemoryHost;
use host_trait::{Act, HostFault};
use std::alloc::{AllocError, Global};
use switch_names::UnitName;

impl MemoryHost {
    /// How many calls are in its record.
    pub fn clock(&self) -> usize
        ensures { result ≡ clock_of self.now }
    {
        self.history.clock()
    }

    /// Counts a call that changes nothing, and fails it where that is due.
    pub fn admit(&mut self) -> Result<(), HostFault>
        ensures device { IsErrOf result Device ↔ IsTrue (is_refusing self.old) }
        ensures troubles { troubles_of self.new ≡ after_read self.old }
        ensures still { IsStill self.old self.new }
        ensures reads { IsReading (host_of self.old) (host_of self.new) result }
    {
        self.troubles.admit()?;
        Ok(())
    }

    /// Enters an act in the journal, which has no effect yet. A cut leaves it entered or not.
    ///
    /// It counts as a changing call, and in its record as an act that has had its effect.
    pub fn enter(&mut self, alloc: Global, act: Act, unit: &UnitName) -> Result<(), HostFault>
        ensures ok { OnOk result (HasEntered act unit.now self.old self.new) }
        ensures moments { IsStill self.old self.new ⊎ HasEntered act unit.now self.old self.new }
        ensures cause { HasCause (host_of self.old) (host_of self.new) result }
    {
        self.troubles.admit()?;
        match self.troubles.due(self.history.clock()) {
            None => {
                self.history.enter(alloc, act, unit)?;
                self.troubles.finish();
                Ok(())
            }
            Some(cut) => {
                cut_enter(&mut self.history, alloc, act, unit, cut.pick)?;
                Err(self.troubles.fall(cut))
            }
        }
    }

    /// Has an act take effect that was entered before. It is no call, and no item of the record.
    pub fn take_effect(
        &mut self,
        alloc: Global,
        act: Act,
        unit: &UnitName,
    ) -> Result<(), AllocError>
        ensures ok { OnOk result (TakesEffect act unit.now self.old self.new) }
        ensures err { OnErr result (IsStill self.old self.new) }
        ensures troubles { troubles_of self.new ≡ troubles_of self.old }
    {
        self.history.take_effect(alloc, act, unit)
    }
}
