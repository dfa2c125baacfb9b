//! The service manager that a host lends a run.
ghost use Rattle.std.specs.Prelude.{◌≡◌, IfOk, OnOk};
ghost use Rattle.host_trait.specs.declared.entry.Act.TheVariants.{Stop, Reload, Restart, Start};
ghost use Rattle.host_trait.specs.declared.unit_state.State.TheVariants.{Active};
ghost use Rattle.host_trait.specs.Change.{finished, IsMoment};
ghost use Rattle.host_trait.specs.Change.{Perform, DaemonReload};
ghost use Rattle.host_trait.specs.Host.{Told, Becomes, Passes, HasCause};
ghost use Rattle.host_trait.specs.Reading.{IsReading};
ghost use Rattle.host_trait.specs.States.{state_of};

use crate::states::States;
use crate::tree::{HostFault, Tree};
use std::alloc::Global;
use switch_names::{Text, UnitName};

/// A service manager beside a tree: one world and one clock for both, since a cut takes both at once.
///
/// Each finished act on a unit is entered in the journal with the definitions that are loaded at that
/// moment. A call that fails leaves a world that a cut within it may leave.
pub trait Manager: Tree {
    /// The units that aren't inactive, with their states.
    fn units(&mut self, alloc: Global) -> Result<States, HostFault>
        ensures states { IfOk result (λ states. Told (Self.host self.old) (λ w. states ≡ w.manager.states)) }
        ensures reads { IsReading (Self.host self.old) (Self.host self.new) result };

    /// Where the definitions lie that the manager has loaded.
    fn loaded(&mut self, alloc: Global) -> Result<Text, HostFault>
        ensures loaded { IfOk result (λ text. Told (Self.host self.old) (λ w. text ≡ w.manager.loaded)) }
        ensures reads { IsReading (Self.host self.old) (Self.host self.new) result };

    /// Stops a unit.
    fn stop(&mut self, alloc: Global, unit: &UnitName) -> Result<(), HostFault>
        ensures ok { OnOk result (Becomes (Self.host self.old) (Self.host self.new) (finished (Perform Stop unit.now))) }
        ensures moments { Passes (Self.host self.old) (Self.host self.new) (IsMoment (Perform Stop unit.now)) }
        ensures cause { HasCause (Self.host self.old) (Self.host self.new) result };

    /// Starts a unit, where it isn't active yet. It fails where it is bad under the definitions that are loaded.
    fn start(&mut self, alloc: Global, unit: &UnitName) -> Result<(), HostFault>
        ensures ok { OnOk result (Becomes (Self.host self.old) (Self.host self.new) (finished (Perform Start unit.now))) }
        ensures moments { Passes (Self.host self.old) (Self.host self.new) (IsMoment (Perform Start unit.now)) }
        ensures cause { HasCause (Self.host self.old) (Self.host self.new) result };

    /// Stops a unit and starts it. A cut may leave it stopped, without an entry.
    fn restart(&mut self, alloc: Global, unit: &UnitName) -> Result<(), HostFault>
        ensures ok { OnOk result (Becomes (Self.host self.old) (Self.host self.new) (finished (Perform Restart unit.now))) }
        ensures moments { Passes (Self.host self.old) (Self.host self.new) (IsMoment (Perform Restart unit.now)) }
        ensures cause { HasCause (Self.host self.old) (Self.host self.new) result };

    /// Tells an active unit to read its configuration anew.
    fn reload(&mut self, alloc: Global, unit: &UnitName) -> Result<(), HostFault>
        requires { Told (Self.host self.old) (λ w. state_of w.manager.states unit.now ≡ Active) }
        ensures ok { OnOk result (Becomes (Self.host self.old) (Self.host self.new) (finished (Perform Reload unit.now))) }
        ensures moments { Passes (Self.host self.old) (Self.host self.new) (IsMoment (Perform Reload unit.now)) }
        ensures cause { HasCause (Self.host self.old) (Self.host self.new) result };

    /// Loads the definitions to which the link at `etc/static` leads.
    fn daemon_reload(&mut self, alloc: Global) -> Result<(), HostFault>
        ensures ok { OnOk result (Becomes (Self.host self.old) (Self.host self.new) (finished DaemonReload)) }
        ensures moments { Passes (Self.host self.old) (Self.host self.new) (IsMoment DaemonReload) }
        ensures cause { HasCause (Self.host self.old) (Self.host self.new) result };
}
