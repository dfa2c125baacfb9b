//! A host that keeps its world in memory.
ghost use Rattle.std.specs.Prelude.{length};
ghost use Rattle.std.specs.Option.{ForSome};
ghost use Rattle.host_memory.specs.Troubles.{IsWithin};

use crate::changing_call::ChangingCall;
use crate::cuts::cut_call;
use crate::history::History;
use crate::troubles::Troubles;
use host_trait::{Act, HostFault, Leaf, Manager, States, Tree, World};
use std::alloc::{AllocError, Global};
use switch_names::{Listed, Path, Text, UnitName};

/// A host in memory, with a record of the calls that changed its world. It fails where it is told to.
pub struct MemoryHost {
    pub(crate) history: History,
    pub(crate) troubles: Troubles,
    ghost within: { ForSome troubles.cut (λ cut. IsWithin cut (length history.calls.items)) },
}

/// One call: a derived drop is proved anew in each function that lets one go.
impl Drop for MemoryHost {
    fn drop(self) {
        let MemoryHost {
            history: _,
            troubles: _,
        } = self;
    }
}

impl MemoryHost {
    ghost use Rattle.std.specs.Prelude.{◌≡◌, ◌+◌, ◌&&◌, [], None, Some, OnErr, OnOk, IsTrue, is_none, false};
    ghost use Rattle.host_memory.specs.MemoryHost.{IsStill, Keeps, host_of, troubles_of};
    ghost use Rattle.host_memory.specs.Reboots.{IsRebooted};
    ghost use Rattle.host_memory.specs.Troubles.{armed, is_empty};
    ghost use Rattle.host_trait.specs.Change.{IsSame};
    ghost use Rattle.host_trait.specs.Host.{Leads, Passes};

    /// A host with this world, on which nothing fails.
    pub fn new(alloc: Global, world: World) -> MemoryHost
        ensures world { (host_of result).world ≡ Some world }
        ensures clock { (host_of result).clock ≡ 0 }
        ensures last { (host_of result).last ≡ None }
        ensures faults { (host_of result).faults ≡ 0 }
        ensures sure { IsTrue (host_of result).is_sure }
        ensures troubles { troubles_of result ≡ record { cut = None; failing = []; next = 0; faults = 0; calls = 0; changes = 0 } }
    {
        MemoryHost {
            history: History::new(alloc, world),
            troubles: Troubles::new(alloc),
        }
    }

    /// Its world.
    pub fn world(&self) -> &World
        ensures { (host_of self.now).world ≡ Some result.now }
    {
        self.history.world()
    }

    /// How many calls have failed.
    pub fn faults(&self) -> u64
        ensures { result ≡ (host_of self.now).faults }
    {
        self.troubles.faults()
    }

    /// How many calls of its traits it has had since it was made, those among them that failed.
    pub fn calls(&self) -> u64
        ensures { result ≡ (troubles_of self.now).calls }
    {
        self.troubles.calls()
    }

    /// How many changing calls have answered `Ok` since it was made.
    pub fn changes(&self) -> u64
        ensures { result ≡ (troubles_of self.now).changes }
    {
        self.troubles.changes()
    }

    /// Its world, of which no record is kept any more.
    pub fn into_world(self) -> World
        ensures { (host_of self).world ≡ Some result }
    {
        let MemoryHost {
            history,
            troubles: _,
        } = self;
        history.into_world()
    }

    /// Reboots its world, takes back what `arm` and `fail` have done, and begins its record anew.
    ///
    /// An odd `pick` leaves an empty file at the stage, where nothing stands above or below it.
    pub fn reboot(&mut self, alloc: Global, pick: u64) -> Result<(), AllocError>
        ensures world { OnOk result (Leads (host_of self.old) (host_of self.new) (IsRebooted pick)) }
        ensures clock { OnOk result ((host_of self.new).clock ≡ 0) }
        ensures last { OnOk result ((host_of self.new).last ≡ None) }
        ensures sure { OnOk result (IsTrue (host_of self.new).is_sure) }
        ensures troubles { OnOk result (troubles_of self.new ≡ record (troubles_of self.old) { cut = None; failing = []; next = 0 }) }
        ensures err { OnErr result (Keeps self.old self.new (troubles_of self.old)) }
        ensures err_moments { OnErr result (Passes (host_of self.old) (host_of self.new) IsSame) }
    {
        self.history.reboot(alloc, pick)?;
        self.troubles.clear();
        Ok(())
    }

    /// Cuts the next changing call after so many more that finish.
    ///
    /// The cut leaves what `pick` gives of that call, which answers `Device`, as does each call
    /// after it until `revive`.
    pub fn arm(&mut self, after: u64, pick: u64)
        ensures world { (host_of self.new).world ≡ (host_of self.old).world }
        ensures moments { Passes (host_of self.old) (host_of self.new) IsSame }
        ensures clock { (host_of self.new).clock ≡ (host_of self.old).clock }
        ensures last { (host_of self.new).last ≡ Some ((host_of self.old).clock + after + 1) }
        ensures faults { (host_of self.new).faults ≡ (host_of self.old).faults }
        ensures sure { (host_of self.new).is_sure ≡ false }
        ensures still { IsStill self.old self.new }
        ensures troubles { troubles_of self.new ≡ record (troubles_of self.old) { cut = Some (armed (troubles_of self.old).cut (host_of self.old).clock after pick) } }
    {
        self.troubles.arm(self.history.clock(), after, pick);
    }

    /// Fails the calls with these numbers, where the next call has the number 0.
    ///
    /// A call that fails so does nothing and answers `Device`.
    pub fn fail(&mut self, calls: Listed<u64>)
        ensures world { (host_of self.new).world ≡ (host_of self.old).world }
        ensures moments { Passes (host_of self.old) (host_of self.new) IsSame }
        ensures clock { (host_of self.new).clock ≡ (host_of self.old).clock }
        ensures last { (host_of self.new).last ≡ (host_of self.old).last }
        ensures faults { (host_of self.new).faults ≡ (host_of self.old).faults }
        ensures sure { (host_of self.new).is_sure ≡ (is_none (host_of self.old).last && is_empty calls) }
        ensures still { IsStill self.old self.new }
        ensures troubles { troubles_of self.new ≡ record (troubles_of self.old) { failing = calls; next = 0 } }
    {
        self.troubles.fail(calls);
    }

    /// Takes back what `arm` and `fail` have done.
    pub fn revive(&mut self)
        ensures world { (host_of self.new).world ≡ (host_of self.old).world }
        ensures moments { Passes (host_of self.old) (host_of self.new) IsSame }
        ensures clock { (host_of self.new).clock ≡ (host_of self.old).clock }
        ensures last { (host_of self.new).last ≡ None }
        ensures faults { (host_of self.new).faults ≡ (host_of self.old).faults }
        ensures sure { IsTrue (host_of self.new).is_sure }
        ensures still { IsStill self.old self.new }
        ensures troubles { troubles_of self.new ≡ record (troubles_of self.old) { cut = None; failing = []; next = 0 } }
    {
        self.troubles.clear();
    }
}

impl Tree for MemoryHost {
    ghost use Rattle.std.specs.Prelude.{◌≡◌, ◌≢◌, ◌<◌, [], length, ◌↔◌, Ok, IfOk, OnOk, IsErrOf, IsSome, IsTrue};
    ghost use Rattle.std.specs.FinMap.{get};
    ghost use Rattle.host_memory.specs.Laws.{memory_is_host};
    ghost use Rattle.host_memory.specs.MemoryHost.{Does, GoesBeside, IsStill, after_read, host_of, is_refusing, troubles_of, verdict};
    ghost use Rattle.host_trait.specs.Change.{finished, IsMoment, Stage, Rename, Remove, Append};
    ghost use Rattle.host_trait.specs.declared.tree.HostFault.TheVariants.{Device};
    ghost use Rattle.host_trait.specs.Host.{Told, Becomes, Passes, HasCause};
    ghost use Rattle.host_trait.specs.Reading.{IsReading};
    ghost use Rattle.host_trait.specs.Waiting.{StaysWithin};
    ghost use Rattle.host_trait.specs.World.{AreTops, IsClear, IsFileAt, listed, stage};

    ghost host = { host_of };

    ghost waiting = { λ host. [] };

    fn read(&mut self, alloc: Global, at: &Path) -> Result<Option<Leaf>, HostFault>
        ensures device { IsErrOf result Device ↔ IsTrue (is_refusing self.old) }
        ensures troubles { troubles_of self.new ≡ after_read self.old }
        ensures leaf { IfOk result (λ leaf. Told (host_of self.old) (λ w. leaf ≡ get w.leaves at.now)) }
        ensures same { Becomes (host_of self.old) (host_of self.new) (λ w. w) }
        ensures still { IsStill self.old self.new }
        ensures reads { IsReading (host_of self.old) (host_of self.new) result }
        ensures waits { StaysWithin [] [] }
    {
        self.troubles.admit()?;
        match self.history.world().leaf(at) {
            Some(leaf) => Ok(Some(leaf.copy(alloc)?)),
            None => Ok(None),
        }
    }

    fn list(&mut self, alloc: Global, under: &Path) -> Result<Listed<Path>, HostFault>
        ensures device { IsErrOf result Device ↔ IsTrue (is_refusing self.old) }
        ensures troubles { troubles_of self.new ≡ after_read self.old }
        ensures paths { IfOk result (λ paths. Told (host_of self.old) (λ w. paths ≡ listed under.now w.leaves)) }
        ensures same { Becomes (host_of self.old) (host_of self.new) (λ w. w) }
        ensures still { IsStill self.old self.new }
        ensures reads { IsReading (host_of self.old) (host_of self.new) result }
        ensures waits { StaysWithin [] [] }
    {
        self.troubles.admit()?;
        Ok(self.history.world().list(alloc, under)?)
    }

    fn tops(&mut self, alloc: Global) -> Result<Listed<Path>, HostFault>
        ensures device { IsErrOf result Device ↔ IsTrue (is_refusing self.old) }
        ensures troubles { troubles_of self.new ≡ after_read self.old }
        ensures tops { IfOk result (λ tops. Told (host_of self.old) (λ w. AreTops w.leaves tops)) }
        ensures same { Becomes (host_of self.old) (host_of self.new) (λ w. w) }
        ensures still { IsStill self.old self.new }
        ensures reads { IsReading (host_of self.old) (host_of self.new) result }
        ensures waits { StaysWithin [] [] }
    {
        self.troubles.admit()?;
        Ok(self.history.world().tops(alloc)?)
    }

    /// A world in memory outlasts no loss of power, so this does nothing.
    fn sync(&mut self, _alloc: Global) -> Result<(), HostFault>
        ensures ok { result ≡ Ok tt }
        ensures troubles { troubles_of self.new ≡ troubles_of self.old }
        ensures same { Becomes (host_of self.old) (host_of self.new) (λ w. w) }
        ensures still { IsStill self.old self.new }
        ensures reads { IsReading (host_of self.old) (host_of self.new) result }
        ensures waits { StaysWithin [] [] }
    {
        Ok(())
    }

    fn write_stage(&mut self, alloc: Global, leaf: &Leaf) -> Result<(), HostFault>
        requires { Told (host_of self.old) (λ w. IsClear w.leaves stage) }
        ensures does { Does (Stage leaf.now) (verdict self.old) self.old self.new result }
        ensures ok { OnOk result (Becomes (host_of self.old) (host_of self.new) (finished (Stage leaf.now))) }
        ensures moments { Passes (host_of self.old) (host_of self.new) (IsMoment (Stage leaf.now)) }
        ensures beside { GoesBeside (Stage leaf.now) self.old self.new }
        ensures cause { HasCause (host_of self.old) (host_of self.new) result }
        ensures waits { StaysWithin [] [] }
    {
        self.change(alloc, ChangingCall::Stage(leaf))
    }

    fn rename_stage(&mut self, alloc: Global, to: &Path) -> Result<(), HostFault>
        requires staged { Told (host_of self.old) (λ w. IsSome (get w.leaves stage)) }
        requires clear { Told (host_of self.old) (λ w. IsClear w.leaves to.now) }
        requires other { to.now ≢ stage }
        ensures does { Does (Rename to.now) (verdict self.old) self.old self.new result }
        ensures ok { OnOk result (Becomes (host_of self.old) (host_of self.new) (finished (Rename to.now))) }
        ensures moments { Passes (host_of self.old) (host_of self.new) (IsMoment (Rename to.now)) }
        ensures beside { GoesBeside (Rename to.now) self.old self.new }
        ensures cause { HasCause (host_of self.old) (host_of self.new) result }
        ensures waits { StaysWithin [] [] }
    {
        self.change(alloc, ChangingCall::Rename(to))
    }

    fn remove(&mut self, alloc: Global, at: &Path) -> Result<(), HostFault>
        ensures does { Does (Remove at.now) (verdict self.old) self.old self.new result }
        ensures ok { OnOk result (Becomes (host_of self.old) (host_of self.new) (finished (Remove at.now))) }
        ensures moments { Passes (host_of self.old) (host_of self.new) (IsMoment (Remove at.now)) }
        ensures beside { GoesBeside (Remove at.now) self.old self.new }
        ensures cause { HasCause (host_of self.old) (host_of self.new) result }
        ensures waits { StaysWithin [] [] }
    {
        self.change(alloc, ChangingCall::Remove(at))
    }

    fn append(&mut self, alloc: Global, at: &Path, bytes: &[u8]) -> Result<(), HostFault>
        requires file { Told (host_of self.old) (λ w. IsFileAt w.leaves at.now) }
        requires other { at.now ≢ stage }
        requires some { 0 < length bytes.now }
        ensures does { Does (Append at.now bytes.now) (verdict self.old) self.old self.new result }
        ensures ok { OnOk result (Becomes (host_of self.old) (host_of self.new) (finished (Append at.now bytes.now))) }
        ensures moments { Passes (host_of self.old) (host_of self.new) (IsMoment (Append at.now bytes.now)) }
        ensures beside { GoesBeside (Append at.now bytes.now) self.old self.new }
        ensures cause { HasCause (host_of self.old) (host_of self.new) result }
        ensures waits { StaysWithin [] [] }
    {
        self.change(alloc, ChangingCall::Append(at, bytes))
    }

    ghost is_host = { memory_is_host };
}

impl MemoryHost {
    ghost use Rattle.std.specs.Prelude.{OnOk};
    ghost use Rattle.host_memory.specs.ChangingCall.{CanHappen, change_of};
    ghost use Rattle.host_memory.specs.History.{IsOfTree};
    ghost use Rattle.host_memory.specs.MemoryHost.{Does, GoesBeside, host_of, verdict};
    ghost use Rattle.host_trait.specs.Change.{finished, IsMoment};
    ghost use Rattle.host_trait.specs.Host.{Becomes, HasCause, Passes};

    /// Makes a changing call, or fails, or is cut.
    fn change(&mut self, alloc: Global, call: ChangingCall) -> Result<(), HostFault>
        requires { CanHappen (change_of call) self.old.history.world }
        ensures beside { IsOfTree (change_of call.entry) → GoesBeside (change_of call.entry) self.old self.new }
        ensures does { Does (change_of call.entry) (verdict self.old) self.old self.new result }
        ensures ok { OnOk result (Becomes (host_of self.old) (host_of self.new) (finished (change_of call.entry))) }
        ensures moments { Passes (host_of self.old) (host_of self.new) (IsMoment (change_of call.entry)) }
        ensures cause { HasCause (host_of self.old) (host_of self.new) result }
    {
        self.troubles.admit()?;
        match self.troubles.due(self.history.clock()) {
            None => {
                self.history.make(alloc, call)?;
                self.troubles.finish();
                Ok(())
            }
            Some(cut) => {
                cut_call(&mut self.history, alloc, call, cut.pick)?;
                Err(self.troubles.fall(cut))
            }
        }
    }
}

impl Manager for MemoryHost {
    ghost use Rattle.std.specs.Prelude.{◌≡◌, ◌↔◌, IfOk, OnOk, IsErrOf, IsTrue};
    ghost use Rattle.host_memory.specs.MemoryHost.{Does, IsStill, after_read, host_of, is_refusing, troubles_of, verdict};
    ghost use Rattle.host_trait.specs.Change.{finished, IsMoment, Perform, DaemonReload};
    ghost use Rattle.host_trait.specs.declared.entry.Act.TheVariants.{Stop, Reload, Restart, Start};
    ghost use Rattle.host_trait.specs.declared.tree.HostFault.TheVariants.{Device};
    ghost use Rattle.host_trait.specs.declared.unit_state.State.TheVariants.{Active};
    ghost use Rattle.host_trait.specs.Host.{Told, Becomes, Passes, HasCause};
    ghost use Rattle.host_trait.specs.Reading.{IsReading};
    ghost use Rattle.host_trait.specs.States.{state_of};

    fn units(&mut self, alloc: Global) -> Result<States, HostFault>
        ensures device { IsErrOf result Device ↔ IsTrue (is_refusing self.old) }
        ensures troubles { troubles_of self.new ≡ after_read self.old }
        ensures states { IfOk result (λ states. Told (host_of self.old) (λ w. states ≡ w.manager.states)) }
        ensures still { IsStill self.old self.new }
        ensures reads { IsReading (host_of self.old) (host_of self.new) result }
    {
        self.troubles.admit()?;
        Ok(self.history.world().states().copy(alloc)?)
    }

    fn loaded(&mut self, alloc: Global) -> Result<Text, HostFault>
        ensures device { IsErrOf result Device ↔ IsTrue (is_refusing self.old) }
        ensures troubles { troubles_of self.new ≡ after_read self.old }
        ensures loaded { IfOk result (λ text. Told (host_of self.old) (λ w. text ≡ w.manager.loaded)) }
        ensures still { IsStill self.old self.new }
        ensures reads { IsReading (host_of self.old) (host_of self.new) result }
    {
        self.troubles.admit()?;
        Ok(self.history.world().loaded().copy(alloc)?)
    }

    fn stop(&mut self, alloc: Global, unit: &UnitName) -> Result<(), HostFault>
        ensures does { Does (Perform Stop unit.now) (verdict self.old) self.old self.new result }
        ensures ok { OnOk result (Becomes (host_of self.old) (host_of self.new) (finished (Perform Stop unit.now))) }
        ensures moments { Passes (host_of self.old) (host_of self.new) (IsMoment (Perform Stop unit.now)) }
        ensures cause { HasCause (host_of self.old) (host_of self.new) result }
    {
        self.change(alloc, ChangingCall::Perform(Act::Stop, unit))
    }

    fn start(&mut self, alloc: Global, unit: &UnitName) -> Result<(), HostFault>
        ensures does { Does (Perform Start unit.now) (verdict self.old) self.old self.new result }
        ensures ok { OnOk result (Becomes (host_of self.old) (host_of self.new) (finished (Perform Start unit.now))) }
        ensures moments { Passes (host_of self.old) (host_of self.new) (IsMoment (Perform Start unit.now)) }
        ensures cause { HasCause (host_of self.old) (host_of self.new) result }
    {
        self.change(alloc, ChangingCall::Perform(Act::Start, unit))
    }

    fn restart(&mut self, alloc: Global, unit: &UnitName) -> Result<(), HostFault>
        ensures does { Does (Perform Restart unit.now) (verdict self.old) self.old self.new result }
        ensures ok { OnOk result (Becomes (host_of self.old) (host_of self.new) (finished (Perform Restart unit.now))) }
        ensures moments { Passes (host_of self.old) (host_of self.new) (IsMoment (Perform Restart unit.now)) }
        ensures cause { HasCause (host_of self.old) (host_of self.new) result }
    {
        self.change(alloc, ChangingCall::Perform(Act::Restart, unit))
    }

    fn reload(&mut self, alloc: Global, unit: &UnitName) -> Result<(), HostFault>
        requires { Told (host_of self.old) (λ w. state_of w.manager.states unit.now ≡ Active) }
        ensures does { Does (Perform Reload unit.now) (verdict self.old) self.old self.new result }
        ensures ok { OnOk result (Becomes (host_of self.old) (host_of self.new) (finished (Perform Reload unit.now))) }
        ensures moments { Passes (host_of self.old) (host_of self.new) (IsMoment (Perform Reload unit.now)) }
        ensures cause { HasCause (host_of self.old) (host_of self.new) result }
    {
        self.change(alloc, ChangingCall::Perform(Act::Reload, unit))
    }

    fn daemon_reload(&mut self, alloc: Global) -> Result<(), HostFault>
        ensures does { Does DaemonReload (verdict self.old) self.old self.new result }
        ensures ok { OnOk result (Becomes (host_of self.old) (host_of self.new) (finished DaemonReload)) }
        ensures moments { Passes (host_of self.old) (host_of self.new) (IsMoment DaemonReload) }
        ensures cause { HasCause (host_of self.old) (host_of self.new) result }
    {
        self.change(alloc, ChangingCall::DaemonReload)
    }
}
