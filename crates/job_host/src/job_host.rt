//! A host over a device whose jobs end later.
ghost use Rattle.std.specs.Prelude.{◌≡◌, [], false, None, Some, IfOk, OnOk, IsErrOf, IsTrue};
ghost use Rattle.host_trait.specs.declared.tree.HostFault.TheVariants.{Device};
ghost use Rattle.std.specs.Option.{ForSome};
ghost use Rattle.host_trait.specs.Reading.{IsReading};
ghost use Rattle.host_trait.specs.Waiting.{StaysWithin};
ghost use Rattle.job_host.specs.Jobs.{AddsAtMost, IsAmong, IsSubmitMoment};
ghost use Rattle.switch_names.specs.Names.{Name, has};

use crate::jobs::Jobs;
use host_trait::{Act, HostFault, Leaf, Manager, States, Tree, UnitSet};
use std::alloc::Global;
use switch_names::{Listed, Path, Text, UnitName};

/// A manager over a device whose jobs end later.
///
/// Its world is the one in which each job has ended. It waits for the end of all of them before whatever could tell
/// that one hasn't ended: before its first act, before an act on a unit of which a job may wait, before the states of
/// units are read or definitions are loaded, before each call that changes the tree, and before it has what was
/// changed kept beyond a loss of power.
pub struct JobHost<J: Jobs> {
    pub(crate) device: J,
    pub(crate) submitted: Option<UnitSet>,
    ghost known: { ForSome submitted (IsAmong (J.waiting device)) },
}

/// One call: a derived drop is proved anew in each function that lets one go.
impl<J: Jobs + Drop> Drop for JobHost<J> {
    fn drop(self) {
        let JobHost {
            device: _,
            submitted: _,
        } = self;
    }
}

impl<J: Jobs> JobHost<J> {
    /// A host over a device of whose queue nothing is known.
    pub fn new(device: J) -> JobHost<J>
        ensures { result.device ≡ device }
    {
        JobHost {
            device,
            submitted: None,
        }
    }

    /// The device.
    pub fn device(&self) -> &J
        ensures { result.now ≡ self.now.device }
    {
        &self.device
    }

    /// Waits for the end of each job.
    pub fn finish(&mut self, alloc: Global) -> Result<(), HostFault>
        ensures none { OnOk result (J.waiting self.new.device ≡ []) }
        ensures clock { (J.host self.new.device).clock ≡ (J.host self.old.device).clock }
        ensures known { OnOk result (self.new.submitted ≡ Some []) }
        ensures waits { StaysWithin (J.waiting self.old.device) (J.waiting self.new.device) }
        ensures reads { IsReading (J.host self.old.device) (J.host self.new.device) result }
    {
        self.device.settle(alloc)?;
        self.submitted = Some(UnitSet::new(alloc));
        Ok(())
    }
}

impl<J: Jobs> JobHost<J> {
    ghost use Rattle.std.specs.Prelude.{◌⊎◌, ◌∷◌};
    ghost use Rattle.host_trait.specs.declared.entry.Act.TheVariants.{Reload};
    ghost use Rattle.host_trait.specs.declared.unit_state.State.TheVariants.{Active};
    ghost use Rattle.host_trait.specs.Change.{finished, IsMoment, Perform};
    ghost use Rattle.host_trait.specs.Host.{Told, Becomes, Passes, HasCause};
    ghost use Rattle.host_trait.specs.States.{state_of};

    /// Whether a job on a unit may wait.
    fn may_wait(&self, unit: &UnitName) -> bool
        ensures { result ≡ false → has (J.waiting self.now.device) unit.now ≡ false }
    {
        match &self.submitted {
            Some(submitted) => submitted.contains(unit),
            None => true,
        }
    }

    /// Waits where a job on a unit may wait.
    fn make_way(&mut self, alloc: Global, unit: &UnitName) -> Result<(), HostFault>
        ensures free { OnOk result (has (J.waiting self.new.device) unit.now ≡ false) }
        ensures reads { IsReading (J.host self.old.device) (J.host self.new.device) result }
    {
        if self.may_wait(unit) {
            self.finish(alloc)?;
        }
        Ok(())
    }

    /// Remembers that a job on a unit may wait.
    fn note(&mut self, unit: UnitName) -> Result<(), HostFault>
        ensures device { self.new.device ≡ self.old.device }
        ensures noted { OnOk result (ForSome self.new.submitted (λ set. IsTrue (has set unit))) }
        ensures memory { IsErrOf result Device → ⊥ }
    {
        if let Some(submitted) = &mut self.submitted {
            submitted.insert(unit)?;
        }
        Ok(())
    }

    /// Queues an act on a unit of which no job waits.
    fn submit(&mut self, alloc: Global, act: Act, unit: &UnitName) -> Result<(), HostFault>
        requires free { has (J.waiting self.old.device) unit.now ≡ false }
        requires noted { ForSome self.old.submitted (λ set. IsTrue (has set unit.now)) }
        requires active { act ≡ Reload → Told (J.host self.old.device) (λ w. state_of w.manager.states unit.now ≡ Active) }
        ensures ok { OnOk result (Becomes (J.host self.old.device) (J.host self.new.device) (finished (Perform act unit.now))) }
        ensures moments { Passes (J.host self.old.device) (J.host self.new.device) (IsSubmitMoment act unit.now) }
        ensures cause { HasCause (J.host self.old.device) (J.host self.new.device) result }
    {
        self.device.submit(alloc, act, unit)
    }

    /// Does an act, whose job may wait afterwards.
    fn act(&mut self, alloc: Global, act: Act, unit: &UnitName) -> Result<(), HostFault>
        requires { act ≡ Reload → Told (J.host self.old.device) (λ w. state_of w.manager.states unit.now ≡ Active) }
        ensures ok { OnOk result (Becomes (J.host self.old.device) (J.host self.new.device) (finished (Perform act unit.now))) }
        ensures moments { Passes (J.host self.old.device) (J.host self.new.device) (IsMoment (Perform act unit.now)) }
        ensures cause { HasCause (J.host self.old.device) (J.host self.new.device) result }
    {
        self.make_way(alloc, unit)?;
        self.note(unit.copy(alloc)?)?;
        self.submit(alloc, act, unit)?;
        Ok(())
    }
}

impl<J: Jobs> Tree for JobHost<J> {
    ghost use Rattle.std.specs.Prelude.{◌≡◌, ◌≢◌, ◌<◌, [], length, IfOk, OnOk, IsSome};
    ghost use Rattle.std.specs.FinMap.{get};
    ghost use Rattle.host_trait.specs.Change.{finished, IsMoment, Stage, Rename, Remove, Append};
    ghost use Rattle.host_trait.specs.Host.{Told, Becomes, Passes, HasCause};
    ghost use Rattle.host_trait.specs.Reading.{IsReading};
    ghost use Rattle.host_trait.specs.World.{IsClear, IsFileAt, stage};

    ghost host = { λ h. J.host h.device };

    ghost waiting = { λ h. [] };

    fn read(&mut self, alloc: Global, at: &Path) -> Result<Option<Leaf>, HostFault> {
        self.device.read(alloc, at)
    }

    fn list(&mut self, alloc: Global, under: &Path) -> Result<Listed<Path>, HostFault> {
        self.device.list(alloc, under)
    }

    fn tops(&mut self, alloc: Global) -> Result<Listed<Path>, HostFault> {
        self.device.tops(alloc)
    }

    fn sync(&mut self, alloc: Global) -> Result<(), HostFault>
        ensures reads { IsReading (J.host self.old.device) (J.host self.new.device) result }
        ensures waits { StaysWithin [] [] }
        ensures settled { OnOk result (J.waiting self.new.device ≡ []) }
    {
        // What a job changes as it ends has to be kept too.
        self.finish(alloc)?;
        self.device.sync(alloc)?;
        Ok(())
    }

    fn write_stage(&mut self, alloc: Global, leaf: &Leaf) -> Result<(), HostFault>
        requires { Told (J.host self.old.device) (λ w. IsClear w.leaves stage) }
        ensures ok { OnOk result (Becomes (J.host self.old.device) (J.host self.new.device) (finished (Stage leaf.now))) }
        ensures moments { Passes (J.host self.old.device) (J.host self.new.device) (IsMoment (Stage leaf.now)) }
        ensures cause { HasCause (J.host self.old.device) (J.host self.new.device) result }
        ensures waits { StaysWithin [] [] }
        ensures settled { OnOk result (J.waiting self.new.device ≡ []) }
    {
        self.finish(alloc)?;
        self.device.write_stage(alloc, leaf)?;
        Ok(())
    }

    fn rename_stage(&mut self, alloc: Global, to: &Path) -> Result<(), HostFault>
        requires staged { Told (J.host self.old.device) (λ w. IsSome (get w.leaves stage)) }
        requires clear { Told (J.host self.old.device) (λ w. IsClear w.leaves to.now) }
        requires other { to.now ≢ stage }
        ensures ok { OnOk result (Becomes (J.host self.old.device) (J.host self.new.device) (finished (Rename to.now))) }
        ensures moments { Passes (J.host self.old.device) (J.host self.new.device) (IsMoment (Rename to.now)) }
        ensures cause { HasCause (J.host self.old.device) (J.host self.new.device) result }
        ensures waits { StaysWithin [] [] }
        ensures settled { OnOk result (J.waiting self.new.device ≡ []) }
    {
        self.finish(alloc)?;
        self.device.rename_stage(alloc, to)?;
        Ok(())
    }

    fn remove(&mut self, alloc: Global, at: &Path) -> Result<(), HostFault>
        ensures ok { OnOk result (Becomes (J.host self.old.device) (J.host self.new.device) (finished (Remove at.now))) }
        ensures moments { Passes (J.host self.old.device) (J.host self.new.device) (IsMoment (Remove at.now)) }
        ensures cause { HasCause (J.host self.old.device) (J.host self.new.device) result }
        ensures waits { StaysWithin [] [] }
        ensures settled { OnOk result (J.waiting self.new.device ≡ []) }
    {
        self.finish(alloc)?;
        self.device.remove(alloc, at)?;
        Ok(())
    }

    fn append(&mut self, alloc: Global, at: &Path, bytes: &[u8]) -> Result<(), HostFault>
        requires file { Told (J.host self.old.device) (λ w. IsFileAt w.leaves at.now) }
        requires other { at.now ≢ stage }
        requires some { 0 < length bytes.now }
        ensures ok { OnOk result (Becomes (J.host self.old.device) (J.host self.new.device) (finished (Append at.now bytes.now))) }
        ensures moments { Passes (J.host self.old.device) (J.host self.new.device) (IsMoment (Append at.now bytes.now)) }
        ensures cause { HasCause (J.host self.old.device) (J.host self.new.device) result }
        ensures waits { StaysWithin [] [] }
        ensures settled { OnOk result (J.waiting self.new.device ≡ []) }
    {
        self.finish(alloc)?;
        self.device.append(alloc, at, bytes)?;
        Ok(())
    }

    ghost is_host = { λ h. J.is_host h.device };
}

impl<J: Jobs> Manager for JobHost<J> {
    fn units(&mut self, alloc: Global) -> Result<States, HostFault> {
        self.finish(alloc)?;
        let states = self.device.units_now(alloc)?;
        Ok(states)
    }

    fn loaded(&mut self, alloc: Global) -> Result<Text, HostFault> {
        self.device.loaded_now(alloc)
    }

    fn stop(&mut self, alloc: Global, unit: &UnitName) -> Result<(), HostFault> {
        self.act(alloc, Act::Stop, unit)
    }

    fn start(&mut self, alloc: Global, unit: &UnitName) -> Result<(), HostFault> {
        self.act(alloc, Act::Start, unit)
    }

    fn restart(&mut self, alloc: Global, unit: &UnitName) -> Result<(), HostFault> {
        self.act(alloc, Act::Restart, unit)
    }

    fn reload(&mut self, alloc: Global, unit: &UnitName) -> Result<(), HostFault> {
        self.act(alloc, Act::Reload, unit)
    }

    fn daemon_reload(&mut self, alloc: Global) -> Result<(), HostFault> {
        self.finish(alloc)?;
        self.device.reread(alloc)?;
        Ok(())
    }
}
