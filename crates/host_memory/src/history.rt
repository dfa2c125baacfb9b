//! A world with the record of the calls that changed it.
ghost use Rattle.host_trait.specs.Manager.{HasPlainTexts};
ghost use Rattle.host_trait.specs.States.{AreStates, state_of};
ghost use Rattle.host_trait.specs.World.{IsSound};
ghost use Rattle.std.proofs.Props.{props};
ghost use Rattle.host_trait.specs.Plain.{bad_is_plain_once, entry_is_plain_once};
ghost use Rattle.std.specs.FinMap.{get, insert};
ghost use Rattle.host_trait.specs.World.{IsFileAt, with_more};
ghost use Rattle.host_memory.specs.Files.{file_length};
ghost use Rattle.std.specs.Prelude.{◌≡◌, Some, IfOk};

use crate::calls::{call_of, effect_in, enter_in, halt_of, load_of, step_world};
use crate::changing_call::ChangingCall;
use crate::rebooting::reboot_world;
use host_trait::{Act, Leaf, LeafKind, State, World, WorldFault, stage_path};
use manager_core::Call;
use std::alloc::{AllocError, Global};
use switch_names::{Path, Text, UnitName};

/// A changing call that has finished, with the leaf, state or text that it replaced.
pub(crate) enum DoneCall {
    /// A leaf was written at the stage.
    Staged(Option<Leaf>),
    /// The stage's leaf was moved to this path.
    Renamed(Path, Option<Leaf>),
    /// The leaf at this path was removed.
    Removed(Path, Option<Leaf>),
    /// Bytes were appended to the file at this path, which had so many.
    Appended(Path, usize),
    /// The leaf at this path was replaced.
    Replaced(Path, Option<Leaf>),
    /// Something was done to this unit, which had been in this state.
    Performed(UnitName, State),
    /// This unit was stopped half way through a restart.
    Halted(UnitName, State),
    /// Other definitions were loaded than these.
    Loaded(Text),
}

/// One call: a derived drop is proved anew in each function that lets one go.
impl Drop for DoneCall {
    fn drop(self) {
        match self {
            DoneCall::Staged(_) => {}
            DoneCall::Renamed(_, _) => {}
            DoneCall::Removed(_, _) => {}
            DoneCall::Appended(_, _) => {}
            DoneCall::Replaced(_, _) => {}
            DoneCall::Performed(_, _) => {}
            DoneCall::Halted(_, _) => {}
            DoneCall::Loaded(_) => {}
        }
    }
}

/// A world, and the calls that changed it, the oldest first.
pub(crate) struct History {
    world: World,
    calls: Vec<DoneCall>,
    ghost sound: { IsSound world.leaves },
    ghost plain: { HasPlainTexts world.manager } by { Prim.hlevel (props, bad_is_plain_once, entry_is_plain_once) },
    ghost states: { AreStates world.manager.states } by { Prim.hlevel props },
}

/// One call: a derived drop is proved anew in each function that lets one go.
impl Drop for History {
    fn drop(self) {
        let History { world: _, calls: _ } = self;
    }
}

impl History {
    ghost use Rattle.std.specs.Prelude.{◌≡◌, ◌≢◌, ◌++◌, ◌∷◌, ℕ, List, take, [], length, IsSome, OnOk, OnErr};
    ghost use Rattle.std.specs.FinMap.{get};
    ghost use Rattle.host_memory.specs.ChangingCall.{CanHappen, change_of};
    ghost use Rattle.host_memory.specs.History.{Cuts, Enters, Makes, Stays};
    ghost use Rattle.host_memory.specs.Reboots.{IsRebooted};
    ghost use Rattle.host_trait.specs.Change.{finished, Stage, Rename, Remove, Append, Perform, DaemonReload};
    ghost use Rattle.host_trait.specs.declared.entry.Act.TheVariants.{Restart};
    ghost use Rattle.host_trait.specs.Manager.{halted};
    ghost use Rattle.host_trait.specs.World.{IsClear, IsFileAt, stage, with_manager, with_more};
    ghost use Rattle.manager_core.specs.Call.{IsPlainCall, done, effected};

    /// A world that no call has changed.
    pub(crate) fn new(alloc: Global, world: World) -> History
        ensures world { result.world ≡ world }
        ensures calls { result.calls.items ≡ [] }
    {
        // These are asked for what they say of the world: that it is sound, its texts plain, and the
        // states of its units in one form.
        let _count = world.leaf_count();
        let _loaded = world.loaded();
        let _states = world.states();
        History {
            world,
            calls: Vec::new(alloc),
        }
    }

    /// The present world.
    pub(crate) fn world(&self) -> &World
        ensures { result.now ≡ self.now.world }
    {
        &self.world
    }

    /// Reboots the world, and begins the record anew.
    pub(crate) fn reboot(&mut self, alloc: Global, pick: u64) -> Result<(), AllocError>
        ensures world { OnOk result (IsRebooted pick self.old.world self.new.world) }
        ensures calls { OnOk result (self.new.calls.items ≡ []) }
        ensures err { OnErr result ((self.new.world ≡ self.old.world) × (self.new.calls.items ≡ self.old.calls.items)) }
    {
        reboot_world(&mut self.world, alloc, pick)?;
        // These are asked for what they say of the world, as when a record begins.
        let _count = self.world.leaf_count();
        let _loaded = self.world.loaded();
        let _states = self.world.states();
        self.calls.clear();
        Ok(())
    }

    /// The present world, without the record.
    pub(crate) fn into_world(self) -> World
        ensures { result ≡ self.world }
    {
        let History { world, calls: _ } = self;
        world
    }

    /// How many calls have changed the world.
    pub(crate) fn clock(&self) -> usize
        ensures { result ≡ length self.now.calls.items }
    {
        self.calls.len()
    }

    /// Writes a leaf at the stage.
    pub(crate) fn stage(&mut self, alloc: Global, leaf: &Leaf) -> Result<(), AllocError>
        requires { IsClear self.old.world.leaves stage }
        ensures ok { OnOk result (Makes (Stage leaf.now) (finished (Stage leaf.now) self.old.world) self.old self.new) }
        ensures err { OnErr result ((self.new.world ≡ self.old.world) × (self.new.calls.items ≡ self.old.calls.items)) }
    {
        self.calls.reserve(1)?;
        let at = stage_path(alloc)?;
        let copy = leaf.copy(alloc)?;
        match self.world.set_leaf(alloc, at, copy) {
            Ok(was) => {
                self.calls.push_reserved(DoneCall::Staged(was));
                Ok(())
            }
            Err(WorldFault::Memory) => Err(AllocError),
            Err(WorldFault::Blocked) => unreachable!(),
        }
    }

    /// Moves the stage's leaf to a path.
    fn rename(&mut self, alloc: Global, to: &Path) -> Result<(), AllocError>
        requires staged { IsSome (get self.old.world.leaves stage) }
        requires clear { IsClear self.old.world.leaves to.now }
        requires other { to.now ≢ stage }
        ensures ok { OnOk result (Makes (Rename to.now) (finished (Rename to.now) self.old.world) self.old self.new) }
        ensures err { OnErr result ((self.new.world ≡ self.old.world) × (self.new.calls.items ≡ self.old.calls.items)) }
    {
        self.calls.reserve(1)?;
        let place = to.copy(alloc)?;
        let from = stage_path(alloc)?;
        let was = self.world.move_leaf(alloc, &from, to)?;
        self.calls.push_reserved(DoneCall::Renamed(place, was));
        Ok(())
    }

    /// Removes the leaf at a path.
    fn remove(&mut self, alloc: Global, at: &Path) -> Result<(), AllocError>
        ensures ok { OnOk result (Makes (Remove at.now) (finished (Remove at.now) self.old.world) self.old self.new) }
        ensures err { OnErr result ((self.new.world ≡ self.old.world) × (self.new.calls.items ≡ self.old.calls.items)) }
    {
        self.calls.reserve(1)?;
        let place = at.copy(alloc)?;
        let was = self.world.take_leaf(alloc, at)?;
        self.calls.push_reserved(DoneCall::Removed(place, was));
        Ok(())
    }

    /// Appends bytes to the file at a path.
    pub fn append(&mut self, alloc: Global, at: &Path, bytes: &[u8]) -> Result<(), AllocError>
        requires { IsFileAt self.old.world.leaves at.now }
        ensures ok { OnOk result (Makes (Append at.now bytes.now) (finished (Append at.now bytes.now) self.old.world) self.old self.new) }
        ensures err { OnErr result ((self.new.world ≡ self.old.world) × (self.new.calls.items ≡ self.old.calls.items)) }
    {
        self.calls.reserve(1)?;
        let place = at.copy(alloc)?;
        let count = file_len(&self.world, at);
        self.world.extend_leaf(alloc, at, bytes)?;
        self.calls.push_reserved(DoneCall::Appended(place, count));
        Ok(())
    }

    /// Appends the first of some bytes to the file at a path, as a cut leaves it: the path doesn't count as written.
    pub(crate) fn append_part(
        &mut self,
        alloc: Global,
        at: &Path,
        part: &[u8],
    ) -> Result<(), AllocError>
        requires { IsFileAt self.old.world.leaves at.now }
        ensures ok { OnOk result ((whole : List ℕ) (count : ℕ) → part.now ≡ take count whole → Cuts (Append at.now whole) (record self.old.world { leaves = with_more self.old.world.leaves at.now (take count whole) }) self.old self.new) }
        ensures err { OnErr result ((self.new.world ≡ self.old.world) × (self.new.calls.items ≡ self.old.calls.items)) }
    {
        self.calls.reserve(1)?;
        let place = at.copy(alloc)?;
        let key = at.copy(alloc)?;
        let longer = longer_at(alloc, &self.world, at, part)?;
        match self.world.set_leaf(alloc, key, longer) {
            Ok(was) => {
                self.calls.push_reserved(DoneCall::Replaced(place, was));
                Ok(())
            }
            Err(WorldFault::Memory) => Err(AllocError),
            Err(WorldFault::Blocked) => unreachable!(),
        }
    }

    /// Makes a call on the manager, and enters it.
    fn step(&mut self, alloc: Global, call: Call, done_call: DoneCall) -> Result<(), AllocError>
        requires { IsPlainCall call }
        ensures world { OnOk result (self.new.world ≡ with_manager (done call self.old.world.manager) self.old.world) }
        ensures calls { OnOk result (self.new.calls.items ≡ self.old.calls.items ++ done_call ∷ []) }
        ensures err { OnErr result ((self.new.world ≡ self.old.world) × (self.new.calls.items ≡ self.old.calls.items)) }
    {
        self.calls.reserve(1)?;
        step_world(&mut self.world, alloc, call)?;
        self.calls.push_reserved(done_call);
        Ok(())
    }

    /// Does something to a unit, and enters it.
    pub(crate) fn perform(
        &mut self,
        alloc: Global,
        act: Act,
        unit: &UnitName,
    ) -> Result<(), AllocError>
        ensures ok { OnOk result (Makes (Perform act unit.now) (finished (Perform act unit.now) self.old.world) self.old self.new) }
        ensures err { OnErr result ((self.new.world ≡ self.old.world) × (self.new.calls.items ≡ self.old.calls.items)) }
    {
        let name = unit.copy(alloc)?;
        let call = call_of(alloc, act, unit)?;
        let was = state_in(&self.world, unit);
        self.step(alloc, call, DoneCall::Performed(name, was))
    }

    /// Enters an act on a unit, which has no effect yet.
    pub(crate) fn enter(
        &mut self,
        alloc: Global,
        act: Act,
        unit: &UnitName,
    ) -> Result<(), AllocError>
        ensures ok { OnOk result (Enters act unit.now self.old self.new) }
        ensures err { OnErr result (Stays self.old self.new) }
    {
        self.calls.reserve(1)?;
        let name = unit.copy(alloc)?;
        let was = state_in(&self.world, unit);
        enter_in(&mut self.world, alloc, act, unit)?;
        self.calls.push_reserved(DoneCall::Performed(name, was));
        Ok(())
    }

    /// Has an act take effect that was entered before, without an item in the record.
    pub(crate) fn take_effect(
        &mut self,
        alloc: Global,
        act: Act,
        unit: &UnitName,
    ) -> Result<(), AllocError>
        ensures ok { OnOk result (self.new.world ≡ with_manager (effected act unit.now self.old.world.manager) self.old.world) }
        ensures calls { self.new.calls.items ≡ self.old.calls.items }
        ensures err { OnErr result (self.new.world ≡ self.old.world) }
    {
        effect_in(&mut self.world, alloc, act, unit)
    }

    /// Goes half way through a restart of a unit.
    pub(crate) fn halt(&mut self, alloc: Global, unit: &UnitName) -> Result<(), AllocError>
        ensures ok { OnOk result (Makes (Perform Restart unit.now) (with_manager (halted unit.now self.old.world.manager) self.old.world) self.old self.new) }
        ensures err { OnErr result ((self.new.world ≡ self.old.world) × (self.new.calls.items ≡ self.old.calls.items)) }
    {
        let name = unit.copy(alloc)?;
        let call = halt_of(alloc, unit)?;
        let was = state_in(&self.world, unit);
        self.step(alloc, call, DoneCall::Halted(name, was))
    }

    /// Loads the definitions to which the link at their place leads.
    fn load(&mut self, alloc: Global) -> Result<(), AllocError>
        ensures ok { OnOk result (Makes DaemonReload (finished DaemonReload self.old.world) self.old self.new) }
        ensures err { OnErr result ((self.new.world ≡ self.old.world) × (self.new.calls.items ≡ self.old.calls.items)) }
    {
        let was = self.world.loaded().copy(alloc)?;
        let call = load_of(alloc, &self.world)?;
        self.step(alloc, call, DoneCall::Loaded(was))
    }

    /// Makes a changing call.
    pub(crate) fn make(&mut self, alloc: Global, call: ChangingCall) -> Result<(), AllocError>
        requires { CanHappen (change_of call) self.old.world }
        ensures ok { OnOk result (Makes (change_of call.entry) (finished (change_of call.entry) self.old.world) self.old self.new) }
        ensures err { OnErr result ((self.new.world ≡ self.old.world) × (self.new.calls.items ≡ self.old.calls.items)) }
    {
        match call {
            ChangingCall::Stage(leaf) => self.stage(alloc, leaf),
            ChangingCall::Rename(to) => self.rename(alloc, to),
            ChangingCall::Remove(at) => self.remove(alloc, at),
            ChangingCall::Append(at, bytes) => self.append(alloc, at, bytes),
            ChangingCall::Perform(act, unit) => self.perform(alloc, act, unit),
            ChangingCall::DaemonReload => self.load(alloc),
        }
    }
}

/// How many bytes the file at a path has.
fn file_len(world: &World, at: &Path) -> usize
    ensures { result ≡ file_length (get world.now.leaves at.now) }
{
    match world.leaf(at) {
        Some(leaf) => leaf_len(leaf),
        None => 0,
    }
}

/// How many bytes a file has.
fn leaf_len(leaf: &Leaf) -> usize
    ensures { result ≡ file_length (Some leaf.now) }
{
    match leaf.kind() {
        LeafKind::File {
            bytes,
            mode: _,
            uid: _,
            gid: _,
        } => bytes.as_slice().len(),
        LeafKind::Link { target: _ } => 0,
    }
}

/// The file at a path with more bytes at its end.
fn longer_at(alloc: Global, world: &World, at: &Path, more: &[u8]) -> Result<Leaf, AllocError>
    requires { IsFileAt world.now.leaves at.now }
    ensures { IfOk result (λ leaf. insert world.now.leaves at.now leaf ≡ with_more world.now.leaves at.now more.now) }
{
    match world.leaf(at) {
        Some(leaf) => leaf.longer(alloc, more),
        None => unreachable!(),
    }
}

/// The state of a unit in a world.
fn state_in(world: &World, unit: &UnitName) -> State
    ensures { result ≡ state_of world.now.manager.states unit.now }
{
    world.states().of(unit)
}
