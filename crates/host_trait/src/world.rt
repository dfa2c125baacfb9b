//! The world that a run changes.
ghost use Rattle.std.specs.Prelude.{◌≡◌, ◌≢◌, ◌++◌, ◌∷◌, [], ◌↔◌, IfOk, OnOk, OnErr, IsErrOf, IsSome, IsTrue};
ghost use Rattle.std.specs.FinMap as map;
ghost use Rattle.std.specs.Option.{option_copied};
ghost use Rattle.host_trait.specs.Manager.{HasPlainTexts, IsPlain, loading};
ghost use Rattle.host_trait.specs.Reboot.{rebooted, rebooted_with_blank};
ghost use Rattle.host_trait.specs.States.{AreStates, with_state};
ghost use Rattle.host_trait.specs.World.{AreTops, IsClear, IsFileAt, IsInTheWay, IsSound, empty_world, leaf_count, listed, moved, shown, stage, with_leaf, with_manager, with_more, without_leaf};

use crate::copying::{copy_leaves, copy_paths};
use crate::entry::{Bad, Entry};
use crate::known_path::stage_path;
use crate::leaf::Leaf;
use crate::leaf_map::{
    are_same_leaves, count_leaves, extend_entry, find_leaf, list_leaves, move_entry, remove_leaf,
    set_entry,
};
use crate::manager_state::ManagerState;
use crate::rebooting::{drop_lost, drop_run};
use crate::states::States;
use crate::tops::top_names;
use crate::unit_state::State;
use crate::world_fault::WorldFault;
use std::alloc::{AllocError, Global};
use std::collections::BTreeMap;
use std::marker::Model;
use switch_names::{Bytes, Listed, Path, Text, UnitName};

/// Leaves at paths, none strictly above or below another, and a service manager.
///
/// A refusal of any call leaves a world as it was.
pub struct World {
    leaves: BTreeMap<Path, Leaf>,
    manager: ManagerState,
    written: Listed<Path>,
}

/// One call: a derived drop is proved anew in each function that lets one go.
impl Drop for World {
    fn drop(self) {
        let World {
            leaves: _,
            manager: _,
            written: _,
        } = self;
    }
}

impl Model for World {
    ghost use Rattle.host_trait.specs.World.{WorldState, world_code, IsSound};
    ghost use Rattle.host_trait.specs.contracts.leaf.LeafKind as kind;
    ghost use Rattle.host_trait.specs.contracts.manager_state.ManagerState as service;
    ghost use Rattle.host_trait.specs.LeafMap.{leaves_of};
    ghost use Rattle.host_trait.specs.Manager.{HasPlainTexts};

    ghost Value = { WorldState };

    ghost coded = { world_code kind.the_row.coded service.the_row.coded };

    ghost view = { λ world. record { leaves = leaves_of world.leaves; manager = world.manager; written = world.written } };

    ghost invariant = { λ world. IsSound (leaves_of world.leaves) × HasPlainTexts world.manager };
}

impl World {
    /// The empty world.
    pub fn new(alloc: Global) -> World
        ensures { result ≡ empty_world }
    {
        World {
            leaves: BTreeMap::new(alloc),
            manager: ManagerState::new(alloc),
            written: Listed::new(alloc),
        }
    }

    /// The leaf at a path.
    pub fn leaf(&self, at: &Path) -> Option<&Leaf>
        ensures { option_copied result ≡ map.get self.now.leaves at.now }
    {
        find_leaf(&self.leaves, at)
    }

    /// How many leaves there are, the stage's left out.
    pub fn leaf_count(&self) -> u64
        ensures count { result ≡ leaf_count self.now.leaves }
        ensures sound { IsSound self.now.leaves }
    {
        count_leaves(&self.leaves)
    }

    /// The paths of the leaves at or below a path, in byte order, without the stage.
    pub fn list(&self, alloc: Global, under: &Path) -> Result<Listed<Path>, AllocError>
        ensures { IfOk result (λ paths. paths ≡ listed under.now self.now.leaves) }
    {
        list_leaves(alloc, &self.leaves, under)
    }

    /// The first name of each path with a leaf other than the stage's, in byte order.
    pub fn tops(&self, alloc: Global) -> Result<Listed<Path>, AllocError>
        ensures { IfOk result (AreTops self.now.leaves) }
    {
        top_names(alloc, &self.leaves)
    }

    /// Puts a leaf at a path, and answers the one that stood there.
    ///
    /// It looks at each place above the path, and at one below.
    pub fn set_leaf(
        &mut self,
        alloc: Global,
        at: Path,
        leaf: Leaf,
    ) -> Result<Option<Leaf>, WorldFault>
        ensures was { IfOk result (λ was. was ≡ map.get self.old.leaves at) }
        ensures ok { OnOk result (self.new ≡ with_leaf at leaf self.old) }
        ensures blocked { IsErrOf result WorldFault.Blocked → IsInTheWay self.old.leaves at }
        ensures clear { OnOk result (IsClear self.old.leaves at) }
        ensures err { OnErr result (self.new ≡ self.old) }
        ensures sound { IsSound self.new.leaves }
    {
        set_entry(alloc, &mut self.leaves, at, leaf)
    }

    /// Takes the leaf at a path out, which counts as written.
    pub fn take_leaf(&mut self, alloc: Global, at: &Path) -> Result<Option<Leaf>, AllocError>
        ensures was { IfOk result (λ was. was ≡ map.get self.old.leaves at.now) }
        ensures ok { OnOk result (self.new ≡ without_leaf at.now self.old) }
        ensures err { OnErr result (self.new ≡ self.old) }
        ensures sound { OnOk result (IsSound self.new.leaves) }
    {
        let place = at.copy(alloc)?;
        self.written.push(place)?;
        Ok(remove_leaf(&mut self.leaves, at))
    }

    /// The places that were written, the oldest first.
    pub fn written(&self) -> &Listed<Path>
        ensures { result.now ≡ self.now.written }
    {
        &self.written
    }

    /// Appends bytes to the file at a path, which counts as written.
    pub fn extend_leaf(&mut self, alloc: Global, at: &Path, bytes: &[u8]) -> Result<(), AllocError>
        requires file { IsFileAt self.old.leaves at.now }
        ensures ok { OnOk result (self.new ≡ record self.old { leaves = with_more self.old.leaves at.now bytes.now; written = self.old.written ++ at.now ∷ [] }) }
        ensures err { OnErr result (self.new ≡ self.old) }
        ensures sound { OnOk result (IsSound self.new.leaves) }
    {
        let count = self.written.as_slice().len();
        self.written.push(at.copy(alloc)?)?;
        let extended = extend_entry(alloc, &mut self.leaves, at, bytes);
        if extended.is_err() {
            let _place = self.written.remove(count);
        }
        extended
    }

    /// Moves the leaf at a path to another, and answers the one that stood there.
    pub fn move_leaf(
        &mut self,
        alloc: Global,
        from: &Path,
        to: &Path,
    ) -> Result<Option<Leaf>, AllocError>
        requires present { IsSome (map.get self.old.leaves from.now) }
        requires clear { IsClear self.old.leaves to.now }
        requires other { to.now ≢ from.now }
        ensures was { IfOk result (λ was. was ≡ map.get self.old.leaves to.now) }
        ensures ok { OnOk result (self.new ≡ record self.old { leaves = moved self.old.leaves from.now to.now; written = self.old.written ++ to.now ∷ [] }) }
        ensures err { OnErr result (self.new ≡ self.old) }
        ensures sound { OnOk result (IsSound self.new.leaves) }
    {
        let count = self.written.as_slice().len();
        self.written.push(to.copy(alloc)?)?;
        let moved = move_entry(alloc, &mut self.leaves, from, to);
        if moved.is_err() {
            let _place = self.written.remove(count);
        }
        moved
    }

    /// The units that aren't inactive, with their states.
    pub fn states(&self) -> &States
        ensures states { result.now ≡ self.now.manager.states }
        ensures are_states { AreStates self.now.manager.states }
    {
        let states = &self.manager.states;
        // The list is asked for what it says of the states: that they are in one form.
        let _list = states.list();
        states
    }

    /// Where the definitions lie that the manager has loaded.
    pub fn loaded(&self) -> &Text
        ensures text { result.now ≡ self.now.manager.loaded }
        ensures plain { HasPlainTexts self.now.manager }
    {
        &self.manager.loaded
    }

    /// What the manager has done, the oldest first.
    pub fn journal(&self) -> &Listed<Entry>
        ensures { result.now ≡ self.now.manager.journal }
    {
        &self.manager.journal
    }

    /// Brings a unit to a state, without an entry.
    pub fn set_state(&mut self, unit: UnitName, state: State) -> Result<(), AllocError>
        ensures ok { OnOk result (self.new ≡ with_manager (record self.old.manager { states = with_state unit state self.old.manager.states }) self.old) }
        ensures err { OnErr result (self.new ≡ self.old) }
    {
        self.manager.states.set(unit, state)
    }

    /// Says where the definitions lie that the manager has loaded.
    pub fn set_loaded(&mut self, text: Text)
        requires { IsPlain text }
        ensures { self.new ≡ with_manager (loading text self.old.manager) self.old }
    {
        self.manager.loaded = text;
    }

    /// Adds a unit that fails when it is started under these definitions.
    pub fn add_bad(&mut self, bad: Bad) -> Result<(), AllocError>
        requires { IsPlain bad.loaded }
        ensures ok { OnOk result (self.new ≡ with_manager (record self.old.manager { bad = self.old.manager.bad ++ bad ∷ [] }) self.old) }
        ensures err { OnErr result (self.new ≡ self.old) }
    {
        self.manager.bad.push(bad)
    }

    /// Puts another state of the manager in, and hands the present one back.
    pub fn swap_manager(&mut self, with: ManagerState) -> ManagerState
        requires { HasPlainTexts with }
        ensures was { result ≡ self.old.manager }
        ensures plain { HasPlainTexts result }
        ensures new { self.new ≡ with_manager with self.old }
    {
        std::mem::replace(&mut self.manager, with)
    }

    /// Whether two worlds have the same leaves but for the stage, the same states of units, and the
    /// same definitions loaded.
    pub fn same_seen(&self, other: &World) -> bool
        ensures { IsTrue result ↔ (shown self.now ≡ shown other.now) }
    {
        self.manager.loaded == other.manager.loaded
            && self.manager.states.same(&other.manager.states)
            && are_same_leaves(&self.leaves, &other.leaves)
    }

    /// An equal world.
    pub fn copy(&self, alloc: Global) -> Result<World, AllocError>
        ensures { IfOk result (λ copied. copied ≡ self.now) }
    {
        Ok(World {
            leaves: copy_leaves(alloc, &self.leaves)?,
            manager: self.manager.copy(alloc)?,
            written: copy_paths(alloc, self.written.as_slice())?,
        })
    }

    /// Does what a reboot does: what stands in `run` and at the stage is lost, no unit is active any
    /// more, and nothing is loaded.
    ///
    /// It takes no memory.
    pub fn reboot(&mut self, alloc: Global)
        ensures { self.new ≡ rebooted self.old }
    {
        drop_lost(&mut self.leaves);
        self.manager.states = States::new(alloc);
        self.manager.loaded = Text::new(alloc);
    }

    /// Does what a reboot does that leaves an empty file at the stage.
    pub fn reboot_with_blank(&mut self, alloc: Global) -> Result<(), WorldFault>
        ensures ok { OnOk result (self.new ≡ rebooted_with_blank self.old) }
        ensures blocked { IsErrOf result WorldFault.Blocked → IsInTheWay self.old.leaves stage }
        ensures clear { OnOk result (IsClear self.old.leaves stage) }
        ensures err { OnErr result (self.new ≡ self.old) }
    {
        let blank = Leaf::file(Bytes::from_vec(Vec::new(alloc)), 0, 0, 0);
        let at = stage_path(alloc)?;
        let _was = set_entry(alloc, &mut self.leaves, at, blank)?;
        drop_run(&mut self.leaves);
        self.manager.states = States::new(alloc);
        self.manager.loaded = Text::new(alloc);
        Ok(())
    }
}
