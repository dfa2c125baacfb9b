//! The tree of leaves that a host lends a run.
ghost use Rattle.std.specs.Prelude.{◌≡◌, ◌≢◌, ◌<◌, List, length, IfOk, OnOk, IsSome, map};
ghost use Rattle.std.specs.FinMap.{get};
ghost use Rattle.host_trait.specs.declared.tree.HostFault.TheVariants.{Memory};
ghost use Rattle.host_trait.specs.Change.{Change, finished, IsMoment};
ghost use Rattle.host_trait.specs.Change.{Stage, Rename, Remove, Append};
ghost use Rattle.host_trait.specs.Host.{HostState, Told, Becomes, Passes, HasCause, IsHost};
ghost use Rattle.host_trait.specs.Reading.{IsReading};
ghost use Rattle.host_trait.specs.Waiting.{StaysWithin};
ghost use Rattle.host_trait.specs.World.{AreTops, IsClear, IsFileAt, listed, stage};
ghost use Rattle.switch_names.specs.Names.{Name};

use crate::leaf::Leaf;
use std::alloc::{AllocError, AllocFailed, Global};
use switch_names::{Listed, Path};
use thiserror::Error;

/// Why a call on a host has failed.
#[derive(Clone, Copy, Debug, PartialEq, Eq, Error)]
pub enum HostFault {
    /// There was no memory.
    #[error("out of memory")]
    Memory,
    /// The host could not do the call. Its count of faults has risen.
    #[error("the host has failed")]
    Device,
}

impl From<AllocError> for HostFault {
    ghost from_gives = { λ _ fault. fault ≡ Memory };

    fn from(_error: AllocError) -> HostFault {
        HostFault::Memory
    }
}

impl<T: Drop> From<AllocFailed<T>> for HostFault {
    ghost from_gives = { λ _ fault. fault ≡ Memory };

    fn from(_error: AllocFailed<T>) -> HostFault {
        HostFault::Memory
    }
}

/// A tree of leaves at paths. A leaf takes its place in one step, by way of the stage.
///
/// A call that fails leaves a world that a cut within it may leave.
pub trait Tree {
    /// Its world where it tells that, its clock with the worlds that a cut may have left, its last
    /// moment, its count of faults, and whether it is sure.
    ghost host: { Self → HostState };

    /// The units that wait for the end of a job. No call on the tree adds one.
    ghost waiting: { Self → List Name };

    /// The leaf at a path.
    fn read(&mut self, alloc: Global, at: &Path) -> Result<Option<Leaf>, HostFault>
        ensures leaf { IfOk result (λ leaf. Told (host self.old) (λ w. leaf ≡ get w.leaves at.now)) }
        ensures reads { IsReading (host self.old) (host self.new) result }
        ensures waits { StaysWithin (waiting self.old) (waiting self.new) };

    /// The paths of the leaves at or below a path, in byte order, without the stage.
    fn list(&mut self, alloc: Global, under: &Path) -> Result<Listed<Path>, HostFault>
        ensures paths { IfOk result (λ paths. Told (host self.old) (λ w. paths ≡ listed under.now w.leaves)) }
        ensures reads { IsReading (host self.old) (host self.new) result }
        ensures waits { StaysWithin (waiting self.old) (waiting self.new) };

    /// The first name of each path with a leaf other than the stage's, in byte order.
    fn tops(&mut self, alloc: Global) -> Result<Listed<Path>, HostFault>
        ensures tops { IfOk result (λ tops. Told (host self.old) (λ w. AreTops w.leaves tops)) }
        ensures reads { IsReading (host self.old) (host self.new) result }
        ensures waits { StaysWithin (waiting self.old) (waiting self.new) };

    /// Has what was changed kept beyond a loss of power.
    fn sync(&mut self, alloc: Global) -> Result<(), HostFault>
        ensures reads { IsReading (host self.old) (host self.new) result }
        ensures waits { StaysWithin (waiting self.old) (waiting self.new) };

    /// Writes a leaf at the stage. A cut may leave any leaf or none there.
    fn write_stage(&mut self, alloc: Global, leaf: &Leaf) -> Result<(), HostFault>
        requires { Told (host self.old) (λ w. IsClear w.leaves stage) }
        ensures ok { OnOk result (Becomes (host self.old) (host self.new) (finished (Stage leaf.now))) }
        ensures moments { Passes (host self.old) (host self.new) (IsMoment (Stage leaf.now)) }
        ensures cause { HasCause (host self.old) (host self.new) result }
        ensures waits { StaysWithin (waiting self.old) (waiting self.new) };

    /// Moves the stage's leaf to a path in one step, in place of the leaf there.
    fn rename_stage(&mut self, alloc: Global, to: &Path) -> Result<(), HostFault>
        requires staged { Told (host self.old) (λ w. IsSome (get w.leaves stage)) }
        requires clear { Told (host self.old) (λ w. IsClear w.leaves to.now) }
        requires other { to.now ≢ stage }
        ensures ok { OnOk result (Becomes (host self.old) (host self.new) (finished (Rename to.now))) }
        ensures moments { Passes (host self.old) (host self.new) (IsMoment (Rename to.now)) }
        ensures cause { HasCause (host self.old) (host self.new) result }
        ensures waits { StaysWithin (waiting self.old) (waiting self.new) };

    /// Removes the leaf at a path, where one stands there.
    fn remove(&mut self, alloc: Global, at: &Path) -> Result<(), HostFault>
        ensures ok { OnOk result (Becomes (host self.old) (host self.new) (finished (Remove at.now))) }
        ensures moments { Passes (host self.old) (host self.new) (IsMoment (Remove at.now)) }
        ensures cause { HasCause (host self.old) (host self.new) result }
        ensures waits { StaysWithin (waiting self.old) (waiting self.new) };

    /// Appends bytes to the file at a path. A cut may leave the first of them appended.
    fn append(&mut self, alloc: Global, at: &Path, bytes: &[u8]) -> Result<(), HostFault>
        requires file { Told (host self.old) (λ w. IsFileAt w.leaves at.now) }
        requires other { at.now ≢ stage }
        requires some { 0 < length bytes.now }
        ensures ok { OnOk result (Becomes (host self.old) (host self.new) (finished (Append at.now bytes.now))) }
        ensures moments { Passes (host self.old) (host self.new) (IsMoment (Append at.now bytes.now)) }
        ensures cause { HasCause (host self.old) (host self.new) result }
        ensures waits { StaysWithin (waiting self.old) (waiting self.new) };

    ghost is_host: { (h : Self) → IsHost (host h) };
}
