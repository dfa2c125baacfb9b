//! Cuts that fall on a changing call.
ghost use Rattle.std.specs.Prelude.{◌≡◌, ◌⊎◌, ◌≤◌, ◌+◌, ◌%◌, ◌==◌, OnOk, OnErr, if◌then◌else◌};
ghost use Rattle.host_memory.specs.ChangingCall.{CanHappen, change_of};
ghost use Rattle.host_memory.specs.Cuts.{left_by};
ghost use Rattle.host_memory.specs.History.{Cuts, Enters, Stays};
ghost use Rattle.host_trait.specs.Change.{finished, Stage, Append, Perform};
ghost use Rattle.host_trait.specs.declared.entry.Act.TheVariants.{Restart};
ghost use Rattle.host_trait.specs.World.{IsClear, IsFileAt, stage};

use crate::changing_call::ChangingCall;
use crate::history::History;
use host_trait::{Act, Leaf};
use std::alloc::{AllocError, Global};
use switch_names::{Bytes, Path, UnitName};

/// A cut that is armed, or that has fallen.
#[derive(Clone, Copy)]
pub(crate) struct ArmedCut {
    /// The clock when it was armed.
    pub(crate) from: usize,
    /// How many changing calls finish before the one that it falls on.
    pub(crate) after: u64,
    /// What it leaves of that call.
    pub(crate) pick: u64,
    /// Whether it has fallen.
    pub(crate) has_fallen: bool,
}

impl ArmedCut {
    /// Whether it falls on the next changing call.
    pub(crate) fn is_due(&self, clock: usize) -> bool
        requires { self.now.from ≤ clock }
        ensures { result ≡ (self.now.from + self.now.after == clock) }
    {
        (clock - self.from) as u64 == self.after
    }
}

/// Leaves what a cut leaves of a call that writes the stage.
fn cut_stage(history: &mut History, alloc: Global, leaf: &Leaf, pick: u64) -> Result<(), AllocError>
    requires { IsClear history.old.world.leaves stage }
    ensures ok { OnOk result (Cuts (Stage leaf.now) (left_by (Stage leaf.now) pick history.old.world) history.old history.new) }
    ensures err { OnErr result ((history.new.world ≡ history.old.world) × (history.new.calls.items ≡ history.old.calls.items)) }
{
    match pick % 3 {
        0 => Ok(()),
        1 => history.stage(
            alloc,
            &Leaf::file(Bytes::from_vec(Vec::new(alloc)), 0, 0, 0),
        ),
        _ => history.stage(alloc, leaf),
    }
}

/// Leaves what a cut leaves of a call that restarts a unit.
fn cut_restart(
    history: &mut History,
    alloc: Global,
    unit: &UnitName,
    pick: u64,
) -> Result<(), AllocError>
    ensures ok { OnOk result (Cuts (Perform Restart unit.now) (left_by (Perform Restart unit.now) pick history.old.world) history.old history.new) }
    ensures err { OnErr result ((history.new.world ≡ history.old.world) × (history.new.calls.items ≡ history.old.calls.items)) }
{
    match pick % 3 {
        0 => Ok(()),
        1 => history.halt(alloc, unit),
        _ => history.perform(alloc, Act::Restart, unit),
    }
}

/// Leaves what a cut leaves of a call that appends bytes: the first of them.
fn cut_append(
    history: &mut History,
    alloc: Global,
    at: &Path,
    bytes: &[u8],
    pick: u64,
) -> Result<(), AllocError>
    requires { IsFileAt history.old.world.leaves at.now }
    ensures ok { OnOk result (Cuts (Append at.now bytes.now) (left_by (Append at.now bytes.now) pick history.old.world) history.old history.new) }
    ensures err { OnErr result ((history.new.world ≡ history.old.world) × (history.new.calls.items ≡ history.old.calls.items)) }
{
    let count = (pick % (bytes.len() as u64 + 1)) as usize;
    if count == bytes.len() {
        return history.append(alloc, at, bytes);
    }
    history.append_part(alloc, at, &bytes[..count])
}

/// Leaves what a cut leaves of a call that has no moment in its middle.
fn cut_at_once(
    history: &mut History,
    alloc: Global,
    call: ChangingCall,
    pick: u64,
) -> Result<(), AllocError>
    requires { CanHappen (change_of call) history.old.world }
    ensures ok { OnOk result (Cuts (change_of call.entry) (if pick % 2 == 0 then history.old.world else finished (change_of call.entry) history.old.world) history.old history.new) }
    ensures err { OnErr result ((history.new.world ≡ history.old.world) × (history.new.calls.items ≡ history.old.calls.items)) }
{
    match pick % 2 {
        0 => Ok(()),
        _ => history.make(alloc, call),
    }
}

/// Leaves what a cut leaves of a changing call.
pub(crate) fn cut_call(
    history: &mut History,
    alloc: Global,
    call: ChangingCall,
    pick: u64,
) -> Result<(), AllocError>
    requires { CanHappen (change_of call) history.old.world }
    ensures ok { OnOk result (Cuts (change_of call.entry) (left_by (change_of call.entry) pick history.old.world) history.old history.new) }
    ensures err { OnErr result ((history.new.world ≡ history.old.world) × (history.new.calls.items ≡ history.old.calls.items)) }
{
    match call {
        ChangingCall::Stage(leaf) => cut_stage(history, alloc, leaf, pick),
        ChangingCall::Append(at, bytes) => cut_append(history, alloc, at, bytes, pick),
        ChangingCall::Perform(Act::Restart, unit) => cut_restart(history, alloc, unit, pick),
        _ => cut_at_once(history, alloc, call, pick),
    }
}

/// Leaves what a cut leaves of a call that enters an act on a unit: the act is entered or it isn't.
pub(crate) fn cut_enter(
    history: &mut History,
    alloc: Global,
    act: Act,
    unit: &UnitName,
    pick: u64,
) -> Result<(), AllocError>
    ensures ok { OnOk result (Stays history.old history.new ⊎ Enters act unit.now history.old history.new) }
    ensures err { OnErr result (Stays history.old history.new) }
{
    match pick % 2 {
        0 => Ok(()),
        _ => history.enter(alloc, act, unit),
    }
}
