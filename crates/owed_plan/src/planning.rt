//! Plans what a switch owes the units.
ghost use Rattle.std.specs.Prelude.{◌≡◌, IfOk};
ghost use Rattle.host_trait.specs.States.{state_of};
ghost use Rattle.owed_plan.specs.Collected.{IsCollected};
ghost use Rattle.owed_plan.specs.Decisions.{situation_of};
ghost use Rattle.owed_plan.specs.Owed.{IsPlan};
ghost use Rattle.owed_plan.specs.Pull.{Pulled};
ghost use Rattle.owed_plan.specs.Systems.{systems_in};
ghost use Rattle.switch_names.specs.Names.{IsListOf};

use crate::collecting::{all_by_self, all_starts, decided_left, decided_stops};
use crate::deciding::{UnitDecision, decide_units};
use crate::known::Inputs;
use crate::owed::Owed;
use host_trait::{States, UnitSet};
use log_text::{Block, Lists, Which};
use std::alloc::{AllocError, Global};
use switch_names::{Listed, UnitName};
use unit_defs::Defs;

/// What is owed by what is decided on each Active unit, the lists and the pull.
fn collect(
    alloc: Global,
    known: Inputs<'_>,
    decisions: &[UnitDecision],
    lists: &Lists,
    pulled: &[UnitName],
) -> Result<Owed, AllocError>
    ensures { IfOk result (IsCollected (situation_of known.entry) decisions.now lists.now pulled.now) }
{
    let stops = decided_stops(alloc, known, decisions)?;
    let left = decided_left(alloc, decisions)?;
    let mut lists = all_by_self(alloc, known, decisions, lists)?;
    let starts = all_starts(alloc, known, decisions, &stops, &lists, pulled)?;
    lists.set(Block {
        which: Which::Starts,
        names: starts,
    });
    Ok(Owed {
        stops: stops.into_names(alloc)?,
        lists,
        left,
    })
}

/// What a switch from one system to another owes the units, given their states, the lists that a
/// switch which was cut has left, and the units that the targets pull.
///
/// Source: NixOS manual, "Unit handling".
pub fn plan(
    alloc: Global,
    old: &Defs,
    new: &Defs,
    states: &States,
    lists: &Lists,
    pulled: &Listed<UnitName>,
) -> Result<Owed, AllocError>
    requires { IsListOf pulled.now (Pulled (systems_in old.now new.now) (state_of states.now) lists.now) }
    ensures { IfOk result (IsPlan (systems_in old.now new.now) (state_of states.now) lists.now) }
{
    let waiting = UnitSet::of(alloc, lists.starts.as_slice())?;
    let known = Inputs {
        old,
        new,
        states,
        waiting: &waiting,
    };
    let decisions = decide_units(alloc, known)?;
    let owed = collect(alloc, known, decisions.as_slice(), lists, pulled.as_slice())?;
    Ok(owed)
}
