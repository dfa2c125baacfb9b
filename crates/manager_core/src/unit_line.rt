//! The line of one unit in the text of a manager's state: where it stands, and what it says.
ghost use Rattle.std.specs.Prelude.{◌≡◌, ◌+◌, ◌≤◌, ◌∷◌, [], ◌++◌, List, drop, length, map, take, IfOk, IfSome, OnOk};
ghost use Rattle.host_trait.specs.States.{listed_states, state_of};
ghost use Rattle.host_trait.specs.declared.unit_state.UnitState.{UnitState};
ghost use Rattle.manager_core.specs.StateText.{lines_text};
ghost use Rattle.manager_core.specs.UnitLine.{AreAround, IsLineAt, first_text, unit_text};
ghost use Rattle.manager_core.specs.declared.line.Line.TheVariants as line;

use crate::writing::write_state_of;
use host_trait::{ManagerState, State, States, UnitState};
use std::alloc::{AllocError, Global};
use switch_names::{Text, UnitName};

/// How long the line of what is loaded is, where a `usize` counts that.
pub fn loaded_len(loaded: &Text) -> Option<usize>
    ensures { IfSome result (λ len. len ≡ length (first_text loaded.now [])) }
{
    loaded.as_str().len().checked_add("loaded \n".len())
}

/// How long the line of a unit is, where a `usize` counts that.
fn line_len(one: &UnitState) -> Option<usize>
    ensures { IfSome result (λ len. len ≡ length (lines_text (line.State one.now ∷ []))) }
{
    one.unit
        .as_str()
        .len()
        .checked_add(one.state.word().len() + " \n".len())
}

/// How long some bytes are with the lines of these units, where a `usize` counts that.
fn len_with(before: usize, units: &[UnitState]) -> Option<usize>
    ensures { IfSome result (λ len. len ≡ before + length (lines_text (map line.State units.now))) }
{
    let mut len = before;
    for one in units {
        len = len.checked_add(line_len(one)?)?;
    }
    Some(len)
}

/// How many units are listed before one, and how long its line is.
fn place_of(states: &States, unit: &UnitName) -> Option<(usize, usize)>
    ensures { IfSome result (λ place. (back : List UnitState)
        × AreAround states.now unit.now (take place.0 (listed_states states.now)) back
        × (place.0 ≤ length (listed_states states.now))
        × (place.1 ≡ length (unit_text unit.now (state_of states.now unit.now)))) }
{
    let _name = unit.as_str();
    let units = states.list().as_slice();
    match states.find(unit) {
        Ok(at) => Some((at, line_len(&units[at])?)),
        Err(at) => Some((at, 0)),
    }
}

/// Where in the text of a state the line of a unit begins and ends, where a `usize` counts that.
pub fn line_at(state: &ManagerState, unit: &UnitName) -> Option<(usize, usize)>
    ensures { IfSome result (λ places. IsLineAt state.now unit.now places.0 places.1) }
{
    let (at, own) = place_of(&state.states, unit)?;
    let units = &state.states.list().as_slice()[..at];
    let from = len_with(loaded_len(&state.loaded)?, units)?;
    Some((from, from.checked_add(own)?))
}

/// The line of a unit in this state, or nothing where it has none.
pub fn line_of_unit(alloc: Global, unit: &UnitName, state: State) -> Result<Vec<u8>, AllocError>
    ensures { IfOk result (λ line. line.items ≡ unit_text unit.now state) }
{
    let mut line = Vec::new(alloc);
    match state {
        State::Inactive => {}
        State::Active | State::Failed => write_state_of(&mut line, unit, state)?,
    }
    Ok(line)
}
