//! What a state becomes with one more line, where that line may stand.
ghost use Rattle.std.specs.Prelude.{◌≡◌, true, OnOk, IfOk};
ghost use Rattle.manager_core.specs.Placing.{added, begun, is_above, may_stand, stands, with_line};

use crate::line::{Line, read_line};
use host_trait::{ManagerState, UnitState};
use std::alloc::{AllocError, Global};
use switch_names::UnitName;

/// The state that a first line begins, where it is one.
pub fn begin(alloc: Global, line: &[u8]) -> Result<Option<ManagerState>, AllocError>
    ensures { IfOk result (λ state. state ≡ begun line.now) }
{
    match read_line(alloc, line)? {
        Some(Line::Loaded(text)) => {
            let mut state = ManagerState::new(alloc);
            state.loaded = text;
            Ok(Some(state))
        }
        _ => Ok(None),
    }
}

/// Whether a unit is higher than the last one of a list.
fn is_above(units: &[UnitState], unit: &UnitName) -> bool
    ensures { result ≡ is_above units.now unit.now }
{
    match units.last() {
        Some(last) => last.unit < *unit,
        None => true,
    }
}

/// Whether a line may stand after those that made a state.
fn may_stand(state: &ManagerState, line: &Line) -> bool
    ensures { result ≡ may_stand line.now state.now }
{
    match line {
        Line::Loaded(_) => false,
        Line::State(one) => {
            state.bad.as_slice().is_empty()
                && state.journal.as_slice().is_empty()
                && is_above(state.states.list().as_slice(), &one.unit)
        }
        Line::Bad(_) => state.journal.as_slice().is_empty(),
        Line::Entry(_) => true,
    }
}

/// Adds what a line says.
fn add(state: &mut ManagerState, line: Line) -> Result<(), AllocError>
    ensures { OnOk result (state.new ≡ added line state.old) }
{
    match line {
        Line::Loaded(text) => {
            state.loaded = text;
            Ok(())
        }
        Line::State(one) => state.states.set(one.unit, one.state),
        Line::Bad(bad) => state.bad.push(bad),
        Line::Entry(entry) => state.journal.push(entry),
    }
}

/// Reads one more line into a state, where it may stand there.
pub fn take_line(alloc: Global, state: &mut ManagerState, line: &[u8]) -> Result<bool, AllocError>
    ensures stands { IfOk result (λ is. is ≡ stands state.old line.now) }
    ensures new { OnOk result (stands state.old line.now ≡ true → state.new ≡ with_line state.old line.now) }
{
    match read_line(alloc, line)? {
        Some(line) => {
            if !may_stand(state, &line) {
                return Ok(false);
            }
            add(state, line)?;
            Ok(true)
        }
        None => Ok(false),
    }
}
