//! A manager's state with its text, in which an act writes only the lines that it changes.
ghost use Rattle.std.specs.Prelude.{◌≡◌, ◌≤◌, ◌++◌, drop, length, take, IfErr, IfOk, OnOk, OnErr};
ghost use Rattle.host_trait.specs.Manager.{IsPlain, acted, empty_manager, loading};
ghost use Rattle.manager_core.specs.StateText.{IsFaultOf, IsTextOf};

use crate::reading::read_state;
use crate::state_fault::StateFault;
use crate::stepping::{act_on, load, state_after};
use crate::unit_line::{line_at, line_of_unit, loaded_len};
use crate::writing::{write_act, write_loaded, write_state};
use host_trait::{Act, ManagerState};
use std::alloc::{AllocError, Global};
use std::marker::Model;
use switch_names::{Bytes, Text, UnitName};

/// A manager's state with its text.
pub struct WrittenState {
    state: ManagerState,
    text: Bytes,
}

/// One call: a derived drop is proved anew in each function that lets one go.
impl Drop for WrittenState {
    fn drop(self) {
        let WrittenState { state: _, text: _ } = self;
    }
}

impl Model for WrittenState {
    ghost use Rattle.host_trait.specs.contracts.manager_state.ManagerState as manager;
    ghost use Rattle.host_trait.specs.declared.manager_state.ManagerState.{ManagerState};
    ghost use Rattle.manager_core.specs.StateText.{IsTextOf};

    ghost Value = { ManagerState };

    ghost coded = { manager.the_row.coded };

    ghost view = { λ written. written.state };

    ghost invariant = { λ written. IsTextOf written.state written.text };
}

/// Puts a line in the place of what stands between two places of a text.
fn replace(text: &mut Vec<u8>, from: usize, to: usize, line: Vec<u8>) -> Result<(), AllocError>
    requires order { from ≤ to }
    requires within { to ≤ length text.old.items }
    ensures { OnOk result (text.new.items ≡ take from text.old.items ++ (line.items ++ drop to text.old.items)) }
{
    let _was = text.splice(from..to, line)?;
    Ok(())
}

/// Does an act on a unit, and writes its line anew and the one of the act.
fn act_in(
    alloc: Global,
    state: &mut ManagerState,
    text: &mut Vec<u8>,
    act: Act,
    unit: &UnitName,
) -> Result<(), AllocError>
    requires { IsTextOf state.old text.old.items }
    ensures state { OnOk result (state.new ≡ acted act unit.now state.old) }
    ensures text { OnOk result (IsTextOf state.new text.new.items) }
{
    // A text that is longer than a `usize` counts has no room in memory.
    let Some((from, to)) = line_at(state, unit) else {
        return Err(AllocError);
    };
    let line = line_of_unit(alloc, unit, state_after(state, act, unit))?;
    act_on(alloc, state, act, unit)?;
    replace(text, from, to, line)?;
    write_act(text, act, unit, &state.loaded)
}

/// Loads definitions, and writes the first line anew.
fn load_in(
    alloc: Global,
    state: &mut ManagerState,
    text: &mut Vec<u8>,
    loaded: &Text,
) -> Result<(), AllocError>
    requires text { IsTextOf state.old text.old.items }
    requires plain { IsPlain loaded.now }
    ensures state { OnOk result (state.new ≡ loading loaded.now state.old) }
    ensures text { OnOk result (IsTextOf state.new text.new.items) }
{
    let Some(to) = loaded_len(&state.loaded) else {
        return Err(AllocError);
    };
    load(alloc, state, loaded)?;
    let mut line = Vec::new(alloc);
    write_loaded(&mut line, loaded)?;
    replace(text, 0, to, line)
}

impl WrittenState {
    /// A manager that has done nothing yet.
    pub fn new(alloc: Global) -> Result<WrittenState, AllocError>
        ensures { IfOk result (λ written. written ≡ empty_manager) }
    {
        let state = ManagerState::new(alloc);
        let text = write_state(alloc, &state)?;
        Ok(WrittenState { state, text })
    }

    /// The state that some bytes are the text of.
    pub fn read(alloc: Global, text: Bytes) -> Result<WrittenState, StateFault>
        ensures ok { IfOk result (λ written. IsTextOf written text) }
        ensures fault { IfErr result (λ fault. IsFaultOf text fault) }
    {
        let state = read_state(alloc, text.as_slice())?;
        Ok(WrittenState { state, text })
    }

    /// The state.
    pub fn state(&self) -> &ManagerState
        ensures { result.now ≡ self.now }
    {
        &self.state
    }

    /// The state's text, which `read` reads again as that state.
    pub fn text(&self) -> &[u8]
        ensures { IsTextOf self.now result.now }
    {
        self.text.as_slice()
    }

    /// Does an act on a unit.
    pub fn act(self, alloc: Global, act: Act, unit: &UnitName) -> Result<WrittenState, AllocError>
        ensures { IfOk result (λ written. written ≡ acted act unit.now self) }
    {
        let WrittenState { mut state, text } = self;
        let mut text = text.into_vec();
        act_in(alloc, &mut state, &mut text, act, unit)?;
        Ok(WrittenState {
            state,
            text: Bytes::from_vec(text),
        })
    }

    /// Loads definitions from here.
    pub fn load(self, alloc: Global, loaded: &Text) -> Result<WrittenState, AllocError>
        requires { IsPlain loaded.now }
        ensures { IfOk result (λ written. written ≡ loading loaded.now self) }
    {
        let WrittenState { mut state, text } = self;
        let mut text = text.into_vec();
        load_in(alloc, &mut state, &mut text, loaded)?;
        Ok(WrittenState {
            state,
            text: Bytes::from_vec(text),
        })
    }
}
