//! The states of units.
ghost use Rattle.std.specs.Prelude.{◌≡◌, ◌≢◌, ◌↔◌, IfOk, IfErr, OnOk, OnErr, IsTrue, Some, slice_get};
ghost use Rattle.std.specs.FinMap as map;
ghost use Rattle.host_trait.specs.States.{AreAlike, AreStates, IsPlaceFor, IsSortedList, listed_states, state_of, states_of, units_of, with_state};

use crate::unit_state::{State, UnitState};
use std::alloc::{AllocError, Global};
use std::marker::Model;
use switch_names::{Listed, UnitName};

/// The units that aren't inactive, with their states, in byte order.
///
/// Contracts see the map from their names to their states.
pub struct States {
    list: Listed<UnitState>,
}

/// One call: a derived drop is proved anew in each function that lets one go.
impl Drop for States {
    fn drop(self) {
        let States { list: _ } = self;
    }
}

impl Model for States {
    ghost use Rattle.host_trait.specs.contracts.unit_state.State as state;
    ghost use Rattle.host_trait.specs.States.{IsSortedList, UnitStates, states_code, states_of};

    ghost Value = { UnitStates };

    ghost coded = { states_code state.the_row.coded };

    ghost view = { λ states. states_of states.list };

    ghost invariant = { λ states. IsSortedList states.list };
}

/// Where a unit stands in a list in order, or where it would.
fn find_unit(list: &Listed<UnitState>, unit: &UnitName) -> Result<usize, usize>
    requires { IsSortedList list.now }
    ensures found { IfOk result (λ at. slice_get (units_of list.now) at ≡ Some unit.now) }
    ensures missing { IfErr result (λ at. IsPlaceFor list.now unit.now at) }
{
    list.as_slice()
        .binary_search_by(|other| other.unit.cmp(unit))
}

/// The state of a unit in a list in order.
fn state_in(list: &Listed<UnitState>, unit: &UnitName) -> State
    requires { IsSortedList list.now }
    ensures { result ≡ state_of (states_of list.now) unit.now }
{
    match find_unit(list, unit) {
        Ok(at) => list.as_slice()[at].state,
        Err(_) => State::Inactive,
    }
}

/// Takes a unit out of a list in order.
fn remove_from(list: &mut Listed<UnitState>, unit: &UnitName)
    requires { IsSortedList list.old }
    ensures removed { states_of list.new ≡ map.remove (states_of list.old) unit.now }
    ensures sorted { IsSortedList list.new }
{
    match find_unit(list, unit) {
        Ok(at) => {
            let _was = list.remove(at);
        }
        Err(_) => {}
    }
}

/// Puts a unit into a list in order.
fn put_into(list: &mut Listed<UnitState>, unit: UnitName, state: State) -> Result<(), AllocError>
    requires sorted { IsSortedList list.old }
    requires other { state ≢ State.Inactive }
    ensures ok { OnOk result (states_of list.new ≡ map.insert (states_of list.old) unit state) }
    ensures err { OnErr result (list.new ≡ list.old) }
    ensures sorted { IsSortedList list.new }
{
    let _name = unit.as_str();
    match find_unit(list, &unit) {
        Ok(at) => {
            let _was = list.replace(at, UnitState { unit, state });
            Ok(())
        }
        Err(at) => list.insert(at, UnitState { unit, state }),
    }
}

/// Changes the state of one unit in a list in order.
fn set_in(list: &mut Listed<UnitState>, unit: UnitName, state: State) -> Result<(), AllocError>
    requires { IsSortedList list.old }
    ensures ok { OnOk result (states_of list.new ≡ with_state unit state (states_of list.old)) }
    ensures err { OnErr result (list.new ≡ list.old) }
    ensures sorted { IsSortedList list.new }
{
    match state {
        State::Inactive => {
            remove_from(list, &unit);
            Ok(())
        }
        State::Active | State::Failed => put_into(list, unit, state),
    }
}

/// Whether two lists of units are equal.
fn are_same_lists(list: &[UnitState], other: &[UnitState]) -> bool
    ensures { IsTrue result ↔ (list.now ≡ other.now) }
{
    list == other
}

/// Equal units in the same states.
fn copy_list(alloc: Global, list: &[UnitState]) -> Result<Vec<UnitState>, AllocError>
    ensures { IfOk result (λ copied. copied.items ≡ list.now) }
{
    let mut copied = Vec::with_capacity(alloc, list.len())?;
    for one in list {
        copied.push(UnitState {
            unit: one.unit.copy(alloc)?,
            state: one.state,
        })?;
    }
    Ok(copied)
}

impl States {
    /// No unit is other than inactive.
    pub fn new(alloc: Global) -> States
        ensures { result ≡ map.empty }
    {
        States {
            list: Listed::new(alloc),
        }
    }

    /// The state of a unit. One that isn't listed is inactive.
    pub fn of(&self, unit: &UnitName) -> State
        ensures { result ≡ state_of self.now unit.now }
    {
        state_in(&self.list, unit)
    }

    /// The units that aren't inactive, in byte order.
    pub fn list(&self) -> &Listed<UnitState>
        ensures list { result.now ≡ listed_states self.now }
        ensures are_states { AreStates self.now }
    {
        &self.list
    }

    /// Where a unit stands in the list, or else where it would, as a binary search answers.
    pub fn find(&self, unit: &UnitName) -> Result<usize, usize>
        ensures found { IfOk result (λ at. slice_get (units_of (listed_states self.now)) at ≡ Some unit.now) }
        ensures missing { IfErr result (λ at. IsPlaceFor (listed_states self.now) unit.now at) }
    {
        find_unit(&self.list, unit)
    }

    /// Changes the state of one unit.
    pub fn set(&mut self, unit: UnitName, state: State) -> Result<(), AllocError>
        ensures ok { OnOk result (self.new ≡ with_state unit state self.old) }
        ensures err { OnErr result (self.new ≡ self.old) }
    {
        set_in(&mut self.list, unit, state)
    }

    /// Whether the two have each unit in the same state.
    pub fn same(&self, other: &States) -> bool
        ensures equal { IsTrue result ↔ (self.now ≡ other.now) }
        ensures alike { IsTrue result ↔ AreAlike self.now other.now }
    {
        are_same_lists(self.list.as_slice(), other.list.as_slice())
    }

    /// Equal states.
    pub fn copy(&self, alloc: Global) -> Result<States, AllocError>
        ensures { IfOk result (λ copied. copied ≡ self.now) }
    {
        Ok(States {
            list: Listed::from_vec(copy_list(alloc, self.list.as_slice())?),
        })
    }
}
