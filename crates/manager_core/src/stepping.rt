//! What each call makes of a manager's state.
ghost use Rattle.std.specs.Prelude.{◌≡◌, ◌++◌, ◌∷◌, [], OnOk, OnErr};
ghost use Rattle.host_trait.specs.Manager.{HasPlainTexts, acted, brought, halted, is_bad, loading, state_after};
ghost use Rattle.host_trait.specs.States.{with_state};
ghost use Rattle.manager_core.specs.Call.{IsPlainCall, done, effected, entered};

use crate::call::Call;
use host_trait::{Act, Bad, Entry, ManagerState, State};
use std::alloc::{AllocError, Global};
use switch_names::{Listed, Text, UnitName};

/// Whether a unit fails when it is started under these definitions.
fn is_bad(bad: &Listed<Bad>, loaded: &Text, unit: &UnitName) -> bool
    ensures { result ≡ is_bad bad.now loaded.now unit.now }
{
    bad.as_slice()
        .iter()
        .any(|one| one.loaded == *loaded && one.unit == *unit)
}

/// What a start brings a unit to.
fn brought(state: &ManagerState, unit: &UnitName) -> State
    ensures { result ≡ brought state.now unit.now }
{
    if is_bad(&state.bad, &state.loaded, unit) {
        State::Failed
    } else {
        State::Active
    }
}

/// What a start leaves a unit in, which may be started already.
fn started(state: &ManagerState, unit: &UnitName) -> State
    ensures { result ≡ state_after Act.Start unit.now state.now }
{
    match state.states.of(unit) {
        State::Active => State::Active,
        State::Inactive | State::Failed => brought(state, unit),
    }
}

/// The state of a unit after an act on it.
pub fn state_after(state: &ManagerState, act: Act, unit: &UnitName) -> State
    ensures { result ≡ state_after act unit.now state.now }
{
    match act {
        Act::Stop => State::Inactive,
        Act::Start => started(state, unit),
        Act::Restart => brought(state, unit),
        Act::Reload => state.states.of(unit),
    }
}

/// Puts a unit into a state.
fn set_state(
    alloc: Global,
    state: &mut ManagerState,
    unit: &UnitName,
    now: State,
) -> Result<(), AllocError>
    ensures ok { OnOk result (state.new ≡ record state.old { states = with_state unit.now now state.old.states }) }
    ensures err { OnErr result (state.new ≡ state.old) }
{
    let unit = unit.copy(alloc)?;
    state.states.set(unit, now)
}

/// Enters an act in the journal, with what is loaded, and changes nothing else.
pub fn enter(
    alloc: Global,
    state: &mut ManagerState,
    act: Act,
    unit: &UnitName,
) -> Result<(), AllocError>
    ensures ok { OnOk result (state.new ≡ entered act unit.now state.old) }
    ensures err { OnErr result (state.new ≡ state.old) }
{
    let entry = Entry {
        unit: unit.copy(alloc)?,
        act,
        loaded: state.loaded.copy(alloc)?,
    };
    state.journal.push(entry)
}

/// Brings a unit to the state that an act leaves it in, and enters nothing.
pub fn take_effect(
    alloc: Global,
    state: &mut ManagerState,
    act: Act,
    unit: &UnitName,
) -> Result<(), AllocError>
    ensures ok { OnOk result (state.new ≡ effected act unit.now state.old) }
    ensures err { OnErr result (state.new ≡ state.old) }
{
    let now = state_after(state, act, unit);
    set_state(alloc, state, unit, now)
}

/// Does an act on a unit: it is entered, and then it takes effect.
///
/// Where memory is wanting for its effect, its entry is taken out again.
pub fn act_on(
    alloc: Global,
    state: &mut ManagerState,
    act: Act,
    unit: &UnitName,
) -> Result<(), AllocError>
    ensures ok { OnOk result (state.new ≡ acted act unit.now state.old) }
    ensures err { OnErr result (state.new ≡ state.old) }
{
    let count = state.journal.as_slice().len();
    enter(alloc, state, act, unit)?;
    let effect = take_effect(alloc, state, act, unit);
    if effect.is_err() {
        let _entry = state.journal.remove(count);
    }
    effect
}

/// Has the definitions loaded that lie elsewhere.
pub fn load(alloc: Global, state: &mut ManagerState, text: &Text) -> Result<(), AllocError>
    ensures ok { OnOk result (state.new ≡ loading text.now state.old) }
    ensures err { OnErr result (state.new ≡ state.old) }
{
    state.loaded = text.copy(alloc)?;
    Ok(())
}

/// Does what is asked of a service manager, in one go.
///
/// A stop leaves the unit inactive. A start leaves it as it is where it is active; else, and with
/// every restart, it is failed where the manager's list has it with the definitions that are
/// loaded, and active where not. A reload leaves its state. Each of the four is entered in the
/// journal. Where memory is wanting, the state is as before.
/// Source: systemctl(1), "Unit Commands" and "Manager State Commands".
pub fn step(alloc: Global, state: &mut ManagerState, call: &Call) -> Result<(), AllocError>
    requires plain { HasPlainTexts state.old }
    requires text { IsPlainCall call.now }
    ensures ok { OnOk result (state.new ≡ done call.now state.old) }
    ensures err { OnErr result (state.new ≡ state.old) }
    ensures plain { HasPlainTexts state.new }
{
    match call {
        Call::Stop(unit) => act_on(alloc, state, Act::Stop, unit),
        Call::Start(unit) => act_on(alloc, state, Act::Start, unit),
        Call::Restart(unit) => act_on(alloc, state, Act::Restart, unit),
        Call::Reload(unit) => act_on(alloc, state, Act::Reload, unit),
        Call::Halt(unit) => set_state(alloc, state, unit, State::Inactive),
        Call::DaemonReload(text) => load(alloc, state, text),
    }
}
