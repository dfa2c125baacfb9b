//! What a manager's state comes to, and how its text reads.
ghost use Rattle.std.specs.Prelude.{IfOk, IfSome};
ghost use Rattle.host_trait.specs.Manager.{HasPlainTexts, IsPlain};
ghost use Rattle.manager_core.specs.Call.{IsPlainCall};

use crate::fields::no_memory;
use crate::writing::show_value;
use host_trait::{Leaf, ManagerState, World, loaded_text};
use manager_core::{Call, StateFault, read_state, step, write_state};
use std::alloc::Global;
use std::test::Fail;
use switch_names::{Bytes, Text, UnitName};
use world_text::{Lines, misread, put_places, show_journal, show_states, text_of};

/// Where the definitions lie to which a link leads, or the empty text where there is none.
pub fn loaded_of(alloc: Global, target: &str) -> Result<Text, Fail>
    ensures { IfOk result IsPlain }
{
    if target == "-" {
        return Ok(Text::new(alloc));
    }
    let link = Leaf::link(alloc, target)?;
    Ok(loaded_text(alloc, Some(&link))?)
}

/// The call of a word on a unit.
fn call_on(word: &str, unit: UnitName) -> Option<Call>
    ensures { IfSome result IsPlainCall }
{
    match word {
        "stop" => Some(Call::Stop(unit)),
        "start" => Some(Call::Start(unit)),
        "restart" => Some(Call::Restart(unit)),
        "reload" => Some(Call::Reload(unit)),
        "halt" => Some(Call::Halt(unit)),
        _ => None,
    }
}

/// The call of a word on a unit, or with definitions.
fn call_of(alloc: Global, word: &str, text: &str) -> Result<Option<Call>, Fail>
    ensures { IfOk result (λ call. IfSome call IsPlainCall) }
{
    if word == "load" {
        return Ok(Some(Call::DaemonReload(loaded_of(alloc, text)?)));
    }
    Ok(call_on(word, UnitName::parse(alloc, text)?))
}

/// Makes a call.
fn make_one(alloc: Global, state: &mut ManagerState, call: &[Bytes]) -> Result<(), Fail>
    requires { HasPlainTexts state.old }
    ensures { HasPlainTexts state.new }
{
    let [word, text] = call else {
        return misread();
    };
    match call_of(alloc, text_of(word)?, text_of(text)?)? {
        Some(call) => Ok(step(alloc, state, &call)?),
        None => misread(),
    }
}

/// Makes calls in turn.
fn make(alloc: Global, state: &mut ManagerState, calls: &[Bytes]) -> Result<(), Fail>
    requires { HasPlainTexts state.old }
    ensures { HasPlainTexts state.new }
{
    for call in calls.chunks(2) {
        make_one(alloc, state, call)?;
    }
    Ok(())
}

/// Shows the text of a state.
fn show_state(alloc: Global, lines: &mut Lines, state: &ManagerState) -> Result<(), Fail>
    requires { HasPlainTexts state.now }
{
    let text = write_state(alloc, state)?;
    lines.add_text(std::str::from_utf8(text.as_slice())?);
    Ok(())
}

/// Shows the text of the state that calls in turn make of one that is read, or the fault.
pub fn show_manager(alloc: Global, lines: &mut Lines, fields: &[Bytes]) -> Result<(), Fail> {
    let [text, calls @ ..] = fields else {
        return misread();
    };
    match read_state(alloc, text.as_slice()) {
        Ok(mut state) => {
            make(alloc, &mut state, calls)?;
            show_state(alloc, lines, &state)
        }
        Err(StateFault::Memory) => no_memory(),
        Err(fault) => {
            show_value(lines, &fault);
            Ok(())
        }
    }
}

/// Shows what a world has of a manager, and the text of one that is in hand.
fn show_both(
    alloc: Global,
    lines: &mut Lines,
    world: &World,
    in_hand: &ManagerState,
) -> Result<(), Fail>
    requires { HasPlainTexts in_hand.now }
{
    lines.add_text("in the world:\n");
    show_states(lines, world);
    show_journal(lines, world);
    lines.add_text("in hand:\n");
    show_state(alloc, lines, in_hand)
}

/// Takes the manager out of a world and puts it back, and shows what is where each time.
pub fn show_hand_over(
    alloc: Global,
    lines: &mut Lines,
    world: &mut World,
    places: &[Bytes],
) -> Result<(), Fail> {
    put_places(alloc, world, places)?;
    let manager = world.swap_manager(ManagerState::new(alloc));
    let shown = show_both(alloc, lines, world, &manager);
    let empty = world.swap_manager(manager);
    shown?;
    show_both(alloc, lines, world, &empty)
}
