//! What the states of units answer.
use crate::writing::show_value;
use host_trait::{State, World};
use std::alloc::Global;
use std::test::Fail;
use switch_names::{Bytes, UnitName};
use world_text::{Lines, misread, show_states, text_of};

/// Brings a unit to the state of a word.
pub fn bring(
    alloc: Global,
    world: &mut World,
    unit: &Bytes,
    state: &Bytes,
) -> Result<UnitName, Fail> {
    let state = match text_of(state)? {
        "active" => State::Active,
        "inactive" => State::Inactive,
        "failed" => State::Failed,
        _ => return misread(),
    };
    let unit = UnitName::parse(alloc, text_of(unit)?)?;
    world.set_state(unit.copy(alloc)?, state)?;
    Ok(unit)
}

/// Brings a unit to the state of a word, and shows what is told of it, and the units that aren't inactive.
fn show_state_set(
    alloc: Global,
    lines: &mut Lines,
    world: &mut World,
    (unit, state): (&Bytes, &Bytes),
) -> Result<(), Fail> {
    let unit = bring(alloc, world, unit, state)?;
    lines.add_word(unit.as_str());
    lines.add_word("is");
    show_value(lines, &world.states().of(&unit));
    show_states(lines, world);
    Ok(())
}

/// Shows the same in turn.
pub fn show_states_set(
    alloc: Global,
    lines: &mut Lines,
    world: &mut World,
    fields: &[Bytes],
) -> Result<(), Fail> {
    for pair in fields.chunks(2) {
        let [unit, state] = pair else {
            return misread();
        };
        show_state_set(alloc, lines, world, (unit, state))?;
    }
    Ok(())
}
