//! The units of a made machine.
ghost use Rattle.std.specs.Prelude.{◌≡◌, ◌∷◌, [], IfOk, OnOk, string_bytes};
ghost use Rattle.host_trait.specs.Manager.{IsPlain};
ghost use Rattle.made_world.specs.Draws.{state_at};
ghost use Rattle.made_world.specs.Putting.{with_bad, with_leaves};
ghost use Rattle.made_world.specs.Units.{new_definitions, unit_bad, unit_file, unit_leaves, unit_name, unit_place, unit_text, units_bad, units_leaves, units_states, with_unit};

use crate::draws::Draws;
use crate::putting::{new_system, old_system, put_file};
use crate::unit_texts::{kind_of, name_of, text_of};
use host_trait::{Bad, State, States, World};
use std::alloc::{AllocError, Global};
use switch_names::{SystemName, Text, UnitName};

/// The name of the unit with this number.
fn unit_name(alloc: Global, number: u64) -> Result<String, AllocError>
    ensures { IfOk result (λ name. string_bytes name ≡ unit_name number) }
{
    name_of(alloc, kind_of(number), number)
}

/// Where the file of a unit stands below a system.
fn unit_place(alloc: Global, number: u64) -> Result<String, AllocError>
    ensures { IfOk result (λ place. string_bytes place ≡ unit_place number) }
{
    let name = unit_name(alloc, number)?;
    let name = name.as_str();
    format!(in alloc; "etc/systemd/system/{name}")
}

/// The text of a unit, changed in one way.
fn unit_text(alloc: Global, number: u64, draw: u64, change: u64) -> Result<String, AllocError>
    ensures { IfOk result (λ text. string_bytes text ≡ unit_text number draw change) }
{
    text_of(alloc, kind_of(number), number, draw, change)
}

/// Puts the file of a unit in a system.
fn put_unit_file(
    alloc: Global,
    world: &mut World,
    system: &SystemName,
    number: u64,
    draw: u64,
    change: u64,
) -> Result<(), AllocError>
    ensures { OnOk result (world.new ≡ with_leaves (unit_file system.now number draw change ∷ []) world.old) }
{
    let place = unit_place(alloc, number)?;
    let text = unit_text(alloc, number, draw, change)?;
    put_file(alloc, world, system, place.as_str(), text.as_str())
}

/// Puts the files of a unit: the old system defines each, and the new one each whose change isn't 3.
fn put_unit(alloc: Global, world: &mut World, number: u64, draw: u64) -> Result<(), AllocError>
    ensures { OnOk result (world.new ≡ with_leaves (unit_leaves number draw) world.old) }
{
    let old = old_system(alloc)?;
    put_unit_file(alloc, world, &old, number, draw, 0)?;
    let change = draw / 8 % 4;
    if change == 3 {
        return Ok(());
    }
    let new = new_system(alloc)?;
    put_unit_file(alloc, world, &new, number, draw, change)
}

/// The name of the unit with this number, as a unit's.
fn known_name(alloc: Global, number: u64) -> Result<UnitName, AllocError>
    ensures { IfOk result (λ name. name ≡ unit_name number) }
{
    let name = unit_name(alloc, number)?;
    match UnitName::parse(alloc, name.as_str()) {
        Ok(name) => Ok(name),
        Err(_) => Err(AllocError),
    }
}

/// Where the definitions of the new system lie.
#[tactic(auto, unfolding(crate::specs::Putting::new_system))]
fn new_definitions(alloc: Global) -> Result<Text, AllocError>
    ensures text { IfOk result (λ text. text ≡ new_definitions) }
    ensures plain { IfOk result IsPlain }
{
    Text::from_str(alloc, "/nix/store/new-sys/etc")
}

/// Says of a unit that it fails under the new definitions, where it does.
fn add_bad(alloc: Global, world: &mut World, number: u64, draw: u64) -> Result<(), AllocError>
    ensures { OnOk result (world.new ≡ with_bad (unit_bad number draw) world.old) }
{
    if draw / 128 % 64 != 0 {
        return Ok(());
    }
    let unit = known_name(alloc, number)?;
    let loaded = new_definitions(alloc)?;
    world.add_bad(Bad { unit, loaded })
}

/// Brings a unit to its state: one in four isn't active.
fn set_unit(alloc: Global, states: &mut States, number: u64, draw: u64) -> Result<(), AllocError>
    ensures { OnOk result (states.new ≡ with_unit number draw states.old) }
{
    if draw / 32 % 4 == 0 {
        return Ok(());
    }
    let unit = known_name(alloc, number)?;
    states.set(unit, State::Active)
}

/// Puts the units with these draws, and answers their states.
pub(crate) fn make_units(
    alloc: Global,
    world: &mut World,
    draws: &mut Draws,
    units: u32,
) -> Result<States, AllocError>
    ensures world { OnOk result (world.new ≡ with_bad (units_bad draws.old.state units) (with_leaves (units_leaves draws.old.state units) world.old)) }
    ensures states { IfOk result (λ states. states ≡ units_states draws.old.state units) }
    ensures draws { OnOk result (draws.new.state ≡ state_at draws.old.state units) }
{
    let mut states = States::new(alloc);
    for number in 0..u64::from(units) {
        let draw = draws.draw();
        put_unit(alloc, world, number, draw)?;
        add_bad(alloc, world, number, draw)?;
        set_unit(alloc, &mut states, number, draw)?;
    }
    Ok(states)
}
