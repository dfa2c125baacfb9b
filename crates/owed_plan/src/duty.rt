//! The calls by which what is owed is given.
ghost use Rattle.std.specs.Prelude.{◌≡◌, ◌++◌, ◌∷◌, [], IfOk, OnOk, filter, map, not};
ghost use Rattle.host_trait.specs.States.{state_of};
ghost use Rattle.host_trait.specs.declared.entry.Act.TheVariants.{Stop};
ghost use Rattle.log_text.specs.declared.lists.Which.TheVariants.{Starts};
ghost use Rattle.log_text.specs.Lists.{list_names, with_list};
ghost use Rattle.owed_plan.specs.Calls.{act_on, calls_of, duty, reload_act};
ghost use Rattle.owed_plan.specs.Owed.{sockets_first};
ghost use Rattle.switch_names.specs.declared.unit_kind.UnitKind.TheVariants.{Socket};
ghost use Rattle.unit_decide.specs.Facts.{unit_kind};
ghost use Rattle.unit_decide.specs.Kinds.{is_kind};

use crate::owed::Owed;
use host_trait::{Act, States, UnitSet};
use log_text::Which;
use start_order::Ordered;
use std::alloc::{AllocError, Global};
use switch_names::{Listed, UnitName};
use unit_decide::is_socket;

/// The lists in the order in which what their units wait for is given.
pub const GIVE_ORDER: [Which; 3] = [Which::Reloads, Which::Restarts, Which::Starts];

/// An act on a unit that is owed.
pub struct Duty {
    pub act: Act,
    pub unit: UnitName,
}

/// One call: a derived drop is proved anew in each function that lets one go.
impl Drop for Duty {
    fn drop(self) {
        let Duty { act: _, unit: _ } = self;
    }
}

/// Whether a unit is a socket.
fn is_socket_unit(unit: &UnitName) -> bool
    ensures { result ≡ is_kind (unit_kind unit.now) Socket }
{
    is_socket(unit.kind())
}

/// Adds a call on a unit.
fn add_call(
    alloc: Global,
    duties: &mut Listed<Duty>,
    act: Act,
    unit: &UnitName,
) -> Result<(), AllocError>
    ensures { OnOk result (duties.new ≡ duties.old ++ map (duty act) (unit.now ∷ [])) }
{
    duties.push(Duty {
        act,
        unit: unit.copy(alloc)?,
    })
}

/// Adds the stops of the sockets among these units.
fn add_socket_stops(
    alloc: Global,
    duties: &mut Listed<Duty>,
    units: &[UnitName],
) -> Result<(), AllocError>
    ensures { OnOk result (duties.new ≡ duties.old ++ map (duty Stop) (filter (λ unit. is_kind (unit_kind unit) Socket) units.now)) }
{
    for unit in units {
        if is_socket_unit(unit) {
            add_call(alloc, duties, Act::Stop, unit)?;
        }
    }
    Ok(())
}

/// Adds the stops of the units among these that aren't sockets.
fn add_other_stops(
    alloc: Global,
    duties: &mut Listed<Duty>,
    units: &[UnitName],
) -> Result<(), AllocError>
    ensures { OnOk result (duties.new ≡ duties.old ++ map (duty Stop) (filter (λ unit. not (is_kind (unit_kind unit) Socket)) units.now)) }
{
    for unit in units {
        if !is_socket_unit(unit) {
            add_call(alloc, duties, Act::Stop, unit)?;
        }
    }
    Ok(())
}

/// Adds the stops of units, sockets first.
fn add_stops(alloc: Global, duties: &mut Listed<Duty>, units: &[UnitName]) -> Result<(), AllocError>
    ensures { OnOk result (duties.new ≡ duties.old ++ map (duty Stop) (sockets_first unit_kind units.now)) }
{
    add_socket_stops(alloc, duties, units)?;
    add_other_stops(alloc, duties, units)
}

/// How a unit is reloaded: where it stays Active, and by a start elsewhere.
fn reload_act(states: &States, stops: &UnitSet, unit: &UnitName) -> Act
    ensures { result ≡ reload_act (state_of states.now) stops.now unit.now }
{
    let is_stopped = stops.contains(unit);
    if states.of(unit).is_active() && !is_stopped {
        Act::Reload
    } else {
        Act::Start
    }
}

/// The act by which a unit of a list is given what it waits for, given the states and what is stopped first.
fn act_on(which: Which, states: &States, stops: &UnitSet, unit: &UnitName) -> Act
    ensures { result ≡ act_on which (state_of states.now) stops.now unit.now }
{
    match which {
        Which::Starts => Act::Start,
        Which::Restarts => Act::Restart,
        Which::Reloads => reload_act(states, stops, unit),
    }
}

/// Adds the calls on units of a list, given the states and what is stopped first.
fn add_listed(
    alloc: Global,
    duties: &mut Listed<Duty>,
    states: &States,
    stops: &UnitSet,
    which: Which,
    units: &[UnitName],
) -> Result<(), AllocError>
    ensures { OnOk result (duties.new ≡ duties.old ++ map (λ unit. duty (act_on which (state_of states.now) stops.now unit) unit) units.now) }
{
    for unit in units {
        add_call(alloc, duties, act_on(which, states, stops, unit), unit)?;
    }
    Ok(())
}

/// The units of a list in the order of their calls: the starts as they are ordered, and others by name.
fn in_turn<'a>(owed: &'a Owed, ordered: &'a Ordered, which: Which) -> &'a [UnitName]
    ensures { result.now ≡ list_names (with_list owed.now.lists Starts ordered.now.units) which }
{
    match which {
        Which::Starts => ordered.units.as_slice(),
        other => owed.lists.of(other).as_slice(),
    }
}

/// The calls by which what is owed is given, in their order: stops with sockets first, reloads,
/// restarts, and the starts as they are ordered.
///
/// A unit that isn't Active, or that is stopped first, is started in place of a reload.
/// Source: NixOS manual, "What happens during a system switch?".
pub fn calls(
    alloc: Global,
    owed: &Owed,
    ordered: &Ordered,
    states: &States,
) -> Result<Listed<Duty>, AllocError>
    ensures { IfOk result (λ duties. duties ≡ calls_of owed.now ordered.now.units (state_of states.now)) }
{
    let stops = UnitSet::of(alloc, owed.stops.as_slice())?;
    let mut duties = Listed::new(alloc);
    add_stops(alloc, &mut duties, owed.stops.as_slice())?;
    for which in GIVE_ORDER {
        let units = in_turn(owed, ordered, which);
        add_listed(alloc, &mut duties, states, &stops, which, units)?;
    }
    Ok(duties)
}
