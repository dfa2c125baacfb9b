//! What is decided, what is listed and what is pulled, as the units that are owed something.
ghost use Rattle.std.specs.Prelude.{◌≡◌, ◌&&◌, ◌||◌, List, ℕ, IfOk, OnOk, filter};
ghost use Rattle.std.specs.List.{list_any};
ghost use Rattle.owed_plan.specs.Collected.{AreBySelf, IsListBy, comes_up, defined, is_by_self};
ghost use Rattle.host_trait.specs.Manager.{is_active};
ghost use Rattle.owed_plan.specs.Decisions.{is_stopped, leaves, puts, situation_of, stops, wakes};
ghost use Rattle.owed_plan.specs.Lists.{is_listed, is_put};
ghost use Rattle.switch_names.specs.Names.{has, is_name};

use crate::deciding::UnitDecision;
use crate::known::Inputs;
use crate::touched::{Touched, add_pulled};
use host_trait::UnitSet;
use log_text::{Lists, RECORD_ORDER, Which};
use std::alloc::{AllocError, Global};
use switch_names::{Listed, UnitName};
use unit_decide::Decision;

/// Whether a unit is stopped, whether or not it is started then.
fn is_stopped(decision: Decision) -> bool
    ensures { result ≡ is_stopped decision }
{
    matches!(
        decision,
        Decision::Stop | Decision::StopStart | Decision::SocketStart
    )
}

/// Whether a decision puts its unit on a list.
fn is_put(which: Which, decision: Decision) -> bool
    ensures { result ≡ is_put which decision }
{
    match which {
        Which::Starts => matches!(decision, Decision::Start | Decision::StopStart),
        Which::Restarts => matches!(decision, Decision::Restart),
        Which::Reloads => matches!(decision, Decision::Reload),
    }
}

/// Adds a name to a set, where it is to be there.
pub fn add_if(
    alloc: Global,
    set: &mut UnitSet,
    name: &UnitName,
    is_added: bool,
) -> Result<(), AllocError>
    ensures { OnOk result ((unit : List ℕ) → has set.new unit ≡ (has set.old unit || (is_added && is_name unit name.now))) }
{
    if is_added {
        set.insert(name.copy(alloc)?)?;
    }
    Ok(())
}

/// Adds those of some names that are Active.
fn add_active(
    alloc: Global,
    known: Inputs<'_>,
    set: &mut UnitSet,
    names: &[UnitName],
) -> Result<(), AllocError>
    ensures { OnOk result ((unit : List ℕ) → has set.new unit ≡ (has set.old unit || has (filter (λ name. is_active ((situation_of known.entry).states name)) names.now) unit)) }
{
    for name in names {
        add_if(alloc, set, name, known.is_active(name))?;
    }
    Ok(())
}

/// Adds those of some names that the new system defines.
fn add_defined(
    alloc: Global,
    known: Inputs<'_>,
    set: &mut UnitSet,
    names: &[UnitName],
) -> Result<(), AllocError>
    ensures { OnOk result ((unit : List ℕ) → has set.new unit ≡ (has set.old unit || has (defined (situation_of known.entry) names.now) unit)) }
{
    for name in names {
        add_if(alloc, set, name, known.is_defined(name))?;
    }
    Ok(())
}

/// Adds what a decision stops: its unit, and the Active ones of the sockets to which the unit is left.
fn add_stops(
    alloc: Global,
    known: Inputs<'_>,
    set: &mut UnitSet,
    decided: &UnitDecision,
) -> Result<(), AllocError>
    ensures { OnOk result ((unit : List ℕ) → has set.new unit ≡ (has set.old unit || stops (situation_of known.entry) unit decided.now)) }
{
    add_if(alloc, set, &decided.unit, is_stopped(decided.decision))?;
    add_active(alloc, known, set, decided.live.as_slice())
}

/// The units that these decisions stop.
pub fn decided_stops(
    alloc: Global,
    known: Inputs<'_>,
    decisions: &[UnitDecision],
) -> Result<UnitSet, AllocError>
    ensures { IfOk result (λ set. (unit : List ℕ) → has set unit ≡ list_any (stops (situation_of known.entry) unit) decisions.now) }
{
    let mut set = UnitSet::new(alloc);
    for decided in decisions {
        add_stops(alloc, known, &mut set, decided)?;
    }
    Ok(set)
}

/// The changed units that these decisions leave as they are, in byte order.
pub fn decided_left(
    alloc: Global,
    decisions: &[UnitDecision],
) -> Result<Listed<UnitName>, AllocError>
    ensures { IfOk result (λ names. IsListBy names (λ unit. list_any (leaves unit) decisions.now)) }
{
    let mut set = UnitSet::new(alloc);
    for decided in decisions {
        add_if(alloc, &mut set, &decided.unit, decided.is_left)?;
    }
    set.into_names(alloc)
}

/// Adds the units that these decisions put on a list.
fn add_put(
    alloc: Global,
    set: &mut UnitSet,
    decisions: &[UnitDecision],
    which: Which,
) -> Result<(), AllocError>
    ensures { OnOk result ((unit : List ℕ) → has set.new unit ≡ (has set.old unit || list_any (puts which unit) decisions.now)) }
{
    for decided in decisions {
        add_if(alloc, set, &decided.unit, is_put(which, decided.decision))?;
    }
    Ok(())
}

/// Adds the live sockets to which these decisions leave units.
fn add_woken(alloc: Global, set: &mut UnitSet, decisions: &[UnitDecision]) -> Result<(), AllocError>
    ensures { OnOk result ((unit : List ℕ) → has set.new unit ≡ (has set.old unit || list_any (wakes unit) decisions.now)) }
{
    for decided in decisions {
        set.insert_all(alloc, decided.live.as_slice())?;
    }
    Ok(())
}

/// The units that are on a list by themselves, in byte order: those that these decisions put there, and those that are listed and
/// defined.
fn by_self(
    alloc: Global,
    known: Inputs<'_>,
    decisions: &[UnitDecision],
    lists: &Lists,
    which: Which,
) -> Result<Listed<UnitName>, AllocError>
    ensures { IfOk result (λ names. IsListBy names (is_by_self (situation_of known.entry) decisions.now lists.now which)) }
{
    let mut set = UnitSet::new(alloc);
    add_put(alloc, &mut set, decisions, which)?;
    add_defined(alloc, known, &mut set, lists.of(which).as_slice())?;
    set.into_names(alloc)
}

/// The units that are on each list by themselves.
pub fn all_by_self(
    alloc: Global,
    known: Inputs<'_>,
    decisions: &[UnitDecision],
    lists: &Lists,
) -> Result<Lists, AllocError>
    ensures { IfOk result (AreBySelf (situation_of known.entry) decisions.now lists.now) }
{
    let starts = by_self(alloc, known, decisions, lists, Which::Starts)?;
    let restarts = by_self(alloc, known, decisions, lists, Which::Restarts)?;
    let reloads = by_self(alloc, known, decisions, lists, Which::Reloads)?;
    Ok(Lists {
        starts,
        restarts,
        reloads,
    })
}

/// The units that are on any of these lists.
fn listed(alloc: Global, lists: &Lists) -> Result<UnitSet, AllocError>
    ensures { IfOk result (λ set. (unit : List ℕ) → has set unit ≡ is_listed lists.now unit) }
{
    let mut set = UnitSet::new(alloc);
    for which in RECORD_ORDER {
        set.insert_all(alloc, lists.of(which).as_slice())?;
    }
    Ok(set)
}

/// The units to start, in byte order: those that are so by themselves, the live sockets to which the decisions leave units, and
/// what is pulled and comes up by no other way.
pub fn all_starts(
    alloc: Global,
    known: Inputs<'_>,
    decisions: &[UnitDecision],
    stops: &UnitSet,
    own: &Lists,
    pulled: &[UnitName],
) -> Result<Listed<UnitName>, AllocError>
    ensures { IfOk result (λ names. IsListBy names (λ unit. (has own.now.starts unit || list_any (wakes unit) decisions.now)
        || has (filter (comes_up (situation_of known.entry) stops.now own.now) pulled.now) unit)) }
{
    let listed = listed(alloc, own)?;
    let touched = Touched {
        stops,
        listed: &listed,
    };
    let mut set = UnitSet::of(alloc, own.starts.as_slice())?;
    add_woken(alloc, &mut set, decisions)?;
    add_pulled(alloc, known, touched, &mut set, pulled)?;
    set.into_names(alloc)
}
