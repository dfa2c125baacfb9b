//! Whether the marks of the targets and the lists contradict each other.
ghost use Rattle.std.specs.Prelude.{◌≡◌, ◌↔◌, IsTrue, List};
ghost use Rattle.std.specs.List.{list_any};
ghost use Rattle.host_trait.specs.declared.unit_state.State.{State};
ghost use Rattle.log_text.specs.Lists.{record_order};
ghost use Rattle.owed_plan.specs.Lists.{is_starts};
ghost use Rattle.owed_plan.specs.Pull.{Pulled};
ghost use Rattle.owed_plan.specs.Steady.{IsSteady, has_for_good, has_target, is_steady, is_stopped_for_good, is_target};
ghost use Rattle.owed_plan.specs.Systems.{systems_in};
ghost use Rattle.switch_names.specs.Names.{IsListOf, Name};
ghost use Rattle.unit_defs.specs.declared.unit.Unit.{Unit};

use log_text::{Lists, RECORD_ORDER, Which};
use switch_names::{Listed, UnitName};
use unit_decide::Facts;
use unit_defs::Defs;

/// Whether a unit is a target.
fn is_target(unit: &UnitName) -> bool
    ensures { result ≡ is_target unit.now }
{
    unit_decide::is_target(unit.kind())
}

/// Whether a target is stopped at each switch and may not be started.
fn is_for_good(facts: &Facts) -> bool
    ensures { result ≡ is_stopped_for_good facts.now }
{
    unit_decide::is_target(facts.kind)
        && facts.in_new
        && facts.stop_on_reconfiguration
        && !facts.may_start
}

/// Whether a system has a target of this name that it stops at each switch and that may not start.
fn has_for_good(new: &Defs, unit: &UnitName) -> bool
    ensures { result ≡ has_for_good new.now unit.now }
{
    if !is_target(unit) {
        return false;
    }
    let facts = Facts::of(None, new.find(unit), unit);
    is_for_good(&facts)
}

/// Whether a system has such a target of one of these names.
fn any_for_good(new: &Defs, units: &[UnitName]) -> bool
    ensures { result ≡ list_any (has_for_good new.now) units.now }
{
    units.iter().any(|unit| has_for_good(new, unit))
}

/// Whether one of these units is a target.
fn any_target(units: &[UnitName]) -> bool
    ensures { result ≡ list_any is_target units.now }
{
    units.iter().any(|unit| is_target(unit))
}

/// Whether a list is that of the starts.
fn is_starts(which: Which) -> bool
    ensures { result ≡ is_starts which }
{
    matches!(which, Which::Starts)
}

/// Whether another list than that of the starts has a target.
fn has_target(lists: &Lists, which: Which) -> bool
    ensures { result ≡ has_target lists.now which }
{
    !is_starts(which) && any_target(lists.of(which).as_slice())
}

/// Whether any of the lists but that of the starts has a target.
fn any_has_target(lists: &Lists) -> bool
    ensures { result ≡ list_any (has_target lists.now) record_order }
{
    RECORD_ORDER.iter().any(|which| has_target(lists, *which))
}

/// Whether no such target is pulled or waits for a start, and no target is on another list.
fn is_steady_by(new: &Defs, lists: &Lists, pulled: &[UnitName]) -> bool
    ensures { result ≡ is_steady new.now lists.now pulled.now }
{
    !any_for_good(new, pulled)
        && !any_for_good(new, lists.starts.as_slice())
        && !any_has_target(lists)
}

/// Whether the marks of the targets of the new system and the lists that a switch which was cut has
/// left don't contradict each other, given the units that the targets pull. Then a switch that is cut
/// ends as one that isn't.
///
/// They do where a target that is stopped at each switch and may not be started is pulled or waits for
/// a start, and where a target is on another list.
/// Source: NixOS manual, "Unit handling".
pub fn is_steady(new: &Defs, lists: &Lists, pulled: &Listed<UnitName>) -> bool
    ensures { (old : List Unit) (states : Name → State) → IsListOf pulled.now (Pulled (systems_in old new.now) states lists.now)
        → IsTrue result ↔ IsSteady (systems_in old new.now) states lists.now }
{
    is_steady_by(new, lists, pulled.as_slice())
}
