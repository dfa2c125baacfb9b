//! Decisions on Active units.
ghost use Rattle.std.specs.Prelude.{◌≡◌, Bool, true, false};
ghost use Rattle.std.specs.Option.{option_copied};
ghost use Rattle.switch_names.specs.declared.unit_kind.UnitKind.TheVariants.{Target};
ghost use Rattle.unit_decide.specs.Decision.{IsChanged, decide};
ghost use Rattle.unit_decide.specs.Facts.{facts_of};
ghost use Rattle.unit_decide.specs.Kinds.{is_kind};

use crate::facts::Facts;
use crate::kinds::{is_left_alone, is_mount, is_reload_only, is_same, is_service, is_target};
use switch_names::UnitName;
use unit_text::UnitText;

/// What a switch does with an Active unit, as in the NixOS manual, "Unit handling".
#[derive(Clone, Copy, Debug, PartialEq, Eq)]
pub enum Decision {
    /// The unit is left as it is.
    Nothing,
    /// It is stopped.
    Stop,
    /// It is started: what is Active stays Active.
    Start,
    /// It is stopped, and started once the new definitions are loaded.
    StopStart,
    /// It is stopped with its live sockets, and these are started once the new definitions are loaded.
    SocketStart,
    /// It is restarted once the new definitions are loaded.
    Restart,
    /// It is reloaded once the new definitions are loaded.
    Reload,
}

/// What becomes of an Active unit that the two systems define by these texts, or don't define.
///
/// `live` tells whether one of the sockets that the unit is paired with is Active or waits for its
/// start. Sources: NixOS manual, "Unit handling", and systemd.unit(5) for the flags without `X-`.
pub fn decide(
    old: Option<&UnitText>,
    new: Option<&UnitText>,
    unit: &UnitName,
    live: bool,
) -> Decision
    ensures { result ≡ decide (facts_of (option_copied old.entry) (option_copied new.entry) unit.now) live }
{
    decide_by(&Facts::of(old, new, unit), live)
}

/// What becomes of an Active unit by what the two systems say of it: the first row of the table that
/// fits.
#[tactic(auto, unfolding(crate::specs::Decision::decide))]
pub fn decide_by(facts: &Facts, live: bool) -> Decision
    ensures { result ≡ decide facts.now live }
{
    if !facts.in_new {
        decide_removed(facts)
    } else if is_target(facts.kind) {
        decide_target(facts)
    } else if !facts.in_old || is_same(&facts.outcome) {
        Decision::Nothing
    } else if is_left_alone(facts.kind) {
        Decision::Nothing
    } else {
        decide_changed(facts, live)
    }
}

/// The rows of a unit that the new system doesn't define.
#[tactic(auto, unfolding(crate::specs::Decision::decide))]
fn decide_removed(facts: &Facts) -> Decision
    requires { facts.now.in_new ≡ false }
    ensures { (live : Bool) → result ≡ decide facts.now live }
{
    if facts.in_old && facts.stop_on_removal {
        Decision::Stop
    } else {
        Decision::Nothing
    }
}

/// The rows of a target.
#[tactic(auto, unfolding(crate::specs::Decision::decide))]
fn decide_target(facts: &Facts) -> Decision
    requires defined { facts.now.in_new ≡ true }
    requires target { is_kind facts.now.kind Target ≡ true }
    ensures { (live : Bool) → result ≡ decide facts.now live }
{
    match (facts.stop_on_reconfiguration, facts.may_start) {
        (true, true) => Decision::StopStart,
        (true, false) => Decision::Stop,
        (false, true) => Decision::Start,
        (false, false) => Decision::Nothing,
    }
}

/// The rows of a unit that has changed, whose kind is no target and isn't left alone.
#[tactic(auto, unfolding(crate::specs::Decision::decide))]
fn decide_changed(facts: &Facts, live: bool) -> Decision
    requires { IsChanged facts.now }
    ensures { result ≡ decide facts.now live }
{
    if is_reload_only(&facts.outcome) || facts.is_root_mount {
        Decision::Reload
    } else if is_mount(facts.kind) {
        Decision::Restart
    } else if facts.reload_if_changed {
        Decision::Reload
    } else if !facts.restart_if_changed || facts.refuse_manual_stop || facts.only_manual_start {
        Decision::Nothing
    } else if !is_service(facts.kind) || !facts.stop_if_changed {
        Decision::Restart
    } else if live {
        Decision::SocketStart
    } else {
        Decision::StopStart
    }
}
