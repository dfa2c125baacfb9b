//! What the table of decisions reads of a unit.
ghost use Rattle.std.specs.Prelude.{◌≡◌, ◌||◌, ◌==◌, nat_eq, codes, unwrap_or, []};
ghost use Rattle.std.specs.Option.{option_copied};
ghost use Rattle.unit_decide.specs.Facts.{facts_of, is_root_mount, outcome_between};
ghost use Rattle.unit_decide.specs.Flags.{may_start};

use crate::flags::{flag, may_start};
use switch_names::{UnitKind, UnitName};
use unit_compare::{Comparison, compare};
use unit_text::UnitText;

/// What the table of decisions reads of a unit in the old system and the new one.
#[derive(Drop)]
pub struct Facts {
    pub kind: UnitKind,
    /// Whether the old system defines the unit.
    pub in_old: bool,
    /// Whether the new system defines it.
    pub in_new: bool,
    /// How its text changed: `Same` where one of the systems doesn't define it.
    pub outcome: Comparison,
    /// `X-StopOnRemoval` of the old text; every other flag is of the new one.
    pub stop_on_removal: bool,
    /// `X-StopOnReconfiguration`.
    pub stop_on_reconfiguration: bool,
    /// Neither `RefuseManualStart` nor `X-OnlyManualStart`.
    pub may_start: bool,
    /// Whether it is a mount that the running system stands on.
    pub is_root_mount: bool,
    /// `X-ReloadIfChanged`.
    pub reload_if_changed: bool,
    /// `X-RestartIfChanged`.
    pub restart_if_changed: bool,
    /// `RefuseManualStop`.
    pub refuse_manual_stop: bool,
    /// `X-OnlyManualStart`.
    pub only_manual_start: bool,
    /// `X-StopIfChanged`.
    pub stop_if_changed: bool,
}

/// Whether a unit is a mount that the running system stands on.
fn is_root_mount(unit: &str) -> bool
    ensures { result ≡ is_root_mount unit.now }
{
    unit == "-.mount" || unit == "nix.mount"
}

fn outcome(kind: UnitKind, old: Option<&UnitText>, new: Option<&UnitText>) -> Comparison
    ensures { result ≡ outcome_between kind (option_copied old.entry) (option_copied new.entry) }
{
    match (old, new) {
        (Some(old), Some(new)) => compare(kind, old, new),
        _ => Comparison::Same,
    }
}

fn may_start_in(new: Option<&UnitText>) -> bool
    ensures { result ≡ may_start (unwrap_or (option_copied new.entry) []) }
{
    match new {
        Some(new) => may_start(new),
        None => true,
    }
}

impl Facts {
    /// What two texts say of a unit.
    pub fn of(old: Option<&UnitText>, new: Option<&UnitText>, unit: &UnitName) -> Facts
        ensures { result ≡ facts_of (option_copied old.entry) (option_copied new.entry) unit.now }
    {
        Facts {
            kind: unit.kind(),
            in_old: old.is_some(),
            in_new: new.is_some(),
            outcome: outcome(unit.kind(), old, new),
            stop_on_removal: flag(old, "Unit", "X-StopOnRemoval", true),
            stop_on_reconfiguration: flag(new, "Unit", "X-StopOnReconfiguration", false),
            may_start: may_start_in(new),
            is_root_mount: is_root_mount(unit.as_str()),
            reload_if_changed: flag(new, "Service", "X-ReloadIfChanged", false),
            restart_if_changed: flag(new, "Service", "X-RestartIfChanged", true),
            refuse_manual_stop: flag(new, "Unit", "RefuseManualStop", false),
            only_manual_start: flag(new, "Unit", "X-OnlyManualStart", false),
            stop_if_changed: flag(new, "Service", "X-StopIfChanged", true),
        }
    }
}
