//! How a switch that was carried out ended.
ghost use Rattle.std.specs.Prelude.{◌≡◌, ◌↔◌, false, IsTrue};
ghost use Rattle.std.specs.FinMap.{empty};
ghost use Rattle.std.specs.List.{list_any};
ghost use Rattle.switch_engine.specs.Final.{HasFailed, is_failed, is_failed_of};

use host_trait::{State, States, UnitState};
use std::alloc::Global;
use unit_defs::Defs;

/// How a switch that was carried out ended.
pub struct Outcome {
    /// The units that aren't inactive, with their states.
    pub states: States,
    /// Whether a unit that the system defines has failed.
    pub failed: bool,
}

/// One call: a derived drop is proved anew in each function that lets one go.
impl Drop for Outcome {
    fn drop(self) {
        let Outcome {
            states: _,
            failed: _,
        } = self;
    }
}

impl Outcome {
    /// How a command ended that does nothing to the units: no state is told.
    pub fn none(alloc: Global) -> Outcome
        ensures { result ≡ record { states = empty; failed = false } }
    {
        Outcome {
            states: States::new(alloc),
            failed: false,
        }
    }
}

/// Whether a unit has failed.
fn is_failed(state: State) -> bool
    ensures { result ≡ is_failed state }
{
    matches!(state, State::Failed)
}

/// Whether this unit has failed, and the system defines it.
pub fn is_failed_of(defs: &Defs, one: &UnitState) -> bool
    ensures { result ≡ is_failed_of defs.now one.now }
{
    is_failed(one.state) && defs.find(&one.unit).is_some()
}

/// Whether one of these units has failed that the system defines.
fn any_failed(defs: &Defs, list: &[UnitState]) -> bool
    ensures { result ≡ list_any (is_failed_of defs.now) list.now }
{
    list.iter().any(|one| is_failed_of(defs, one))
}

/// Whether a unit that the system defines has failed.
pub fn has_failed(defs: &Defs, states: &States) -> bool
    ensures { IsTrue result ↔ HasFailed defs.now states.now }
{
    any_failed(defs, states.list().as_slice())
}
