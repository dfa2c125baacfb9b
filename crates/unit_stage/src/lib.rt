//! The part of a switch that is about the units: plans what is done to them, and does it.
#![tactic(auto)]

mod acting;
mod counts;
mod giving;
mod known;
pub mod laws;
mod lengths;
mod linking;
mod places;
mod plan_calls;
mod planning;
mod room;
mod system;
mod unit_plan;

pub use acting::call_units;
pub use counts::too_many_units;
pub use giving::{bring_units, stop_units};
pub use lengths::taken;
pub use places::add_unit_places;
pub use plan_calls::{PlanCalls, calls_of};
pub use planning::plan_units;
pub use unit_plan::UnitPlan;
