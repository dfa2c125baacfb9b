//! Plans a command before anything is put or changed, and carries it out, part by part.
#![tactic(auto)]

mod carrying;
mod command;
pub mod laws;
mod outcome;
mod places;
mod plan;
mod planning;
mod row;
mod sources;
mod system;

pub use carrying::carry_out;
pub use command::Command;
pub use outcome::{Outcome, is_failed_of};
pub use plan::Plan;
pub use planning::plan_all;
pub use row::{Row, resolve};
pub use switch_parts::{MapFile, PlanFault, Refusal, TableFile, What};
