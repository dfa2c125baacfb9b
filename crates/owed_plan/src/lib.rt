//! What the targets pull, what a switch owes the units, the calls by which it is given, and that stops
//! and recorded lists keep it.
#![tactic(auto)]

mod collecting;
mod deciding;
mod duty;
mod edges;
mod known;
pub mod laws;
mod owed;
mod planning;
mod pulling;
mod steady;
mod targets;
mod touched;

pub use duty::{Duty, GIVE_ORDER, calls};
pub use edges::order_edges;
pub use owed::Owed;
pub use planning::plan;
pub use pulling::pull;
pub use steady::is_steady;
pub use targets::roots;
