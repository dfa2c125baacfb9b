//! What differs between two texts of a unit.
#![tactic(auto)]

mod comparison;
mod keys;
mod walk;

pub use comparison::Comparison;
pub use walk::compare;
