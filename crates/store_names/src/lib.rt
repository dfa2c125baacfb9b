//! Finds the store paths that stand in texts.
#![tactic(auto)]

mod beginnings;
mod search;

pub use search::occurring;
