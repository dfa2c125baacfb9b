//! Finds the store paths that are dead: those that no root reaches.
#![tactic(auto)]

mod names;
mod places;
mod reaching;
mod references;
mod roots;

pub use reaching::dead_paths;
