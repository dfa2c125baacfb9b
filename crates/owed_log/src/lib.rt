//! The log of what is owed, as it stands in a tree: read, written, and cleared list by list.
#![tactic(auto)]

mod clearing;
pub mod laws;
mod lengths;
mod log_write;
mod places;
mod recording;
mod standing;
#[cfg(test)]
mod tests;

pub use clearing::clear;
pub use lengths::{long_log, owed_paths};
pub use log_write::{LOG_MAX, LogWrite};
pub use places::log_path;
pub use recording::record;
pub use standing::{LogState, StandingLists};
