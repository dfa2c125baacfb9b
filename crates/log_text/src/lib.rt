//! The log of what is owed: blocks of names, one after the other, of which the last may be torn.
#![tactic(auto)]

mod block;
pub mod laws;
mod lines;
mod lists;
mod log;
#[cfg(test)]
mod tests;
mod writing;

pub use block::{Block, first_block};
pub use lists::{Lists, RECORD_ORDER, Which};
pub use log::{Log, read_log};
pub use writing::{cleared_text, lists_text};
