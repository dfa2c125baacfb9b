//! A made machine: two systems with units, entries of `/etc` and users, and the states of the units, drawn from a number.
#![tactic(auto)]

mod draws;
mod entries;
mod machine;
mod putting;
mod unit_texts;
mod units;
mod users;

pub use draws::Draws;
pub use machine::{Machine, make_machine};
pub use putting::{new_system, old_system};
