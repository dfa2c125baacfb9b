//! The order in which units are started: each after those that stand before it.
#![tactic(auto)]

mod between;
mod breaking;
mod checking;
mod copying;
mod edge;
mod graph;
pub mod laws;
mod marks;
mod names;
mod ordered;
mod ordering;
mod releasing;
pub mod taking;
#[cfg(test)]
mod tests;
pub mod walking;

pub use between::edges_between;
pub use checking::check;
pub use edge::Edge;
pub use ordered::{Cycle, Ordered};
pub use ordering::order;
