//! The text of a leaf, as a file holds it: one spelling for each leaf, both ways.
#![tactic(auto)]

mod fault;
mod fields;
mod reading;
mod writing;

pub use fault::NodeFault;
pub use reading::read_node;
pub use writing::write_node;
