//! The ids that accounts had, kept for the accounts that come back, and the search for a free one.
#![tactic(auto)]

mod free;
mod id_fault;
mod id_map;
mod id_row;
mod members;
mod rows;

pub use free::free_id;
pub use id_fault::IdFault;
pub use id_map::IdMap;
pub use id_row::IdRow;
