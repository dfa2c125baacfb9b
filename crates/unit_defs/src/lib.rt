//! The units of a whole system: their files with drop-ins, their templates,
//! the lines of their fstab, and what each wants.
#![tactic(auto)]

mod answering;
mod defs;
mod defs_fault;
mod laws;
mod part;
mod place;
mod reading;
mod taken_paths;
mod unit;
mod unit_count;

pub use defs::Defs;
pub use defs_fault::DefsFault;
pub use laws::{first_faults_are_found, places_are_named, units_are_counted};
pub use taken_paths::taken;
pub use unit_count::count;
