//! The lists of units that a switch of an older program which was cut has left: what is to be started, restarted and
//! reloaded, a file each.
#![tactic(auto)]

pub mod laws;
mod lists;
mod loading;

pub use lists::list_path;
pub use loading::load;
