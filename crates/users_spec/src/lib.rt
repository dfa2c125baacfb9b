//! The accounts that a NixOS system declares, read from its account specification.
#![tactic(auto)]

mod account_name;
mod declared_names;
mod forms;
mod group_spec;
mod object;
mod place;
mod spec;
mod spec_fault;
mod user_spec;

pub use account_name::is_account_name;
pub use group_spec::GroupSpec;
pub use place::Place;
pub use spec::Spec;
pub use spec_fault::SpecFault;
pub use user_spec::UserSpec;
