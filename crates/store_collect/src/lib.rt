//! Drops old generations, and the leaves of the store paths that no root reaches.
#![tactic(auto)]

mod applying;
mod collection;
mod dropped_leaves;
mod keeping;
pub mod laws;
mod planning;
mod unfinished;

pub use applying::apply;
pub use collection::{CollectFault, CollectRefusal, Collection};
pub use planning::plan;
