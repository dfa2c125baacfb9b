//! The merge of declared accounts with those that stand.
#![tactic(auto)]

mod by_name;
mod copied;
mod declaration;
mod declared_names;
mod giving;
mod groups;
mod keeping;
mod kept;
pub mod laws;
mod merge_fault;
mod merged;
mod merging;
mod name_set;
mod named;
mod names;
mod remembered;
mod remembering;
mod shadow;
mod sides;
mod staying;
mod taken;
mod users;

pub use by_name::ByName;
pub use declared_names::Declared;
pub use kept::Kept;
pub use merge_fault::MergeFault;
pub use merged::Merged;
pub use merging::merge;
pub use name_set::NameSet;
pub use named::{Named, Numbered};
pub use names::ordered_names;
pub use remembered::Remembered;
