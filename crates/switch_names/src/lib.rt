//! Texts, lists, and the names of paths, units and systems that every other crate speaks of.
#![tactic(auto)]

mod bytes;
mod listed;
mod name_fault;
mod path;
mod system_name;
mod text;
mod unit_kind;
mod unit_name;

pub use bytes::Bytes;
pub use listed::Listed;
pub use name_fault::NameFault;
pub use path::Path;
pub use system_name::SystemName;
pub use text::Text;
pub use unit_kind::UnitKind;
pub use unit_name::UnitName;
