//! The report of a command, from its plan, its closing text, from how it ended, the list of the generations, and the report
//! of a collection.
#![tactic(auto)]

mod activation;
mod closing;
mod collecting;
pub mod laws;
mod listing;
mod reporting;

pub use closing::{close, put_last_line};
pub use collecting::collection_report;
pub use listing::generation_list;
pub use reporting::report;
