//! The language of the cases that the programs `worlds` and `run_worlds` try: cases as lines of fields, each with the
//! lines that it has to give, and worlds by what stands at places.
//!
//! The head of the first program's `stdin` explains the language.
#![tactic(auto)]

mod cases;
mod fallen;
mod fields;
mod files;
mod hosts;
mod lines;
mod reading;
mod tally;
mod trying;
mod writing;

pub use fallen::{empty_host, fallen_host};
pub use fields::{misread, text_of};
pub use files::show_file;
pub use hosts::{host_of, host_of_systems, list_of};
pub use lines::Lines;
pub use reading::put_places;
pub use trying::{Commands, try_cases};
pub use writing::{show_fault, show_journal, show_leaves, show_states};
