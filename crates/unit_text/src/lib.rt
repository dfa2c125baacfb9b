//! Unit files: their lines, and the values that their keys are given.
#![tactic(auto)]

mod assignment;
mod flag;
mod front;
mod index;
mod layer;
mod lines;
mod parts;
mod reader;
mod statement;
mod text_fault;
mod unit_key;
mod unit_text;

pub use parts::Parts;
pub use text_fault::TextFault;
pub use unit_key::UnitKey;
pub use unit_text::{UnitText, parse, parse_beside};
