//! Puts a leaf in its place in one step, whatever cuts the process.
#![tactic(auto)]

mod blocked;
mod first;
mod found;
pub mod laws;
mod leaf_put;
mod places;
mod sequence;
mod written_place;

pub use blocked::is_blocked;
pub use first::first_in_the_way;
pub use found::{Found, Standing, find, find_content, look, noted, nothing_found};
pub use leaf_put::LeafPut;
pub use places::{drop_leaf, put, put_if_other};
pub use sequence::{drop_all, put_all};
pub use written_place::{WrittenPlace, add_stage, is_in_the_way, read_before, unread};
