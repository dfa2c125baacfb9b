//! How long a content may be that is read, which of some is too long, and how many units, entries and rows there may be.
#![tactic(auto)]

mod counts;
mod too_long;

pub use counts::{ENTRIES_MAX, ROWS_MAX, UNITS_MAX, past};
pub use too_long::{
    LEAF_MAX, TooLong, content_noted, content_past, count_noted, first_long, is_long, long_past,
};
