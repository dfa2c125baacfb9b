//! What of `/etc` is gone, foreign or blocked, the list of copies, and what a farm of links and
//! copies leaves at each place there.
#![tactic(auto)]

mod clean_list;
mod found;
mod laws;
mod leaves;
mod names;
mod order;
mod search;
mod sorting;
mod walk;

pub use clean_list::{clean_path, read_clean, write_clean};
pub use laws::{clean_lists_are_read_as_written, farms_are_kept, kept_farms_end_alike};
pub use leaves::{item_leaf, link_leaf};
pub use names::etc_place;
pub use order::in_order;
pub use search::contains;
pub use sorting::{Sorted, obsolete};
