//! A command on a host in memory that is cut, or fails, and is run again until it comes to its end; and a made machine, a
//! switch of which is rehearsed so.
#![tactic(auto)]

mod attempt;
mod cut;
mod generated;
mod jobs;
mod rehearsing;
mod running;
mod summary;
mod trouble;
mod troubled;

pub use attempt::is_repeatable;
pub use cut::Cut;
pub use generated::{Generated, generate, generate_of, schedule_of};
pub use jobs::{rehearsal_of_jobs, rehearsal_with_jobs, through_jobs};
pub use rehearsing::{rehearsal, rehearsal_of};
pub use running::{through, through_all};
pub use summary::{End, Summary};
pub use trouble::Trouble;
pub use troubled::Troubled;
