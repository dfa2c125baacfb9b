//! All that the program does with its words, over any host and any output.
//!
//! `run` reads the words, carries their command out, and says how that ended.
#![tactic(auto)]

mod asked;
mod collecting;
mod laws;
mod refusal_text;
mod run_fault;
mod running;
mod status;
mod top_call;

pub use asked::Asked;
pub use laws::{
    a_reboot_makes_the_switch_whole, cut_collections_end_as_one, cut_rollbacks_end_as_one,
    cut_runs_end_as_one,
};
pub use status::Status;
pub use top_call::run;
