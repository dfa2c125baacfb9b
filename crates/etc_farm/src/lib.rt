//! Puts a farm of links and copies below `/etc`, whatever cuts the process.
#![tactic(auto)]

mod entries;
mod etc_plan;
mod farm;
mod laws;
mod lists;
mod places;
mod planning;
mod prepared;
mod putting;
mod removal;
mod taking;

pub use etc_plan::EtcPlan;
pub use farm::apply;
pub use laws::{
    cut_runs_list_copies, etc_is_a_part, no_other_leaf_stands, steps_are_moments,
    the_farm_is_a_part, what_was_made_stays, what_was_put_stays_known,
};
pub use places::add_farm_places;
pub use planning::{plan_etc, too_many_entries};
pub use putting::put_etc;
pub use taking::taken;
