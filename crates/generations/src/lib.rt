//! The generations of the system profile: Nix manual, "Profiles".
#![tactic(auto)]

mod digits;
mod found_goal;
mod gens;
mod laws;
mod link_number;
mod listing;
mod moving;
mod places;
mod rollback_goal;
mod setting;

pub use digits::number_between;
pub use found_goal::Goal;
pub use gens::{Gen, Gens, boot_system, number_for, previous, system_of};
pub use laws::{
    a_machine_boots_into_what_the_profile_names, a_move_leaves_its_part_at_its_end,
    a_move_leaves_these_generations, a_set_can_be_made_where_its_part_is_free,
    each_moment_of_a_move_is_one_of_its_part, generations_after_a_move_stay, the_goal_is_a_part,
    the_goal_stays, the_profile_is_a_part, the_profile_names_the_old_system_or_the_new,
};
pub use link_number::{number_of_name, number_of_path};
pub use listing::{all, target_of};
pub use moving::{Move, add_goal_place, add_move_places, after_move, move_profile, number_to};
pub use rollback_goal::{GoalFault, clear_goal, goal, goal_path, record_goal};
pub use setting::{SetFault, generation_path, point, set, set_number, system_link};
