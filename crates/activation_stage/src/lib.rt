//! Sets the accounts of a system and makes `/etc` what it wants, between the stops and the starts of a switch.
#![tactic(auto)]

mod activating;
mod activation_plan;
mod laws;
mod planning;

pub use activating::activate;
pub use activation_plan::ActivationPlan;
pub use laws::{
    an_activation_is_a_part, owners_stay, plans_stay, reboots_keep_activations,
    what_was_activated_stays,
};
pub use planning::plan_activation;
