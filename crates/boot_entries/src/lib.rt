//! Makes the boot menu of the generations of the system profile.
#![tactic(auto)]

mod applying;
mod boot_default;
mod boot_texts;
mod entry;
mod gone;
mod laws;
mod menu_places;
mod number;
mod planning;
mod sources;

pub use applying::apply;
pub use boot_default::{BootDefaultPlan, add_menu_places, make_boot_default, plan_boot_default};
pub use boot_texts::{BootFile, BootTexts};
pub use entry::version_path;
pub use laws::{
    boot_entries_are_a_part, boot_entries_come_to_their_end, boot_menus_stand, boot_plans_stay,
    making_a_boot_default_is_a_part,
};
pub use menu_places::add_places_of;
pub use planning::{texts, texts_noted};
pub use sources::taken;
