//! Sets the accounts that a system declares.
#![tactic(auto)]

mod accounts_plan;
mod judging;
mod laws;
mod memory;
mod names;
mod places;
mod planning;
mod puts;
mod reading;
mod rows;
mod setting;
mod sources;
mod stored;
mod written_places;

pub use accounts_plan::AccountsPlan;
pub use laws::{account_plans_stay, set_accounts_stay, setting_accounts_is_a_part};
pub use planning::plan_accounts;
pub use reading::read_tables;
pub use rows::{lines, too_many_rows};
pub use setting::{apply, set_accounts};
pub use sources::taken;
pub use stored::{Stored, read_all};
pub use written_places::add_account_places;
