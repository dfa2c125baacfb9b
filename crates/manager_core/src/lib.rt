//! A service manager as a value: what each call makes of its state, and that state's text.
#![tactic(auto)]

mod call;
mod line;
mod placing;
mod reading;
mod state_fault;
mod stepping;
mod unit_line;
mod writing;
mod written_state;

pub use call::Call;
pub use reading::read_state;
pub use state_fault::StateFault;
pub use stepping::{enter, step, take_effect};
pub use writing::write_state;
pub use written_state::WrittenState;
