//! What a switch does with a unit that is Active, and the sockets that a service is paired with.
#![tactic(auto)]

mod decision;
mod facts;
mod flags;
mod kinds;
pub mod laws;
mod pairing;

pub use decision::{Decision, decide, decide_by};
pub use facts::Facts;
pub use flags::may_start;
pub use kinds::{is_same, is_service, is_socket, is_target};
pub use pairing::sockets;
