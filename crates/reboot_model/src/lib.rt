//! A reboot of a machine in memory, as a cut left it, and the start-up that follows.
#![tactic(auto)]

mod rebooting;

pub use rebooting::{Rebooting, after_reboot, boot_system};
