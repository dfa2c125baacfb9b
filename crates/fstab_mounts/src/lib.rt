//! The lines of an fstab, as units that mount file systems and turn swaps on.
#![tactic(auto)]

mod escape;
mod fields;
mod fs_unit;
mod fstab;

pub use escape::{mount_unit, swap_unit};
pub use fs_unit::FsUnit;
pub use fstab::parse;
