//! The calls that change a world.
use host_trait::{Act, Leaf};
use switch_names::{Path, UnitName};

/// A call that changes a world, with what it is asked.
#[derive(Clone, Copy)]
pub(crate) enum ChangingCall<'a> {
    /// Write this leaf at the stage.
    Stage(&'a Leaf),
    /// Move the stage's leaf to this path.
    Rename(&'a Path),
    /// Remove the leaf at this path.
    Remove(&'a Path),
    /// Append these bytes to the file at this path.
    Append(&'a Path, &'a [u8]),
    /// Do this to this unit.
    Perform(Act, &'a UnitName),
    /// Load the definitions to which the link at their place leads.
    DaemonReload,
}
