//! What a switch owes the units.
use log_text::Lists;
use switch_names::{Listed, UnitName};

/// What a switch owes the units, each list in byte order.
///
/// Source: NixOS manual, "Unit handling".
pub struct Owed {
    /// The units to stop.
    pub stops: Listed<UnitName>,
    /// The units of the lists that are recorded: those to start, to restart and to reload.
    pub lists: Lists,
    /// The changed units that get nothing.
    pub left: Listed<UnitName>,
}

/// One call: a derived drop is proved anew in each function that lets one go.
impl Drop for Owed {
    fn drop(self) {
        let Owed {
            stops: _,
            lists: _,
            left: _,
        } = self;
    }
}
