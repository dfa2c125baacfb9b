//! The lists that a log gives.
ghost use Rattle.std.specs.Prelude.{◌≡◌};
ghost use Rattle.log_text.specs.Lists.{list_names, no_lists, with_block};

use crate::block::Block;
use std::alloc::Global;
use switch_names::{Listed, UnitName};

/// One of the lists.
#[derive(Clone, Copy, Debug, PartialEq, Eq)]
pub enum Which {
    /// The units to start.
    Starts,
    /// The units to restart.
    Restarts,
    /// The units to reload.
    Reloads,
}

/// The lists in the order in which they are recorded.
pub const RECORD_ORDER: [Which; 3] = [Which::Starts, Which::Restarts, Which::Reloads];

/// The units that are still to be started, restarted and reloaded.
///
/// Source: NixOS manual, "Unit handling".
pub struct Lists {
    /// The units to start.
    pub starts: Listed<UnitName>,
    /// The units to restart.
    pub restarts: Listed<UnitName>,
    /// The units to reload.
    pub reloads: Listed<UnitName>,
}

/// One call: a derived drop is proved anew in each function that lets one go.
impl Drop for Lists {
    fn drop(self) {
        let Lists {
            starts: _,
            restarts: _,
            reloads: _,
        } = self;
    }
}

impl Lists {
    /// Empty lists.
    pub fn new(alloc: Global) -> Lists
        ensures { result ≡ no_lists }
    {
        Lists {
            starts: Listed::new(alloc),
            restarts: Listed::new(alloc),
            reloads: Listed::new(alloc),
        }
    }

    /// One of the lists.
    pub fn of(&self, which: Which) -> &Listed<UnitName>
        ensures { result.now ≡ list_names self.now which }
    {
        match which {
            Which::Starts => &self.starts,
            Which::Restarts => &self.restarts,
            Which::Reloads => &self.reloads,
        }
    }

    /// Takes the names of a block in the place of the list that it gives.
    pub fn set(&mut self, block: Block)
        ensures { self.new ≡ with_block self.old block }
    {
        let (which, names) = block.into_parts();
        match which {
            Which::Starts => self.starts = names,
            Which::Restarts => self.restarts = names,
            Which::Reloads => self.reloads = names,
        }
    }
}
