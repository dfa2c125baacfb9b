//! Units in order.
use crate::edge::Edge;
use switch_names::{Listed, UnitName};

/// Units of which each waits for the next one, and the last for the first.
pub struct Cycle {
    pub units: Listed<UnitName>,
}

/// One call: a derived drop is proved anew in each function that lets one go.
impl Drop for Cycle {
    fn drop(self) {
        let Cycle { units: _ } = self;
    }
}

/// Units in order, by which edges, and what could not be kept.
pub struct Ordered {
    pub units: Listed<UnitName>,
    pub edges: Listed<Edge>,

    /// The units that were taken while each of those that were left waited for another, in the order in which they were taken.
    pub broken: Listed<UnitName>,

    /// The cycle of each of them.
    pub cycles: Listed<Cycle>,
}

/// One call: a derived drop is proved anew in each function that lets one go.
impl Drop for Ordered {
    fn drop(self) {
        let Ordered {
            units: _,
            edges: _,
            broken: _,
            cycles: _,
        } = self;
    }
}
