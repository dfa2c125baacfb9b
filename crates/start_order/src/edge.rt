//! What is started before what.
use switch_names::UnitName;

/// One unit is started before another.
pub struct Edge {
    pub before: UnitName,
    pub after: UnitName,
}

/// One call: a derived drop is proved anew in each function that lets one go.
impl Drop for Edge {
    fn drop(self) {
        let Edge {
            before: _,
            after: _,
        } = self;
    }
}
