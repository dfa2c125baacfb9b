//! Leaves that are put.
use host_trait::Leaf;
use switch_names::Path;

/// A leaf that is put at a place.
pub struct LeafPut {
    /// The place.
    pub at: Path,
    /// The leaf.
    pub leaf: Leaf,
}

/// One call: a derived drop is proved anew in each function that lets one go.
impl Drop for LeafPut {
    fn drop(self) {
        let LeafPut { at: _, leaf: _ } = self;
    }
}
