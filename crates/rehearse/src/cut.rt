//! Where a run is cut.

/// Where a run is cut.
#[derive(Clone, Copy, Debug)]
pub struct Cut {
    /// How many changing calls finish before the one that is cut.
    pub after: u64,
    /// Which of the moments of that call is left, by the remainder of their number.
    pub pick: u64,
}
