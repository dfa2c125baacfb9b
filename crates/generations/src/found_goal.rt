//! What is found of the goal of a rollback.

/// Where a rollback goes, and how long what is recorded of it is.
#[derive(Clone, Copy, Debug, PartialEq, Eq)]
pub struct Goal {
    /// The number of the generation.
    pub number: u32,
    /// How many bytes the goal that is recorded has, where it has more than 16 MiB.
    pub past: Option<u64>,
}
