//! How a command ended that was run again until it came to its end.
use switch_engine::Refusal;

/// How a command ended.
#[derive(Debug, Drop)]
pub enum End {
    /// It was carried out.
    Done,
    /// It was carried out, and left a unit failed that its system defines.
    UnitsFailed,
    /// It was refused, and changed nothing.
    Refused(Refusal),
}

/// How often a command was run, and how it ended.
#[derive(Debug)]
pub struct Summary {
    /// How many runs there were.
    pub runs: u64,
    /// How the last one ended.
    pub end: End,
}

/// One call: a derived drop is proved anew in each function that lets one go.
impl Drop for Summary {
    fn drop(self) {
        let Summary { runs: _, end: _ } = self;
    }
}
