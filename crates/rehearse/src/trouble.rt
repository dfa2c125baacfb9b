//! What goes wrong under a run.
use crate::cut::Cut;

/// What goes wrong under a run.
#[derive(Clone, Copy, Debug)]
pub enum Trouble {
    /// The run is cut.
    Cut(Cut),
    /// The call of the host with this number fails, where the first has the number 0.
    Fail(u64),
}
