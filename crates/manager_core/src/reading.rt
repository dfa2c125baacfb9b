//! Reading the text of a manager's state.
ghost use Rattle.std.specs.Prelude.{◌≡◌, List, ℕ, IfOk, IfErr};
ghost use Rattle.host_trait.specs.Manager.{HasPlainTexts};
ghost use Rattle.host_trait.specs.declared.manager_state.ManagerState as known;
ghost use Rattle.manager_core.specs.StateText.{IsFaultOf, IsReadAs, IsTextOf};

use crate::line::parted;
use crate::placing::{begin, take_line};
use crate::state_fault::StateFault;
use host_trait::ManagerState;
use std::alloc::Global;

/// Reads a manager's state from its text.
///
/// The first line is `loaded` and what is loaded. The units that aren't inactive follow in byte
/// order, then the units that fail, then the journal. Each line ends with a line feed.
pub fn read_state(alloc: Global, bytes: &[u8]) -> Result<ManagerState, StateFault>
    ensures ok { IfOk result (λ state. IsTextOf state bytes.now) }
    ensures plain { IfOk result HasPlainTexts }
    ensures again { (state : known.ManagerState) → IsTextOf state bytes.now → IsReadAs result state }
    ensures fault { IfErr result (λ fault. IsFaultOf bytes.now fault) }
{
    let Some((first, mut rest)) = parted(bytes, b'\n') else {
        return Err(StateFault::Line(1));
    };
    let Some(mut state) = begin(alloc, first)? else {
        return Err(StateFault::Line(1));
    };
    let mut count: u32 = 1;
    while let Some((line, after)) = parted(rest, b'\n') {
        if !take_line(alloc, &mut state, line)? {
            return Err(StateFault::Line(count.saturating_add(1)));
        }
        count = count.saturating_add(1);
        rest = after;
    }
    if rest.is_empty() {
        Ok(state)
    } else {
        Err(StateFault::Line(count.saturating_add(1)))
    }
}
