//! What a log says.
ghost use Rattle.std.specs.Prelude.{IfOk};
ghost use Rattle.log_text.specs.Lists.{IsReadOf};

use crate::block::first_block;
use crate::lists::Lists;
use std::alloc::{AllocError, Global};

/// What a log says.
pub struct Log {
    /// Of each list the last block, and an empty list without one.
    pub lists: Lists,

    /// Whether the log ends with a block or has nothing in it. What is torn is passed over.
    pub is_whole: bool,
}

/// One call: a derived drop is proved anew in each function that lets one go.
impl Drop for Log {
    fn drop(self) {
        let Log {
            lists: _,
            is_whole: _,
        } = self;
    }
}

/// Reads a log, from its first byte for as many blocks as stand, in one pass.
pub fn read_log(alloc: Global, text: &[u8]) -> Result<Log, AllocError>
    ensures { IfOk result (IsReadOf text.now) }
{
    let mut lists = Lists::new(alloc);
    let mut rest = text;
    for _ in 0..u64::MAX {
        let Some((block, after)) = first_block(alloc, rest)? else {
            return Ok(Log {
                lists,
                is_whole: rest.is_empty(),
            });
        };
        lists.set(block);
        rest = after;
    }
    Err(AllocError)
}
