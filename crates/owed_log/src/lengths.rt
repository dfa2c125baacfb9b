//! How long the log is that records lists.
ghost use Rattle.std.specs.Prelude.{◌≡◌, ◌∷◌, IfOk};
ghost use Rattle.host_trait.specs.World.{Leaves};
ghost use Rattle.log_text.specs.declared.lists.Lists.{Lists};
ghost use Rattle.owed_log.specs.Lengths.{long_log};
ghost use Rattle.owed_log.specs.Places.{log_place, old_places};
ghost use Rattle.owed_log.specs.Writing.{IsPrepared};

use crate::log_write::LogWrite;
use crate::places::{log_path, old_paths};
use leaf_limits::{LEAF_MAX, TooLong, past};
use std::alloc::{AllocError, Global};
use switch_names::{Listed, Path};

/// The bytes that are counted beside the text of the lists: those of the blocks that clear two of them, and a few more.
const CLEARING: u64 = 64;

/// The log that this records lists in, where it would be longer than can be read again: with 64 bytes for the blocks that clear
/// two of the lists it would have more than `LEAF_MAX`.
pub fn long_log(alloc: Global, write: &LogWrite) -> Result<Option<TooLong>, AllocError>
    ensures { IfOk result (λ long. (leaves : Leaves) (lists : Lists) → IsPrepared leaves lists write.now → long ≡ long_log lists) }
{
    let text = match write {
        LogWrite::Nothing => return Ok(None),
        LogWrite::Append(text) | LogWrite::Put(text) => text.as_slice().len() as u64,
    };
    match past(LEAF_MAX, text + CLEARING) {
        Some(count) => {
            let at = log_path(alloc)?;
            Ok(Some(TooLong { at, count }))
        }
        None => Ok(None),
    }
}

/// The places that are read for what is owed: that of the log, and those at which an older program kept the lists.
pub fn owed_paths(alloc: Global) -> Result<Listed<Path>, AllocError>
    ensures { IfOk result (λ paths. paths ≡ log_place ∷ old_places) }
{
    let mut paths = old_paths(alloc)?;
    paths.insert(0, log_path(alloc)?)?;
    Ok(paths)
}
