//! The numbers that the paths of entries have.
ghost use Rattle.std.specs.Prelude.{◌≡◌, IfOk};
ghost use Rattle.boot_entries.specs.Places.{numbered};

use generations::number_between;
use std::alloc::{AllocError, Global};

/// The number of the entry that has this path.
pub fn number_of_entry(alloc: Global, path: &str) -> Result<Option<u32>, AllocError>
    ensures { IfOk result (λ number. number ≡ numbered path.now) }
{
    let number = number_between(
        alloc,
        path,
        "boot/loader/entries/nixos-generation-",
        ".conf",
    )?;
    Ok(number)
}
