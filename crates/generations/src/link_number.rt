//! The numbers that the links of generations bear.
ghost use Rattle.std.specs.Prelude.{◌≡◌, nat_lt, IfOk, option_and_then};
ghost use Rattle.std.specs.Bool.{then_some};
ghost use Rattle.generations.specs.LinkNumber.{Bears};
ghost use Rattle.generations.specs.Places.{link_name, link_path};

use crate::digits::{after, number_between};
use std::alloc::{AllocError, Global};

/// A number that is a generation's: one above 0.
fn above_zero(number: Option<u32>) -> Option<u32>
    ensures { result ≡ option_and_then (λ n. then_some (nat_lt 0 n) n) number }
{
    let number = number?;
    (0 < number).then_some(number)
}

/// The number of the generation whose link has this name.
pub fn number_of_name(alloc: Global, name: &str) -> Result<Option<u32>, AllocError>
    ensures { IfOk result (Bears link_name name.now) }
{
    let number = number_between(alloc, name, "system-", "-link")?;
    Ok(above_zero(number))
}

/// The number of the generation whose link has this path.
pub fn number_of_path(alloc: Global, path: &str) -> Result<Option<u32>, AllocError>
    ensures { IfOk result (Bears link_path path.now) }
{
    match after(path, "nix/var/nix/profiles/") {
        Some(name) => number_of_name(alloc, name),
        None => Ok(None),
    }
}
