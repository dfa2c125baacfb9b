//! Where what is gone stands below `/etc`.
ghost use Rattle.std.specs.Prelude.{◌≡◌, map, IfOk};
ghost use Rattle.etc_clean.specs.Names.{place};

use etc_clean::etc_place;
use std::alloc::{AllocError, Global};
use switch_names::{Listed, Path};

/// The places of these names below `etc`, in their order.
pub fn gone_places(alloc: Global, names: &[Path]) -> Result<Listed<Path>, AllocError>
    ensures { IfOk result (λ places. places ≡ map place names.now) }
{
    let mut places = Listed::new(alloc);
    for name in names {
        places.push(etc_place(alloc, name)?)?;
    }
    Ok(places)
}
