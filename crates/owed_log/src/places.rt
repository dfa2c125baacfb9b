//! Where the log stands, and where an older program kept the lists.
ghost use Rattle.std.specs.Prelude.{◌≡◌, IfOk};
ghost use Rattle.owed_log.specs.Places.{log_place, old_places};

use host_trait::fixed_path;
use log_text::RECORD_ORDER;
use owed_lists::list_path;
use std::alloc::{AllocError, Global};
use switch_names::{Listed, Path};

/// The place of the log.
#[tactic(auto, unfolding(crate::specs::Places::log_place))]
pub fn log_path(alloc: Global) -> Result<Path, AllocError>
    ensures { IfOk result (λ path. path ≡ log_place) }
{
    fixed_path(alloc, "run/nixos/owed-log")
}

/// The places at which an older program kept the lists.
pub fn old_paths(alloc: Global) -> Result<Listed<Path>, AllocError>
    ensures { IfOk result (λ paths. paths ≡ old_places) }
{
    let mut paths = Listed::new(alloc);
    for which in RECORD_ORDER {
        paths.push(list_path(alloc, which)?)?;
    }
    Ok(paths)
}
