//! The places that switching the units writes.
ghost use Rattle.std.specs.Prelude.{◌≡◌, ◌++◌, OnOk};
ghost use Rattle.tree_put.specs.WrittenPlace.{AreApartFromStage};
ghost use Rattle.unit_stage.specs.Owned.{list_places, unit_places};

use crate::system::current_path;
use log_text::RECORD_ORDER;
use owed_lists::list_path;
use owed_log::log_path;
use std::alloc::{AllocError, Global};
use switch_names::Listed;
use tree_put::{WrittenPlace, add_stage, read_before, unread};

/// Adds the log and the lists of an older program, which are read before.
fn add_lists(alloc: Global, places: &mut Listed<WrittenPlace>) -> Result<(), AllocError>
    ensures { OnOk result (places.new ≡ places.old ++ list_places) }
{
    places.push(read_before(log_path(alloc)?))?;
    for which in RECORD_ORDER {
        places.push(read_before(list_path(alloc, which)?))?;
    }
    Ok(())
}

/// Adds the places that switching the units writes: the stage, the link to the system in use, the
/// log of what is owed, and the lists of an older program.
pub fn add_unit_places(alloc: Global, places: &mut Listed<WrittenPlace>) -> Result<(), AllocError>
    ensures places { OnOk result (places.new ≡ places.old ++ unit_places) }
    ensures apart { AreApartFromStage places.old → OnOk result (AreApartFromStage places.new) }
{
    add_stage(alloc, places)?;
    places.push(unread(current_path(alloc)?))?;
    add_lists(alloc, places)
}
