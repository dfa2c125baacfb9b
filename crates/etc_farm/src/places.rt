//! The places that a farm always writes.
ghost use Rattle.std.specs.Prelude.{◌≡◌, ◌++◌, IfOk, OnOk};
ghost use Rattle.tree_put.specs.WrittenPlace.{AreApartFromStage};
ghost use Rattle.etc_clean.specs.Etc.{static_name};
ghost use Rattle.etc_clean.specs.Names.{place};
ghost use Rattle.etc_farm.specs.FarmPart.{fixed_places};

use etc_clean::clean_path;
use host_trait::fixed_path;
use std::alloc::{AllocError, Global};
use switch_names::{Listed, Path};
use tree_put::{WrittenPlace, add_stage, read_before, unread};

/// The place of the link to a system's own etc.
#[tactic(auto, unfolding(etc_clean::specs::Names::place, etc_clean::specs::Etc::static_name))]
pub fn static_path(alloc: Global) -> Result<Path, AllocError>
    ensures { IfOk result (λ path. path ≡ place static_name) }
{
    fixed_path(alloc, "etc/static")
}

/// Adds the places that a farm always writes: the clean list, which is read before, the link at `static`, and the
/// stage.
pub fn add_farm_places(alloc: Global, places: &mut Listed<WrittenPlace>) -> Result<(), AllocError>
    ensures places { OnOk result (places.new ≡ places.old ++ fixed_places) }
    ensures apart { AreApartFromStage places.old → OnOk result (AreApartFromStage places.new) }
{
    places.push(read_before(clean_path(alloc)?))?;
    places.push(unread(static_path(alloc)?))?;
    add_stage(alloc, places)
}
