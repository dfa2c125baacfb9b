//! The places that a set of the profile writes.
ghost use Rattle.std.specs.Prelude.{◌≡◌, ◌++◌, false, IfOk, OnOk, option_map};
ghost use Rattle.std.specs.Option.{option_to_list};
ghost use Rattle.host_trait.specs.World.{Leaves};
ghost use Rattle.tree_put.specs.WrittenPlace.{AreApartFromStage, written};
ghost use Rattle.generations.specs.Gens.{IsGensOf};
ghost use Rattle.generations.specs.ProfilePart.{profile_places};
ghost use Rattle.generations.specs.ProfilePlaces.{new_link_in, places_in};

use crate::gens::{Gens, is_highest_of, number_for};
use crate::setting::{generation_path, profile_path};
use host_trait::stage_path;
use std::alloc::{AllocError, Global};
use switch_names::{Listed, Path, SystemName};
use tree_put::{WrittenPlace, unread};

/// The path of the link of the generation that a set makes, where it makes one.
fn new_link(alloc: Global, gens: &Gens, system: &SystemName) -> Result<Option<Path>, AllocError>
    ensures { IfOk result (λ link. link ≡ new_link_in gens.now.list system.now) }
{
    if is_highest_of(gens, system) {
        return Ok(None);
    }
    let Some(number) = number_for(gens, system) else {
        return Ok(None);
    };
    Ok(Some(generation_path(alloc, number)?))
}

/// Adds the place of a new generation's link, where there is one.
fn add_link(places: &mut Listed<WrittenPlace>, link: Option<Path>) -> Result<(), AllocError>
    ensures { OnOk result (places.new ≡ places.old ++ option_to_list (option_map (written false) link)) }
{
    match link {
        Some(link) => places.push(unread(link)),
        None => Ok(()),
    }
}

/// Adds the profile's link, the new generation's where there is one, and the stage.
fn add_places(
    alloc: Global,
    places: &mut Listed<WrittenPlace>,
    gens: &Gens,
    system: &SystemName,
) -> Result<(), AllocError>
    ensures { OnOk result (places.new ≡ places.old ++ places_in gens.now.list system.now) }
{
    places.push(unread(profile_path(alloc)?))?;
    add_link(places, new_link(alloc, gens, system)?)?;
    places.push(unread(stage_path(alloc)?))
}

/// Adds the places that a set of a system writes, in byte order, given the generations that stand.
pub fn add_profile_places(
    alloc: Global,
    places: &mut Listed<WrittenPlace>,
    gens: &Gens,
    system: &SystemName,
) -> Result<(), AllocError>
    ensures places { OnOk result ((leaves : Leaves) → IsGensOf leaves gens.now → places.new ≡ places.old ++ profile_places leaves system.now) }
    ensures apart { AreApartFromStage places.old → OnOk result (AreApartFromStage places.new) }
{
    add_places(alloc, places, gens, system)
}
