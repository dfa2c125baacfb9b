//! Moves of the profile: to a system, or back to a generation.
ghost use Rattle.std.specs.Prelude.{◌≡◌, ◌++◌, None, Some, IfOk, IfSome, IsNone, OnOk};
ghost use Rattle.host_trait.specs.Host.{Told, Leads, Passes, HasCause};
ghost use Rattle.host_trait.specs.World.{Leaves, seen};
ghost use Rattle.switch_parts.specs.declared.refusal.Refusal.TheVariants.{GenerationsFull};
ghost use Rattle.switch_parts.specs.Part.{IsFree};
ghost use Rattle.tree_put.specs.Written.{WritesOnly};
ghost use Rattle.tree_put.specs.WrittenPlace.{AreApartFromStage};
ghost use Rattle.generations.specs.Gens.{IsGensOf};
ghost use Rattle.generations.specs.GoalPart.{goal_places};
ghost use Rattle.generations.specs.Move.{IsMoveMoment, IsNumberFor, gens_at, gens_moved, move_part, move_places, move_refusal, move_world, number_moved, point_places};
ghost use Rattle.generations.specs.ProfilePart.{owns_profile};

use crate::gens::{Gens, after_set, copy_list, number_for};
use crate::places::add_profile_places;
use crate::rollback_goal::goal_path;
use crate::setting::{point, profile_path, set_number};
use host_trait::{HostFault, Tree};
use std::alloc::{AllocError, Global};
use switch_names::{Listed, SystemName};
use tree_put::{WrittenPlace, add_stage, unread};

/// How the profile is moved.
#[derive(Clone, Copy, Debug, PartialEq, Eq)]
pub enum Move {
    /// To a system, by the highest generation where that names it, and else by a new one.
    Set,
    /// To the generation of this number, which stands.
    Point(u32),
}

/// The number of the generation that is current after a move. `None` where a set finds no further one.
pub fn number_to(gens: &Gens, system: &SystemName, to: Move) -> Option<u32>
    ensures number { IfSome result (IsNumberFor to gens.now.list system.now) }
    ensures moved { IfSome result (λ number. (leaves : Leaves) → IsGensOf leaves gens.now → number ≡ number_moved to system.now leaves) }
    ensures further { IfSome result (λ number. (leaves : Leaves) → IsGensOf leaves gens.now → move_refusal to system.now leaves ≡ None) }
    ensures full { IsNone result → (leaves : Leaves) → IsGensOf leaves gens.now → move_refusal to system.now leaves ≡ Some GenerationsFull }
{
    match to {
        Move::Set => number_for(gens, system),
        Move::Point(number) => Some(number),
    }
}

/// The generations that stand, of which the one of a number is current.
fn gens_at(alloc: Global, gens: &Gens, number: u32) -> Result<Gens, AllocError>
    ensures { IfOk result (λ after. (leaves : Leaves) → IsGensOf leaves gens.now → after ≡ gens_at number leaves) }
{
    Ok(Gens {
        list: copy_list(alloc, gens.list.as_slice())?,
        current: Some(number),
    })
}

/// The generations that stand after a move: those that stand, with the new one of a set, and the one that the
/// profile then names as the current one.
pub fn after_move(
    alloc: Global,
    gens: &Gens,
    system: &SystemName,
    to: Move,
) -> Result<Gens, AllocError>
    ensures { IfOk result (λ after. (leaves : Leaves) → IsGensOf leaves gens.now → after ≡ gens_moved to system.now leaves) }
{
    match to {
        Move::Set => after_set(alloc, gens, system),
        Move::Point(number) => gens_at(alloc, gens, number),
    }
}

/// Adds the places of a move back: the profile's link and the stage.
fn add_point_places(alloc: Global, places: &mut Listed<WrittenPlace>) -> Result<(), AllocError>
    ensures places { OnOk result (places.new ≡ places.old ++ point_places) }
    ensures apart { AreApartFromStage places.old → OnOk result (AreApartFromStage places.new) }
{
    places.push(unread(profile_path(alloc)?))?;
    add_stage(alloc, places)
}

/// Adds the places that a move writes, in byte order, given the generations that stand.
pub fn add_move_places(
    alloc: Global,
    places: &mut Listed<WrittenPlace>,
    gens: &Gens,
    system: &SystemName,
    to: Move,
) -> Result<(), AllocError>
    ensures places { OnOk result ((leaves : Leaves) → IsGensOf leaves gens.now → places.new ≡ places.old ++ move_places to system.now leaves) }
    ensures apart { AreApartFromStage places.old → OnOk result (AreApartFromStage places.new) }
{
    match to {
        Move::Set => add_profile_places(alloc, places, gens, system),
        Move::Point(_) => add_point_places(alloc, places),
    }
}

/// Adds the place of the goal of a rollback.
pub fn add_goal_place(alloc: Global, places: &mut Listed<WrittenPlace>) -> Result<(), AllocError>
    ensures places { OnOk result (places.new ≡ places.old ++ goal_places) }
    ensures apart { AreApartFromStage places.old → OnOk result (AreApartFromStage places.new) }
{
    places.push(unread(goal_path(alloc)?))
}

/// Moves the profile, given the generations that stand and the number of the one that is current then.
///
/// A cut leaves the profile's link as it was or moved, and before a set also the new generation's link alone.
pub fn move_profile<T: Tree>(
    alloc: Global,
    host: &mut T,
    gens: &Gens,
    system: &SystemName,
    to: Move,
    number: u32,
) -> Result<(), HostFault>
    requires gens { Told (T.host host.old) (λ w. IsGensOf w.leaves gens.now) }
    requires number { IsNumberFor to gens.now.list system.now number }
    requires can { Told (T.host host.old) (λ w. IsFree (move_part to system.now) w.leaves) }
    ensures ok { OnOk result (Leads (T.host host.old) (T.host host.new) (λ w v. seen v ≡ move_world to system.now w)) }
    ensures written { OnOk result (Leads (T.host host.old) (T.host host.new) (WritesOnly owns_profile)) }
    ensures moments { Passes (T.host host.old) (T.host host.new) (IsMoveMoment to system.now) }
    ensures cause { HasCause (T.host host.old) (T.host host.new) result }
{
    match to {
        Move::Set => set_number(alloc, host, gens, system, number),
        Move::Point(number) => point(alloc, host, number),
    }
}
