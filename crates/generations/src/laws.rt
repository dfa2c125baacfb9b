//! The profile and the goal of a rollback as parts of a switch.
ghost use Rattle.std.specs.Prelude.{◌≡◌, ◌↔◌, ◌<◌, ◌^◌, ℕ, Bool, true};
ghost use Rattle.host_trait.specs.World.{WorldState, seen, without_leaf};
ghost use Rattle.switch_names.specs.Names.{Name};
ghost use Rattle.switch_names.specs.SystemName.{IsSystemPath};
ghost use Rattle.switch_parts.specs.Part.{IsAtEnd, IsFree, IsPartMoment, IsPart};
ghost use Rattle.tree_put.specs.Put.{IsOldOrGone, IsOldOrNew};
ghost use Rattle.generations.specs.Boot.{BootStaysLaw, NamedLaw, OldOrNewLaw};
ghost use Rattle.generations.specs.declared.moving.Move.{Move};
ghost use Rattle.generations.specs.Gens.{IsGensOf};
ghost use Rattle.generations.specs.Goal.{GoalLaw, goal_leaf, goal_place};
ghost use Rattle.generations.specs.GoalPart.{goal_part};
ghost use Rattle.generations.specs.Move.{IsMoveMoment, IsMoveTo, gens_moved, move_part, move_world};
ghost use Rattle.generations.specs.ProfilePart.{has_number, profile_part};
ghost use Rattle.generations.specs.Set.{CanSet, NamesOldOrNew};

/// The part that moves the profile is one: what its moments keep is kept whatever else changes, and is
/// enough to make the move again.
pub fn the_profile_is_a_part()
    ensures { (move : Move) (system : Name) → IsPart (move_part move system) }
{}

/// The part that sets the profile isn't refused exactly where nothing is in the way of a set, and a
/// number is left.
pub fn a_set_can_be_made_where_its_part_is_free()
    ensures { (system : Name) (w : WorldState) → IsFree (profile_part system) w.leaves ↔ (CanSet system w × (has_number w.leaves system ≡ true)) }
{}

/// Each moment of a move that isn't refused is one of the part.
pub fn each_moment_of_a_move_is_one_of_its_part()
    ensures { (move : Move) (system : Name) (w m : WorldState) → IsSystemPath system → IsFree (move_part move system) w.leaves → IsMoveMoment move system w m
        → IsPartMoment (move_part move system) w m }
{}

/// A move leaves each place of the part at its end.
pub fn a_move_leaves_its_part_at_its_end()
    ensures { (move : Move) (system : Name) (w v : WorldState) → seen v ≡ move_world move system w → IsAtEnd (move_part move system) w v }
{}

/// What stands after a move is what its definition says: those generations that stood and, after a set,
/// the one that the system gets; the one that the profile names then is the current one.
pub fn a_move_leaves_these_generations()
    ensures { (move : Move) (system : Name) (w u : WorldState) → IsSystemPath system → IsMoveTo move system w.leaves → IsFree (move_part move system) w.leaves
        → seen u ≡ move_world move system w → IsGensOf u.leaves (gens_moved move system w.leaves) }
{}

/// Wherever a move is cut, it leaves the same generations.
pub fn generations_after_a_move_stay()
    ensures { (move : Move) (system : Name) (w m : WorldState) → (move_part move system).Keeps w m → gens_moved move system m.leaves ≡ gens_moved move system w.leaves }
{}

/// At each moment of a move the profile names what it named, or the system.
pub fn the_profile_names_the_old_system_or_the_new()
    ensures { (move : Move) (system : Name) (w m : WorldState) → IsSystemPath system → IsMoveTo move system w.leaves → IsFree (move_part move system) w.leaves
        → IsMoveMoment move system w m → NamesOldOrNew system w m }
{}

/// The system that a machine boots into is the one that the profile names. Where the profile names what it
/// named, or a system, a machine boots into what it would have, or into that system. A reboot leaves it.
///
/// Source: Nix manual, "Profiles".
pub fn a_machine_boots_into_what_the_profile_names()
    ensures named { NamedLaw }
    ensures old_or_new { OldOrNewLaw }
    ensures stays { BootStaysLaw }
{}

/// At each moment of a rollback before its goal is removed the goal is the same.
pub fn the_goal_stays()
    ensures { GoalLaw }
{}

/// The part that leaves no goal is one, whether or not the profile goes back. Each moment of recording a goal
/// and of removing it is one of the part, and the last leaves the part at its end.
pub fn the_goal_is_a_part()
    ensures part { (back : Bool) → IsPart (goal_part back) }
    ensures recording { (back : Bool) (n : ℕ) (w m : WorldState) → n < 2 ^ 32 → IsOldOrNew goal_place (goal_leaf n) w m → IsPartMoment (goal_part back) w m }
    ensures clearing { (back : Bool) (w m : WorldState) → IsOldOrGone goal_place w m → IsPartMoment (goal_part back) w m }
    ensures end { (back : Bool) (w v : WorldState) → v ≡ without_leaf goal_place w → IsAtEnd (goal_part back) w v }
{}
