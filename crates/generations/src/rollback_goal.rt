//! The generation to which a rollback goes.
ghost use Rattle.std.specs.Prelude.{◌≡◌, ◌&&◌, ◌==◌, IfOk, OnOk, IsErrOf, None, Some, is_some, option_and_then};
ghost use Rattle.std.specs.Bool.{then_some};
ghost use Rattle.std.specs.List.{list_any};
ghost use Rattle.host_trait.specs.declared.tree.HostFault.TheVariants.{Device};
ghost use Rattle.host_trait.specs.Host.{Told, Leads, Becomes, Comes, Passes, HasCause};
ghost use Rattle.host_trait.specs.Reading.{IsReading, IsReadingOf};
ghost use Rattle.host_trait.specs.World.{content_of, with_leaf, without_leaf};
ghost use Rattle.tree_put.specs.Put.{CanPut, IsOldOrGone, IsOldOrNew};
ghost use Rattle.tree_put.specs.Written.{WritesOnly};
ghost use Rattle.leaf_limits.specs.Limits.{content_past};
ghost use Rattle.generations.specs.declared.rollback_goal.GoalFault.TheVariants.{Host, NoPrevious};
ghost use Rattle.generations.specs.Digits.{BearsNumber};
ghost use Rattle.generations.specs.Gens.{IsGensOf};
ghost use Rattle.generations.specs.Goal.{BearsGoal, goal, goal_leaf, goal_place, goal_text, recorded, some_number};
ghost use Rattle.generations.specs.GoalPart.{owns_goal};

use crate::digits::number_between;
use crate::found_goal::Goal;
use crate::gens::{Gen, Gens, previous};
use host_trait::{HostFault, Leaf, Tree, content, fixed_path};
use leaf_limits::content_past;
use std::alloc::{AllocError, Global};
use switch_names::{Bytes, Path};
use thiserror::Error;
use tree_put::{drop_leaf, put};

/// Why a rollback has no goal.
#[derive(Clone, Copy, Debug, PartialEq, Eq, Error)]
pub enum GoalFault {
    /// No goal is recorded, and no generation below the current one names a system.
    #[error("no previous generation")]
    NoPrevious,
    /// A call on the host has failed.
    #[error("the host has failed")]
    Host(HostFault),
}

impl From<HostFault> for GoalFault {
    ghost from_gives = { λ fault given. given ≡ Host fault };

    fn from(fault: HostFault) -> GoalFault {
        GoalFault::Host(fault)
    }
}

/// Where a goal is recorded.
#[tactic(auto, unfolding(crate::specs::Goal::goal_place))]
pub fn goal_path(alloc: Global) -> Result<Path, AllocError>
    ensures { IfOk result (λ path. path ≡ goal_place) }
{
    fixed_path(alloc, "run/nixos/rollback-goal")
}

/// The number of which some bytes are the text.
fn number_of(alloc: Global, bytes: &[u8]) -> Result<Option<u32>, AllocError>
    ensures { IfOk result (BearsNumber goal_text bytes.now) }
{
    match std::str::from_utf8(bytes) {
        Ok(text) => number_between(alloc, text, "", "\n"),
        Err(_) => Ok(None),
    }
}

/// The number that a content is the text of.
fn number_in(alloc: Global, content: Option<Bytes>) -> Result<Option<u32>, AllocError>
    ensures { IfOk result (BearsGoal content) }
{
    match content {
        Some(bytes) => number_of(alloc, bytes.as_slice()),
        None => Ok(None),
    }
}

/// Whether a generation has this number and names a system.
fn is_target(generation: &Gen, number: u32) -> bool
    ensures { result ≡ (generation.now.number == number && is_some generation.now.target) }
{
    generation.number == number && generation.target.is_some()
}

/// Whether some generation has this number and names a system.
fn has_target(gens: &Gens, number: u32) -> bool
    ensures { result ≡ list_any (λ gen. gen.number == number && is_some gen.target) gens.now.list }
{
    gens.list
        .as_slice()
        .iter()
        .any(|generation| is_target(generation, number))
}

/// A number, where a generation has it and names a system.
fn with_target(gens: &Gens, number: Option<u32>) -> Option<u32>
    ensures { result ≡ option_and_then (λ n. then_some (list_any (λ gen. gen.number == n && is_some gen.target) gens.now.list) n) number }
{
    let number = number?;
    has_target(gens, number).then_some(number)
}

/// The generation that is recorded as the goal, where it stands and names a system, and how many bytes what is recorded
/// has, where it has more than 16 MiB.
fn recorded<T: Tree>(
    alloc: Global,
    host: &mut T,
    gens: &Gens,
) -> Result<(Option<u32>, Option<u64>), HostFault>
    requires { Told (T.host host.old) (λ w. IsGensOf w.leaves gens.now) }
    ensures recorded { IfOk result (λ found. Told (T.host host.old) (λ w. found.0 ≡ some_number (recorded w.leaves))) }
    ensures past { IfOk result (λ found. Told (T.host host.old) (λ w. found.1 ≡ content_past (content_of w.leaves goal_place))) }
    ensures reads { IsReading (T.host host.old) (T.host host.new) result }
{
    let at = goal_path(alloc)?;
    let bytes = content(alloc, host, &at)?;
    let past = content_past(&bytes);
    let number = number_in(alloc, bytes)?;
    Ok((with_target(gens, number), past))
}

/// The generation to which a rollback goes: the one that is recorded, where it stands and names a system, else the
/// greatest below the current one that does.
///
/// What is recorded is read once.
/// Source: Nix manual, "Profiles"; nixos-rebuild(8), "--rollback".
pub fn goal<T: Tree>(alloc: Global, host: &mut T, gens: &Gens) -> Result<Goal, GoalFault>
    requires { Told (T.host host.old) (λ w. IsGensOf w.leaves gens.now) }
    ensures goal { IfOk result (λ found. Told (T.host host.old) (λ w. goal w.leaves ≡ Some found.number)) }
    ensures past { IfOk result (λ found. Told (T.host host.old) (λ w. found.past ≡ content_past (content_of w.leaves goal_place))) }
    ensures none { IsErrOf result NoPrevious → Told (T.host host.old) (λ w. goal w.leaves ≡ None) }
    ensures reads { IsReadingOf (T.host host.old) (T.host host.new) (IsErrOf result (Host Device)) }
{
    let (found, past) = recorded(alloc, host, gens)?;
    if let Some(number) = found {
        return Ok(Goal { number, past });
    }
    match previous(gens) {
        Some(number) => Ok(Goal { number, past }),
        None => Err(GoalFault::NoPrevious),
    }
}

/// The leaf that records a goal.
fn goal_leaf(alloc: Global, number: u32) -> Result<Leaf, AllocError>
    ensures { IfOk result (λ leaf. leaf ≡ goal_leaf number) }
{
    let text = format!(in alloc; "{number}\n")?;
    let bytes = Bytes::from_slice(alloc, text.as_bytes())?;
    Ok(Leaf::open_file(bytes))
}

/// Records the goal of a rollback, so that one that was cut goes to the same generation when it is made again.
///
/// A cut leaves what was recorded, or the goal.
pub fn record_goal<T: Tree>(alloc: Global, host: &mut T, number: u32) -> Result<(), HostFault>
    requires { Told (T.host host.old) (CanPut goal_place) }
    ensures ok { OnOk result (Comes (T.host host.old) (T.host host.new) (with_leaf goal_place (goal_leaf number))) }
    ensures written { OnOk result (Leads (T.host host.old) (T.host host.new) (WritesOnly owns_goal)) }
    ensures moments { Passes (T.host host.old) (T.host host.new) (IsOldOrNew goal_place (goal_leaf number)) }
    ensures cause { HasCause (T.host host.old) (T.host host.new) result }
{
    let at = goal_path(alloc)?;
    let leaf = goal_leaf(alloc, number)?;
    put(alloc, host, &at, &leaf)
}

/// Removes the goal that is recorded, whether or not one is.
///
/// A cut leaves what was recorded, or nothing.
pub fn clear_goal<T: Tree>(alloc: Global, host: &mut T) -> Result<(), HostFault>
    ensures ok { OnOk result (Becomes (T.host host.old) (T.host host.new) (without_leaf goal_place)) }
    ensures written { OnOk result (Leads (T.host host.old) (T.host host.new) (WritesOnly owns_goal)) }
    ensures moments { Passes (T.host host.old) (T.host host.new) (IsOldOrGone goal_place) }
    ensures cause { HasCause (T.host host.old) (T.host host.new) result }
{
    let at = goal_path(alloc)?;
    drop_leaf(alloc, host, &at)
}
