//! Which contents a row takes, and which of them is too long.
ghost use Rattle.std.specs.Prelude.{◌≡◌, ◌++◌, false, true, IfOk, IsTrue, OnOk};
ghost use Rattle.host_trait.specs.Host.{Told};
ghost use Rattle.host_trait.specs.Reading.{IsReading};
ghost use Rattle.host_trait.specs.World.{Leaves};
ghost use Rattle.leaf_limits.specs.Limits.{AreTaken, AreWithin, is_long};
ghost use Rattle.owed_log.specs.Lengths.{AreOwedShort};
ghost use Rattle.switch_engine.specs.Lengths.{takes_by, takes_goal, takes_menu, takes_moved, takes_switch, too_long_by};
ghost use Rattle.switch_engine.specs.Rows.{gens_to};
ghost use Rattle.tree_put.specs.Found.{AreFound};

use crate::row::Row;
use boot_entries::version_path;
use generations::{Move, after_move, all, goal_path};
use host_trait::{HostFault, Tree};
use leaf_limits::{is_long, long_past};
use owed_log::owed_paths;
use std::alloc::{AllocError, Global};
use std::collections::BTreeMap;
use switch_names::{Listed, Path};
use switch_parts::{Refusal, What, too_many};
use tree_put::{Found, noted};

/// Adds paths.
fn add_paths(alloc: Global, places: &mut Listed<Path>, more: &[Path]) -> Result<(), AllocError>
    ensures { OnOk result (places.new ≡ places.old ++ more.now) }
{
    for path in more {
        places.push(path.copy(alloc)?)?;
    }
    Ok(())
}

/// The paths of what a switch of the units takes, where they are switched.
fn switch_sources<T: Tree>(
    alloc: Global,
    host: &mut T,
    row: &Row,
) -> Result<Listed<Path>, HostFault>
    ensures taken { IfOk result (λ places. Told (T.host host.old) (λ w. AreTaken places (takes_switch row.now.switches row.now.system w.leaves) w.leaves)) }
    ensures reads { IsReading (T.host host.old) (T.host host.new) result }
{
    if !row.switches {
        return Ok(Listed::new(alloc));
    }
    let mut places = owed_paths(alloc)?;
    let mut units = unit_stage::taken(alloc, host, &row.system)?;
    let mut others = accounts_stage::taken(alloc, &row.system)?;
    let entries = etc_farm::taken(alloc, host, &row.system)?;
    add_paths(alloc, &mut others, entries.as_slice())?;
    add_paths(alloc, &mut units, others.as_slice())?;
    add_paths(alloc, &mut places, units.as_slice())?;
    Ok(places)
}

/// The paths of what the boot menu takes, where the profile is moved.
fn menu_sources<T: Tree>(alloc: Global, host: &mut T, row: &Row) -> Result<Listed<Path>, HostFault>
    ensures taken { IfOk result (λ places. Told (T.host host.old) (λ w. AreTaken places (takes_menu row.now.moves (gens_to row.now.moves row.now.system w.leaves)) w.leaves)) }
    ensures reads { IsReading (T.host host.old) (T.host host.new) result }
{
    let Some(to) = row.moves else {
        return Ok(Listed::new(alloc));
    };
    let gens = all(alloc, host)?;
    let after = after_move(alloc, &gens, &row.system, to)?;
    Ok(boot_entries::taken(alloc, &after)?)
}

/// The path of the goal of a rollback, where the profile goes back.
fn goal_sources(alloc: Global, row: &Row) -> Result<Listed<Path>, AllocError>
    ensures taken { IfOk result (λ places. (leaves : Leaves) → AreTaken places (takes_goal row.now.moves) leaves) }
{
    let mut places = Listed::new(alloc);
    if let Some(Move::Point(_number)) = row.moves {
        places.push(goal_path(alloc)?)?;
    }
    Ok(places)
}

/// The paths of what a move of the profile takes, where it is moved.
fn move_sources<T: Tree>(alloc: Global, host: &mut T, row: &Row) -> Result<Listed<Path>, HostFault>
    ensures taken { IfOk result (λ places. Told (T.host host.old) (λ w. AreTaken places (takes_moved row.now.moves (gens_to row.now.moves row.now.system w.leaves)) w.leaves)) }
    ensures reads { IsReading (T.host host.old) (T.host host.new) result }
{
    let mut places = menu_sources(alloc, host, row)?;
    let goal = goal_sources(alloc, row)?;
    add_paths(alloc, &mut places, goal.as_slice())?;
    Ok(places)
}

/// The paths of what a row takes.
fn sources<T: Tree>(alloc: Global, host: &mut T, row: &Row) -> Result<Listed<Path>, HostFault>
    ensures taken { IfOk result (λ places. Told (T.host host.old) (λ w. AreTaken places (takes_by row.now.switches row.now.moves row.now.system (gens_to row.now.moves row.now.system w.leaves) w.leaves) w.leaves)) }
    ensures reads { IsReading (T.host host.old) (T.host host.new) result }
{
    let mut places = Listed::new(alloc);
    places.push(version_path(alloc, &row.system)?)?;
    let mut others = switch_sources(alloc, host, row)?;
    let moved = move_sources(alloc, host, row)?;
    add_paths(alloc, &mut others, moved.as_slice())?;
    add_paths(alloc, &mut places, others.as_slice())?;
    Ok(places)
}

/// The refusal of the first content in byte order that a row takes and that is too long, where there is one.
pub fn too_long<T: Tree>(
    alloc: Global,
    host: &mut T,
    row: &Row,
) -> Result<Option<Refusal>, HostFault>
    ensures refusal { IfOk result (λ why. Told (T.host host.old) (λ w. why ≡ too_long_by row.now.switches row.now.moves row.now.system (gens_to row.now.moves row.now.system w.leaves) w.leaves)) }
    ensures reads { IsReading (T.host host.old) (T.host host.new) result }
{
    let places = sources(alloc, host, row)?;
    let past = long_past(alloc, host, places.as_slice())?;
    Ok(too_many(What::LeafBytes, past))
}

/// Whether it is noted of a place that its content isn't too long.
fn is_known_short(findings: &BTreeMap<Path, Found>, at: &Path) -> bool
    ensures { (leaves : Leaves) → AreFound leaves findings.now → IsTrue result → is_long leaves at.now ≡ false }
{
    match noted(findings, at) {
        Some(found) => !is_long(&found.content),
        None => false,
    }
}

/// Whether it is noted of each of some places that its content isn't too long.
fn are_known_short(findings: &BTreeMap<Path, Found>, places: &[Path]) -> bool
    ensures { (leaves : Leaves) → AreFound leaves findings.now → IsTrue result → AreWithin places.now leaves }
{
    for at in places {
        if !is_known_short(findings, at) {
            return false;
        }
    }
    true
}

/// Whether a row doesn't switch the units, or it is noted that neither the log of what is owed nor a list of an older program is too
/// long.
pub fn is_owed_short(
    alloc: Global,
    findings: &BTreeMap<Path, Found>,
    row: &Row,
) -> Result<bool, AllocError>
    ensures { IfOk result (λ short. (leaves : Leaves) → AreFound leaves findings.now → IsTrue short → row.now.switches ≡ true → AreOwedShort leaves) }
{
    if !row.switches {
        return Ok(true);
    }
    let places = owed_paths(alloc)?;
    Ok(are_known_short(findings, places.as_slice()))
}
