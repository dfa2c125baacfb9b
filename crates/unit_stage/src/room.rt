//! Whether a log has room for the names of all units that are owed something in each of its lists.
ghost use Rattle.std.specs.Prelude.{◌≡◌, ◌+◌, ◌<◌, ◌↔◌, length, IfOk, IsSome, IsTrue, List, MatchOption};
ghost use Rattle.log_text.specs.Log.{list_text};
ghost use Rattle.switch_names.specs.Names.{IsListOf, Name};
ghost use Rattle.unit_stage.specs.Owes.{FitInEach};
ghost use Rattle.unit_stage.specs.Room.{is_owed};

use host_trait::UnitSet;
use leaf_limits::LEAF_MAX;
use log_text::RECORD_ORDER;
use owed_plan::Owed;
use std::alloc::{AllocError, Global};
use switch_names::{Listed, UnitName};

/// How many lists a log has.
const LISTS: u64 = RECORD_ORDER.len() as u64;

/// The most bytes that names may have, a line each, which stand in each list of a file of `LEAF_MAX` bytes with 64 bytes more.
const NAMES_MAX: u64 = LEAF_MAX / LISTS - 64;

/// What names, a line each, leave of some bytes, where they fit.
fn room_after(room: u64, names: &[UnitName]) -> Option<u64>
    ensures { MatchOption result (room < length (list_text names.now)) (λ left. left + length (list_text names.now) ≡ room) }
{
    let mut left = room;
    for name in names {
        left = left
            .checked_sub(name.as_str().len() as u64)?
            .checked_sub(1)?;
    }
    Some(left)
}

/// What the names of the stops and of all lists leave, where they fit, those twice that stand in two.
fn room_after_all(owed: &Owed) -> Option<u64>
    ensures { IsSome result → (names : List Name) → IsListOf names (λ unit. IsTrue (is_owed owed.now unit)) → FitInEach names }
{
    let mut left = room_after(NAMES_MAX, owed.stops.as_slice())?;
    for which in RECORD_ORDER {
        left = room_after(left, owed.lists.of(which).as_slice())?;
    }
    Some(left)
}

/// The units that are owed something, each once.
fn owed_units(alloc: Global, owed: &Owed) -> Result<Listed<UnitName>, AllocError>
    ensures { IfOk result (λ names. IsListOf names (λ unit. IsTrue (is_owed owed.now unit))) }
{
    let mut units = UnitSet::of(alloc, owed.stops.as_slice())?;
    for which in RECORD_ORDER {
        units.insert_all(alloc, owed.lists.of(which).as_slice())?;
    }
    units.into_names(alloc)
}

/// Whether the names of the units that are owed something, a line each, can stand in each list of a file that can be read
/// again, with 64 bytes more for each. The union of the lists is made only where the lists together are too long.
pub fn have_room(alloc: Global, owed: &Owed) -> Result<bool, AllocError>
    ensures { IfOk result (λ room. (names : List Name) → IsListOf names (λ unit. IsTrue (is_owed owed.now unit)) → IsTrue room ↔ FitInEach names) }
{
    if room_after_all(owed).is_some() {
        return Ok(true);
    }
    let units = owed_units(alloc, owed)?;
    Ok(room_after(NAMES_MAX, units.as_slice()).is_some())
}
