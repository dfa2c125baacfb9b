//! The entries of `/etc` of a made machine.
ghost use Rattle.std.specs.Prelude.{◌≡◌, ◌++◌, ◌∷◌, [], ◌==◌, ◌/◌, ◌%◌, if◌then◌else◌, codes, IfOk, OnOk, string_bytes};
ghost use Rattle.made_world.specs.Draws.{state_at};
ghost use Rattle.made_world.specs.Entries.{copied_in, entries_leaves, entry_leaves, entry_place, entry_text, linked_in};
ghost use Rattle.made_world.specs.Putting as systems;
ghost use Rattle.made_world.specs.Putting.{file_in, with_leaves};

use crate::draws::Draws;
use crate::putting::{new_system, old_system, put_file};
use host_trait::World;
use std::alloc::{AllocError, Global};
use switch_names::SystemName;

/// Where an entry stands below a system.
fn entry_place(alloc: Global, number: u64) -> Result<String, AllocError>
    ensures { IfOk result (λ place. string_bytes place ≡ entry_place number) }
{
    let folder = number % 50;
    format!(in alloc; "etc/e{folder}/f{number}")
}

/// Where something of an entry stands below a system, by its ending.
fn beside_entry(alloc: Global, number: u64, ending: &str) -> Result<String, AllocError>
    ensures { IfOk result (λ place. string_bytes place ≡ entry_place number ++ ending.now) }
{
    let mut place = entry_place(alloc, number)?;
    place.push_str(ending)?;
    Ok(place)
}

/// The bytes of an entry, where a mark stands after the number.
fn entry_text(alloc: Global, number: u64, mark: &str) -> Result<String, AllocError>
    ensures { IfOk result (λ text. string_bytes text ≡ entry_text number mark.now) }
{
    format!(in alloc; "text {number}{mark}\n")
}

/// Puts what tells the mode or an owner of an entry.
fn put_beside(
    alloc: Global,
    world: &mut World,
    system: &SystemName,
    number: u64,
    ending: &str,
    text: &str,
) -> Result<(), AllocError>
    ensures { OnOk result (world.new ≡ with_leaves (file_in system.now (entry_place number ++ ending.now) text.now ∷ []) world.old) }
{
    let place = beside_entry(alloc, number, ending)?;
    put_file(alloc, world, system, place.as_str(), text)
}

/// Puts the bytes of an entry, where a mark stands after the number.
fn put_marked(
    alloc: Global,
    world: &mut World,
    system: &SystemName,
    number: u64,
    mark: &str,
) -> Result<(), AllocError>
    ensures { OnOk result (world.new ≡ with_leaves (file_in system.now (entry_place number) (entry_text number mark.now) ∷ []) world.old) }
{
    let place = entry_place(alloc, number)?;
    let text = entry_text(alloc, number, mark)?;
    put_file(alloc, world, system, place.as_str(), text.as_str())
}

/// Puts an entry in a system that is copied, with its mode and its owners.
fn put_copied(
    alloc: Global,
    world: &mut World,
    system: &SystemName,
    number: u64,
    mark: &str,
) -> Result<(), AllocError>
    ensures { OnOk result (world.new ≡ with_leaves (copied_in system.now number mark.now) world.old) }
{
    put_marked(alloc, world, system, number, mark)?;
    put_beside(alloc, world, system, number, ".mode", "0644")?;
    put_beside(alloc, world, system, number, ".uid", "+0")?;
    put_beside(alloc, world, system, number, ".gid", "+0")
}

/// Puts an entry that is copied in both systems, and changed in the new one.
fn put_both_copied(alloc: Global, world: &mut World, number: u64) -> Result<(), AllocError>
    ensures { OnOk result (world.new ≡ with_leaves (copied_in systems.old_system number [] ++ copied_in systems.new_system number (codes " new")) world.old) }
{
    let old = old_system(alloc)?;
    let new = new_system(alloc)?;
    put_copied(alloc, world, &old, number, "")?;
    put_copied(alloc, world, &new, number, " new")
}

/// Puts an entry that is linked in one of the systems.
fn put_one_linked(
    alloc: Global,
    world: &mut World,
    number: u64,
    draw: u64,
) -> Result<(), AllocError>
    ensures { OnOk result (world.new ≡ with_leaves (linked_in (if draw / 4 % 2 == 0 then systems.old_system else systems.new_system) number) world.old) }
{
    let system = if draw / 4 % 2 == 0 {
        old_system(alloc)?
    } else {
        new_system(alloc)?
    };
    put_marked(alloc, world, &system, number, "")
}

/// Puts an entry that is linked in both systems.
fn put_both_linked(alloc: Global, world: &mut World, number: u64) -> Result<(), AllocError>
    ensures { OnOk result (world.new ≡ with_leaves (linked_in systems.old_system number ++ linked_in systems.new_system number) world.old) }
{
    let old = old_system(alloc)?;
    let new = new_system(alloc)?;
    put_marked(alloc, world, &old, number, "")?;
    put_marked(alloc, world, &new, number, "")
}

/// Puts what an entry has in the systems.
fn put_entry(alloc: Global, world: &mut World, number: u64, draw: u64) -> Result<(), AllocError>
    ensures { OnOk result (world.new ≡ with_leaves (entry_leaves number draw) world.old) }
{
    match draw % 4 {
        2 => put_both_copied(alloc, world, number),
        3 => put_one_linked(alloc, world, number, draw),
        _ => put_both_linked(alloc, world, number),
    }
}

/// Puts the entries with these draws.
pub(crate) fn make_entries(
    alloc: Global,
    world: &mut World,
    draws: &mut Draws,
    entries: u32,
) -> Result<(), AllocError>
    ensures world { OnOk result (world.new ≡ with_leaves (entries_leaves draws.old.state entries) world.old) }
    ensures draws { OnOk result (draws.new.state ≡ state_at draws.old.state entries) }
{
    for number in 0..u64::from(entries) {
        let draw = draws.draw();
        put_entry(alloc, world, number, draw)?;
    }
    Ok(())
}
