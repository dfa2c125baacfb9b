//! What statuses say, and what worlds hold.
use host_trait::World;
use std::alloc::Global;
use std::test::Fail;
use switch_run::Status;
use world_text::{Lines, show_journal, show_leaves, show_states};

/// Shows the number of a status, and what it says.
pub fn show_status(alloc: Global, lines: &mut Lines, status: &Status) -> Result<(), Fail> {
    let said = status.text(alloc)?;
    lines.add_value(&status.number());
    if !said.as_str().is_empty() {
        lines.add_word(said.as_str());
    }
    lines.end_line();
    Ok(())
}

/// Shows the statuses of faults.
pub fn show_fault_statuses(alloc: Global, lines: &mut Lines) -> Result<(), Fail> {
    show_status(alloc, lines, &Status::HostFault)?;
    show_status(alloc, lines, &Status::NoMemory)
}

/// Shows all of a world but the journal, and how many leaves there are.
pub fn show_all_but_the_journal(
    alloc: Global,
    lines: &mut Lines,
    world: &World,
) -> Result<(), Fail> {
    show_states(lines, world);
    show_leaves(alloc, lines, world, "boot")?;
    show_leaves(alloc, lines, world, "etc")?;
    show_leaves(alloc, lines, world, "nix")?;
    show_leaves(alloc, lines, world, "run")?;
    show_leaves(alloc, lines, world, "var")?;
    lines.add_value(&world.leaf_count());
    lines.add_word("leaves");
    lines.end_line();
    Ok(())
}

/// A whole world, its journal last.
pub fn whole_world(alloc: Global, world: &World) -> Result<Lines, Fail> {
    let mut lines = Lines::new(alloc);
    show_all_but_the_journal(alloc, &mut lines, world)?;
    show_journal(&mut lines, world);
    Ok(lines)
}

/// Shows a whole world, or that it is the one that was before.
pub fn show_after(
    alloc: Global,
    lines: &mut Lines,
    before: &Lines,
    world: &World,
) -> Result<(), Fail> {
    let after = whole_world(alloc, world)?;
    if after.as_str() == before.as_str() {
        lines.add_text("unchanged\n");
    } else {
        lines.add_all(&after);
    }
    Ok(())
}
