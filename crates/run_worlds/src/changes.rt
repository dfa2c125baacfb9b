//! What is other in a world than before.
use host_trait::World;
use std::alloc::Global;
use std::test::Fail;
use switch_names::Path;
use world_text::{Lines, show_journal, show_leaves, show_states};

/// The leaf at a place as it is shown; no lines where none stands there.
fn leaf_lines(alloc: Global, world: &World, at: &Path) -> Result<Lines, Fail> {
    let mut lines = Lines::new(alloc);
    if world.leaf(at).is_some() {
        show_leaves(alloc, &mut lines, world, at.as_str())?;
    }
    Ok(lines)
}

/// Shows a place where no leaf stands any more.
fn show_gone(lines: &mut Lines, after: &World, at: &Path) {
    if after.leaf(at).is_none() {
        lines.add_word("gone");
        lines.add_word(at.as_str());
        lines.end_line();
    }
}

/// Shows the leaf at a place, where another one or none stood before.
fn show_put(
    alloc: Global,
    lines: &mut Lines,
    before: &World,
    after: &World,
    at: &Path,
) -> Result<(), Fail> {
    let last = leaf_lines(alloc, before, at)?;
    let next = leaf_lines(alloc, after, at)?;
    if next.as_str() != last.as_str() {
        lines.add_all(&next);
    }
    Ok(())
}

/// Shows the places at or below one where no leaf stands any more.
fn show_all_gone(
    alloc: Global,
    lines: &mut Lines,
    before: &World,
    after: &World,
    under: &Path,
) -> Result<(), Fail> {
    let places = before.list(alloc, under)?;
    for at in places.as_slice() {
        show_gone(lines, after, at);
    }
    Ok(())
}

/// Shows the leaves at or below a place that are others than before.
fn show_all_put(
    alloc: Global,
    lines: &mut Lines,
    before: &World,
    after: &World,
    under: &Path,
) -> Result<(), Fail> {
    let places = after.list(alloc, under)?;
    for at in places.as_slice() {
        show_put(alloc, lines, before, after, at)?;
    }
    Ok(())
}

/// Shows what is other at or below a place: first where no leaf stands any more.
fn show_other_leaves(
    alloc: Global,
    lines: &mut Lines,
    before: &World,
    after: &World,
    under: &str,
) -> Result<(), Fail> {
    let under = Path::parse(alloc, under)?;
    show_all_gone(alloc, lines, before, after, &under)?;
    show_all_put(alloc, lines, before, after, &under)
}

/// Shows the states of a world, the leaves that are others than before, how many leaves there are, and
/// the journal.
pub fn show_changes(
    alloc: Global,
    lines: &mut Lines,
    before: &World,
    after: &World,
) -> Result<(), Fail> {
    show_states(lines, after);
    show_other_leaves(alloc, lines, before, after, "boot")?;
    show_other_leaves(alloc, lines, before, after, "etc")?;
    show_other_leaves(alloc, lines, before, after, "nix")?;
    show_other_leaves(alloc, lines, before, after, "run")?;
    show_other_leaves(alloc, lines, before, after, "var")?;
    lines.add_value(&after.leaf_count());
    lines.add_word("leaves");
    lines.end_line();
    show_journal(lines, after);
    Ok(())
}
