//! The cases of names, worlds, hosts in memory and their sinks, texts of leaves and managers, generations, and collections.
mod acts;
mod calls;
mod collections;
mod fallen;
mod found;
mod leaves;
mod managers;
mod moves;
mod names;
mod nodes;
mod sinks;
mod states;
mod troubles;

use host_trait::World;
use std::alloc::Global;
use std::test::Fail;
use switch_names::Bytes;
use world_text::{Lines, host_of, misread};

/// Shows a case of a host, whose world stands after so many fields.
fn show_host(
    alloc: Global,
    lines: &mut Lines,
    command: &str,
    count: usize,
    fields: &[Bytes],
) -> Result<(), Fail> {
    let Some((arguments, places)) = fields.split_at_checked(count) else {
        return misread();
    };
    let mut host = host_of(alloc, places)?;
    match command {
        "act" => acts::show_act(alloc, lines, &mut host, arguments),
        "tops" => calls::show_tops(alloc, lines, &mut host, arguments),
        "reboot" => calls::show_reboot(alloc, lines, &mut host, arguments),
        "collection" => collections::show_collection(alloc, lines, &mut host, arguments),
        _ => found::show_generations(alloc, lines, &mut host, arguments),
    }
}

/// Shows a case of an empty world.
fn show_world(
    alloc: Global,
    lines: &mut Lines,
    command: &str,
    fields: &[Bytes],
) -> Result<(), Fail> {
    let mut world = World::new(alloc);
    match command {
        "states" => states::show_states_set(alloc, lines, &mut world, fields),
        "seen" => leaves::show_what_is_seen(alloc, lines, &mut world, fields),
        "put" => leaves::show_put(alloc, lines, &mut world, fields),
        "move" => moves::show_move(alloc, lines, &mut world, fields),
        _ => managers::show_hand_over(alloc, lines, &mut world, fields),
    }
}

/// Shows what a command of a part gives, where it is one.
pub fn show_part_case(
    alloc: Global,
    lines: &mut Lines,
    command: &str,
    fields: &[Bytes],
) -> Option<Result<(), Fail>> {
    let shown = match command {
        "path" | "system" | "unit" => names::show_name(alloc, lines, command, fields),
        "link" => nodes::show_link(alloc, lines, fields),
        "node" => nodes::show_node(alloc, lines, fields),
        "manager" => managers::show_manager(alloc, lines, fields),
        "states" | "seen" | "put" | "move" | "hand over" => {
            show_world(alloc, lines, command, fields)
        }
        "act" => show_host(alloc, lines, command, 4, fields),
        "generations" | "tops" | "collection" => show_host(alloc, lines, command, 1, fields),
        "reboot" => show_host(alloc, lines, command, 2, fields),
        "append" => calls::show_append(alloc, lines, fields),
        "number" => found::show_number(alloc, lines, fields),
        "trouble" => troubles::show_trouble(alloc, lines, fields),
        "fallen" => fallen::show_fallen(alloc, lines, fields),
        "sink" => sinks::show_sink(alloc, lines, fields),
        _ => return None,
    };
    Some(shown)
}
