//! Which places runs write.
use super::ends::{show_end, sink_of, status_of};
use host_trait::World;
use std::alloc::Global;
use std::test::Fail;
use switch_names::{Bytes, Path};
use world_text::{Lines, host_of, text_of};

/// Whether a place lies below `etc`, or is one of the memory of accounts.
fn is_quiet(place: &Path) -> bool {
    place.as_str().starts_with("etc/") || place.as_str().starts_with("var/lib/nixos/")
}

/// Shows the places below `etc` and of the memory of accounts that a world has written after the first so many, in their
/// order.
fn show_written(lines: &mut Lines, world: &World, since: usize) {
    let places = world.written().as_slice();
    for k in since..places.len() {
        let place = &places[k];
        if is_quiet(place) {
            lines.add_word(place.as_str());
            lines.end_line();
        }
    }
}

/// Shows how a run of the second words ends after one of the first over the world of these places, and which places
/// below `etc` and of the memory of accounts it has written.
pub fn show_writes(
    alloc: Global,
    lines: &mut Lines,
    (words, then): (&Bytes, &Bytes),
    places: &[Bytes],
) -> Result<(), Fail> {
    let mut host = host_of(alloc, places)?;
    let mut sink = sink_of(alloc, "-")?;
    let _first = status_of(alloc, &mut host, &mut sink, text_of(words)?)?;
    let since = host.world().written().as_slice().len();
    show_end(alloc, lines, &mut host, "-", text_of(then)?)?;
    show_written(lines, host.world(), since);
    Ok(())
}
