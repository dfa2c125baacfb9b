//! Worlds, as they are given by places.
use crate::fields::{misread, text_of};
use host_trait::{Leaf, State, World};
use manager_core::read_state;
use node_text::read_node;
use std::alloc::Global;
use std::test::Fail;
use switch_names::{Bytes, Path, UnitName};

/// Where the units of the two systems lie in the store.
const OLD_UNITS: &str = "a-sys/etc/systemd/system";

const NEW_UNITS: &str = "b-sys/etc/systemd/system";

/// Puts the leaf of a node's text at a path.
fn put_node(alloc: Global, world: &mut World, at: &str, node: &[u8]) -> Result<(), Fail> {
    let at = Path::parse(alloc, at)?;
    world.set_leaf(alloc, at, read_node(alloc, node)?)?;
    Ok(())
}

/// Gives a world the manager of a text.
fn put_manager(alloc: Global, world: &mut World, text: &[u8]) -> Result<(), Fail> {
    let _before = world.swap_manager(read_state(alloc, text)?);
    Ok(())
}

/// The leaf of a text: a link where it begins with `->`, and else a file.
fn leaf_of(alloc: Global, text: &[u8]) -> Result<Leaf, Fail> {
    match text {
        [b'-', b'>', target @ ..] => Ok(Leaf::link(alloc, std::str::from_utf8(target)?)?),
        _ => Ok(Leaf::file(Bytes::from_slice(alloc, text)?, 420, 0, 0)),
    }
}

/// The path of a name in a folder of a system.
fn path_in(alloc: Global, folder: &str, name: &str) -> Result<Path, Fail> {
    let at = format!(in alloc; "nix/store/{folder}/{name}")?;
    Ok(Path::parse(alloc, at.as_str())?)
}

/// Puts the leaf of a text into a folder of a system.
fn put_file(
    alloc: Global,
    world: &mut World,
    folder: &str,
    (name, text): (&str, &[u8]),
) -> Result<(), Fail> {
    world.set_leaf(alloc, path_in(alloc, folder, name)?, leaf_of(alloc, text)?)?;
    Ok(())
}

/// Brings the units between the blanks of a text to a state.
fn put_states(alloc: Global, world: &mut World, units: &[u8], state: State) -> Result<(), Fail> {
    for name in std::str::from_utf8(units)?.split(' ') {
        world.set_state(UnitName::parse(alloc, name)?, state)?;
    }
    Ok(())
}

/// Puts a leaf into the folder of a system, or of both, by the word for it.
fn put_in(alloc: Global, world: &mut World, system: &str, file: (&str, &[u8])) -> Result<(), Fail> {
    match system {
        "old" => put_file(alloc, world, OLD_UNITS, file),
        "new" => put_file(alloc, world, NEW_UNITS, file),
        "both" => {
            put_file(alloc, world, OLD_UNITS, file)?;
            put_file(alloc, world, NEW_UNITS, file)
        }
        "wants" => put_file(alloc, world, "a-sys/etc", file),
        _ => misread(),
    }
}

/// Puts a file of so many bytes at a path.
fn put_long(alloc: Global, world: &mut World, at: &str, count: &[u8]) -> Result<(), Fail> {
    let count = std::str::from_utf8(count)?.parse::<usize>()?;
    let mut bytes = Vec::new(alloc);
    bytes.resize(count, b'a')?;
    let at = Path::parse(alloc, at)?;
    world.set_leaf(alloc, at, Leaf::file(Bytes::from_vec(bytes), 420, 0, 0))?;
    Ok(())
}

/// A number and what follows it after a blank.
fn numbered(text: &str) -> Result<(u64, &str), Fail> {
    match text.split_once(' ') {
        Some((count, rest)) => Ok((count.parse::<u64>()?, rest)),
        None => misread(),
    }
}

/// A text with a number for its star, where it has one.
fn starred(alloc: Global, text: &str, number: u64) -> Result<String, Fail> {
    match text.split_once('*') {
        Some((front, end)) => Ok(format!(in alloc; "{front}{number}{end}")?),
        None => Ok(String::from_str(alloc, text)?),
    }
}

/// Puts the leaf of a node's text at so many paths, with their numbers, from 1 on, for the star.
fn put_many(alloc: Global, world: &mut World, paths: &str, node: &[u8]) -> Result<(), Fail> {
    let (count, path) = numbered(paths)?;
    for number in 1..=count {
        let at = starred(alloc, path, number)?;
        put_node(alloc, world, at.as_str(), node)?;
    }
    Ok(())
}

/// Puts a file of so many lines, with their numbers, from 1 on, for the star.
fn put_lines(alloc: Global, world: &mut World, place: &str, line: &str) -> Result<(), Fail> {
    let (count, at) = numbered(place)?;
    let mut bytes = Vec::new(alloc);
    for number in 1..=count {
        let text = starred(alloc, line, number)?;
        bytes.extend_from_slice(text.as_bytes())?;
        bytes.push(b'\n')?;
    }
    let at = Path::parse(alloc, at)?;
    world.set_leaf(alloc, at, Leaf::file(Bytes::from_vec(bytes), 420, 0, 0))?;
    Ok(())
}

/// Gives a world what a word says of its manager.
fn put_word(alloc: Global, world: &mut World, word: &str, text: &[u8]) -> Result<(), Fail> {
    match word {
        "manager" => put_manager(alloc, world, text),
        "active" => put_states(alloc, world, text, State::Active),
        "failed" => put_states(alloc, world, text, State::Failed),
        _ => misread(),
    }
}

/// Puts what stands at a place.
fn put_place(alloc: Global, world: &mut World, place: &str, text: &[u8]) -> Result<(), Fail> {
    if let Some(at) = place.strip_prefix("tree/") {
        return put_node(alloc, world, at, text);
    }
    match place.split_once(' ') {
        Some(("long", at)) => put_long(alloc, world, at, text),
        Some(("many", paths)) => put_many(alloc, world, paths, text),
        Some(("lines", at)) => put_lines(alloc, world, at, std::str::from_utf8(text)?),
        Some((system, name)) => put_in(alloc, world, system, (name, text)),
        None => put_word(alloc, world, place, text),
    }
}

/// Puts what stands at a place, which stands before its text.
fn put_pair(alloc: Global, world: &mut World, pair: &[Bytes]) -> Result<(), Fail> {
    match pair {
        [place, text] => put_place(alloc, world, text_of(place)?, text.as_slice()),
        _ => misread(),
    }
}

/// Gives a world what stands at places, each before its text.
///
/// Fails where a place or a text can't be read, and where a leaf is in the way of another.
pub fn put_places(alloc: Global, world: &mut World, places: &[Bytes]) -> Result<(), Fail> {
    for pair in places.chunks(2) {
        put_pair(alloc, world, pair)?;
    }
    Ok(())
}

/// Gives a world two systems without units, of which the first is in use.
pub fn put_systems(alloc: Global, world: &mut World) -> Result<(), Fail> {
    let version = b"F 0644 0 0\n24.05\n".as_slice();
    put_node(alloc, world, "nix/store/a-sys/nixos-version", version)?;
    put_node(alloc, world, "nix/store/b-sys/nixos-version", version)?;
    put_node(
        alloc,
        world,
        "run/current-system",
        b"L /nix/store/a-sys\n".as_slice(),
    )
}
