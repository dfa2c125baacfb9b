//! Ids that are remembered, as JSON objects (RFC 8259), and free ones.
use crate::writing::{show_bytes, show_value};
use account_text::read_id;
use id_memory::{IdFault, IdMap, free_id};
use std::alloc::{AllocError, Global};
use std::test::Fail;
use switch_names::{Bytes, Listed, Text};
use world_text::{Lines, misread, text_of};

/// The ids of a text: `-` is a map that isn't read.
fn ids_of(alloc: Global, text: &[u8]) -> Result<IdMap, IdFault> {
    match text {
        [b'-'] => Ok(IdMap::none(alloc)),
        _ => IdMap::read(alloc, text),
    }
}

/// Remembers an id for a name, or shows the one that it has where that is `?`.
fn take_step(
    alloc: Global,
    lines: &mut Lines,
    ids: &mut IdMap,
    name: &str,
    id: &str,
) -> Result<(), Fail> {
    match read_id(id) {
        Some(id) if id < u32::MAX => Ok(ids.set(Text::from_str(alloc, name)?, id)?),
        None if id == "?" => {
            show_value(lines, &ids.get(name));
            Ok(())
        }
        _ => misread(),
    }
}

/// Takes a step: a name, and the id that is remembered for it or `?`.
fn take_pair(
    alloc: Global,
    lines: &mut Lines,
    ids: &mut IdMap,
    pair: &[Bytes],
) -> Result<(), Fail> {
    let [name, id] = pair else {
        return misread();
    };
    take_step(alloc, lines, ids, text_of(name)?, text_of(id)?)
}

/// Takes steps, and shows how many ids there are then and what is written of a copy.
fn show_steps(
    alloc: Global,
    lines: &mut Lines,
    ids: &mut IdMap,
    steps: &[Bytes],
) -> Result<(), Fail> {
    for step in steps.chunks(2) {
        take_pair(alloc, lines, ids, step)?;
    }
    lines.add_value(&ids.rows().as_slice().len());
    show_bytes(lines, &ids.copy(alloc)?.write(alloc)?)
}

/// Shows the ids of a text after some steps, or the fault by which it has none.
pub fn show_ids(
    alloc: Global,
    lines: &mut Lines,
    text: &Bytes,
    steps: &[Bytes],
) -> Result<(), Fail> {
    match ids_of(alloc, text.as_slice()) {
        Ok(mut ids) => show_steps(alloc, lines, &mut ids, steps),
        Err(fault) => {
            show_value(lines, &fault);
            Ok(())
        }
    }
}

/// Which ids are taken: `x` is one that is.
fn taken_of(alloc: Global, marks: &[u8]) -> Result<Listed<bool>, AllocError> {
    let mut taken = Listed::new(alloc);
    for mark in marks {
        taken.push(*mark == b'x')?;
    }
    Ok(taken)
}

/// Shows the first free id from one towards another.
pub fn show_free(
    alloc: Global,
    lines: &mut Lines,
    marks: &Bytes,
    from: &Bytes,
    to: &Bytes,
) -> Result<(), Fail> {
    let taken = taken_of(alloc, marks.as_slice())?;
    let taken = taken.as_slice();
    match (read_id(text_of(from)?), read_id(text_of(to)?)) {
        (Some(from), Some(to)) if (from as usize) < taken.len() && (to as usize) < taken.len() => {
            show_value(lines, &free_id(taken, from, to));
            Ok(())
        }
        _ => misread(),
    }
}
