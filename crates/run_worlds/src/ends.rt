//! Runs over a host, and the whole worlds that they leave.
use super::changes::show_changes;
use super::statuses::{show_after, show_status, whole_world};
use host_memory::{MemoryHost, MemorySink};
use host_trait::{Manager, World};
use std::alloc::{AllocError, Global};
use std::test::Fail;
use switch_names::{Bytes, Text};
use switch_run::{Status, run};
use world_text::{Lines, host_of, list_of, text_of};

/// The words of a command; `-` is none.
fn words_of(alloc: Global, line: &str) -> Result<Vec<Text>, AllocError> {
    let mut words = Vec::new(alloc);
    if line != "-" {
        for word in line.split_whitespace() {
            words.push(Text::from_str(alloc, word)?)?;
        }
    }
    Ok(words)
}

/// A sink with room for each report, in which the put with this number fails; `-` is none.
pub fn sink_of(alloc: Global, put: &str) -> Result<MemorySink, Fail> {
    let mut sink = MemorySink::new(alloc);
    sink.room(4096)?;
    if put != "-" {
        sink.fail(list_of(alloc, put.parse::<u64>()?)?);
    }
    Ok(sink)
}

/// The status of a run of these words.
pub fn status_of<H: Manager>(
    alloc: Global,
    host: &mut H,
    sink: &mut MemorySink,
    words: &str,
) -> Result<Status, AllocError> {
    let words = words_of(alloc, words)?;
    Ok(run(alloc, words.as_slice(), host, sink))
}

/// Shows how a run of these words ends, of which a put may fail, and what was put.
pub fn show_end<H: Manager>(
    alloc: Global,
    lines: &mut Lines,
    host: &mut H,
    put: &str,
    words: &str,
) -> Result<(), Fail> {
    let mut sink = sink_of(alloc, put)?;
    let status = status_of(alloc, host, &mut sink, words)?;
    show_status(alloc, lines, &status)?;
    lines.add_text(std::str::from_utf8(sink.bytes())?);
    Ok(())
}

/// Shows how a run of these words ends, and the whole world then.
pub fn show_outcome(
    alloc: Global,
    lines: &mut Lines,
    host: &mut MemoryHost,
    put: &str,
    words: &str,
) -> Result<(), Fail> {
    let before = whole_world(alloc, host.world())?;
    show_end(alloc, lines, host, put, words)?;
    show_after(alloc, lines, &before, host.world())
}

/// Shows the same of a run over the world of these places.
pub fn show_run(
    alloc: Global,
    lines: &mut Lines,
    put: &Bytes,
    words: &Bytes,
    places: &[Bytes],
) -> Result<(), Fail> {
    let mut host = host_of(alloc, places)?;
    show_outcome(alloc, lines, &mut host, text_of(put)?, text_of(words)?)
}

/// Shows how a run of these words ends, of which a put may fail, and what is other in the world then than before.
pub fn show_changing_end(
    alloc: Global,
    lines: &mut Lines,
    before: &World,
    host: &mut MemoryHost,
    (put, words): (&str, &str),
) -> Result<(), Fail> {
    show_end(alloc, lines, host, put, words)?;
    show_changes(alloc, lines, before, host.world())
}

/// Shows the same of a run over the world of these places.
pub fn show_changing_run(
    alloc: Global,
    lines: &mut Lines,
    put: &Bytes,
    words: &Bytes,
    places: &[Bytes],
) -> Result<(), Fail> {
    let before = host_of(alloc, places)?;
    let mut host = host_of(alloc, places)?;
    let run = (text_of(put)?, text_of(words)?);
    show_changing_end(alloc, lines, before.world(), &mut host, run)
}
