//! What a sink in memory takes.
use crate::fields::number_of;
use crate::outcome::show_faults;
use host_memory::MemorySink;
use host_trait::Sink;
use std::alloc::Global;
use std::test::Fail;
use switch_names::Bytes;
use world_text::{Lines, list_of, misread, text_of};

/// Puts bytes, and shows how that ended, what the sink has, and its faults.
fn show_put(lines: &mut Lines, sink: &mut MemorySink, bytes: &[u8]) -> Result<(), Fail> {
    lines.add_value(&sink.put(bytes));
    lines.add_word(std::str::from_utf8(sink.bytes())?);
    show_faults(lines, sink.faults());
    Ok(())
}

/// Makes room in a sink, fails a put, or puts bytes and shows how that ended.
fn show_step(
    alloc: Global,
    lines: &mut Lines,
    sink: &mut MemorySink,
    (word, field): (&str, &Bytes),
) -> Result<(), Fail> {
    match word {
        "room" => sink.room(usize::try_from(number_of(field)?)?)?,
        "fail" => sink.fail(list_of(alloc, number_of(field)?)?),
        "put" => show_put(lines, sink, field.as_slice())?,
        _ => return misread(),
    }
    Ok(())
}

/// Shows the same in turn of a new sink.
pub fn show_sink(alloc: Global, lines: &mut Lines, steps: &[Bytes]) -> Result<(), Fail> {
    let mut sink = MemorySink::new(alloc);
    for step in steps.chunks(2) {
        let [word, field] = step else {
            return misread();
        };
        show_step(alloc, lines, &mut sink, (text_of(word)?, field))?;
    }
    Ok(())
}
