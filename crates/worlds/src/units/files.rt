//! What unit files say, by the rules of systemd.syntax(7), and the sockets of services.
use crate::fields::no_memory;
use crate::writing::{show_names, show_value, show_values};
use std::alloc::Global;
use std::test::Fail;
use switch_names::{Bytes, UnitName};
use unit_decide::{may_start, sockets};
use unit_text::{TextFault, UnitText, parse};
use world_text::{Lines, misread, text_of};

/// Shows the values of the key `K` in the section `S` of a file's text, or the fault by which it is none.
pub fn show_file_values(alloc: Global, lines: &mut Lines, file: &[u8]) -> Result<(), Fail> {
    match parse(alloc, file) {
        Ok(text) => show_values(lines, text.values("S", "K")),
        Err(TextFault::Memory) => return no_memory(),
        Err(fault) => show_value(lines, &fault),
    }
    Ok(())
}

/// Applies a later file.
fn add_later(alloc: Global, text: &mut UnitText, file: &[u8]) -> Result<(), TextFault> {
    let later = parse(alloc, file)?;
    Ok(text.add(alloc, &later)?)
}

/// Shows the keys that have a value, each after its section.
fn show_keys(lines: &mut Lines, text: &UnitText) {
    for at in text.parts().changed_keys {
        if !text.values(at.section.as_str(), at.key.as_str()).is_empty() {
            lines.add_word(at.section.as_str());
            lines.add_word(at.key.as_str());
        }
    }
    lines.end_line();
}

/// Applies two files to an empty text, and shows the values of a key, the keys that have a value, and
/// the values of another key of a copy.
pub fn show_sum(alloc: Global, lines: &mut Lines, first: &[u8], later: &[u8]) -> Result<(), Fail> {
    let mut text = UnitText::empty(alloc);
    add_later(alloc, &mut text, first)?;
    add_later(alloc, &mut text, later)?;
    show_values(lines, text.values("S", "K"));
    show_keys(lines, &text);
    let copied = text.copy(alloc)?;
    show_values(lines, copied.values("A", "B"));
    Ok(())
}

/// Shows what these keys of the section `S` say as flags that are unset and set where they say nothing.
fn show_flags(lines: &mut Lines, text: &UnitText, keys: &str) {
    for key in keys.split(' ') {
        lines.add_word(key);
        lines.add_value(&text.flag("S", key, false));
        show_value(lines, &text.flag("S", key, true));
    }
}

/// Shows the sockets of a unit of this name.
fn show_sockets(alloc: Global, lines: &mut Lines, text: &UnitText, unit: &str) -> Result<(), Fail> {
    let unit = UnitName::parse(alloc, unit)?;
    let names = sockets(alloc, text, &unit)?;
    show_names(lines, "sockets", names.as_slice());
    Ok(())
}

/// What is asked; an empty text where that's nothing.
fn word_of(asked: &[Bytes]) -> Result<&str, Fail> {
    match asked {
        [] => Ok(""),
        [asked] => text_of(asked),
        _ => misread(),
    }
}

/// Shows what a file says of what is asked.
pub fn show_file(
    alloc: Global,
    lines: &mut Lines,
    file: &[u8],
    command: &str,
    asked: &[Bytes],
) -> Result<(), Fail> {
    let mut text = parse(alloc, file)?;
    let asked = word_of(asked)?;
    match command {
        "flags" => show_flags(lines, &text, asked),
        "sockets" => show_sockets(alloc, lines, &text, asked)?,
        "assign" if !asked.is_empty() => {
            text.assign(alloc, "S", "K", asked)?;
            show_values(lines, text.values("S", "K"));
        }
        "start" => show_value(lines, &may_start(&text)),
        _ => return misread(),
    }
    Ok(())
}
