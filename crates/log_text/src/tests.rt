//! Logs as they stand, with `|` for a line feed.
use crate::{Lists, Which, cleared_text, lists_text, read_log};
use std::alloc::Global;
use switch_names::UnitName;

/// A text with line feeds.
fn lines_of(alloc: Global, text: &str) -> Option<Vec<u8>> {
    let mut bytes = Vec::new(alloc);
    for byte in text.bytes() {
        bytes.push(if byte == b'|' { b'\n' } else { byte }).ok()?;
    }
    Some(bytes)
}

/// Adds names, each with a blank behind it.
fn add_names(text: &mut String, names: &[UnitName]) -> Option<()> {
    for name in names {
        text.push_str(name.as_str()).ok()?;
        text.push(' ').ok()?;
    }
    Some(())
}

/// The three lists.
fn shown(alloc: Global, lists: &Lists) -> Option<String> {
    let mut text = String::new(alloc);
    add_names(&mut text, lists.starts.as_slice())?;
    text.push('/').ok()?;
    add_names(&mut text, lists.restarts.as_slice())?;
    text.push('/').ok()?;
    add_names(&mut text, lists.reloads.as_slice())?;
    Some(text)
}

/// The lists of a log, and a mark where it is torn.
fn read(alloc: Global, bytes: &[u8]) -> Option<String> {
    let log = read_log(alloc, bytes).ok()?;
    let mut text = shown(alloc, &log.lists)?;
    if !log.is_whole {
        text.push('!').ok()?;
    }
    Some(text)
}

/// Logs, and what is read of them.
const LOGS: &[(&str, &str)] = &[
    ("", "//"),
    (
        "start 1|web.socket|end|restart 0|end|reload 0|end|",
        "web.socket //",
    ),
    (
        "start 0|end|restart 1|web.service|end|reload 0|end|",
        "/web.service /",
    ),
    ("reload 2|a.service|b.mount|end|", "//a.service b.mount "),
    (
        "start 1|a.service|end|start 1|b.service|end|",
        "b.service //",
    ),
    ("start 1|a.service|end|start 0|end|", "//"),
    (
        "start 1|end.target|end|restart 1|start.service|end|",
        "end.target /start.service /",
    ),
    ("start 1|web.socket|en", "//!"),
    ("start 1|web.socket|end", "//!"),
    ("start 2|a.service|end|", "//!"),
    ("start 0|a.service|end|", "//!"),
    ("start 01|a.service|end|", "//!"),
    ("start +1|a.service|end|", "//!"),
    ("start 2|b.service|a.service|end|", "//!"),
    ("start 2|a.service|a.service|end|", "//!"),
    ("start 1|a|end|", "//!"),
    ("start 18446744073709551615|a.service|", "//!"),
    ("stop 0|end|", "//!"),
    ("|start 0|end|", "//!"),
    (
        "start 1|a.service|end|x|start 1|b.service|end|",
        "a.service //!",
    ),
    (
        "start 1|a.service|end|restart 1|b.service|",
        "a.service //!",
    ),
];

/// Whether a log is read so.
fn is_read(alloc: Global, text: &str, wanted: &str) -> Option<bool> {
    let bytes = lines_of(alloc, text)?;
    let found = read(alloc, bytes.as_slice())?;
    Some(found.as_str() == wanted)
}

#[test]
fn logs_are_read_as_by_hand(rt: HostRuntime) {
    for (text, wanted) in LOGS {
        let is_read = is_read(rt.alloc(), text, wanted);
        assert!(rt; is_read == Some(true), "{text}");
    }
}

/// Lists of one unit each.
fn lists_of(alloc: Global, names: [&str; 3]) -> Option<Lists> {
    let mut lists = Lists::new(alloc);
    let [start, restart, reload] = names;
    lists.starts.push(UnitName::parse(alloc, start).ok()?).ok()?;
    lists
        .restarts
        .push(UnitName::parse(alloc, restart).ok()?)
        .ok()?;
    lists
        .reloads
        .push(UnitName::parse(alloc, reload).ok()?)
        .ok()?;
    Some(lists)
}

/// What is read of a log to which the first bytes of another text are appended.
fn read_torn(alloc: Global, log: &[u8], more: &[u8], count: usize) -> Option<String> {
    let mut bytes = Vec::new(alloc);
    bytes.extend_from_slice(log).ok()?;
    for byte in more.iter().take(count) {
        bytes.push(*byte).ok()?;
    }
    let log = read_log(alloc, bytes.as_slice()).ok()?;
    shown(alloc, &log.lists)
}

/// Whether at each byte of what is appended the lists are one of these, the last one at the end, and none comes again.
fn come_in_turn(alloc: Global, log: &[u8], more: &[u8], steps: &[&str]) -> Option<bool> {
    let mut rest = steps;
    for count in 0..=more.len() {
        let found = read_torn(alloc, log, more, count)?;
        if let Some(next) = rest.get(1) {
            if found.as_str() == *next {
                rest = &rest[1..];
            }
        }
        if found.as_str() != *rest.first()? {
            return Some(false);
        }
    }
    Some(rest.len() == 1)
}

/// Whether a record of lists over others shows each list as it was or as it is recorded, in order.
fn is_recorded_in_order(alloc: Global) -> Option<bool> {
    let old = lists_text(
        alloc,
        &lists_of(alloc, ["a.service", "b.service", "c.service"])?,
    )
    .ok()?;
    let new = lists_text(
        alloc,
        &lists_of(alloc, ["x.service", "y.service", "z.service"])?,
    )
    .ok()?;
    let steps = [
        "a.service /b.service /c.service ",
        "x.service /b.service /c.service ",
        "x.service /y.service /c.service ",
        "x.service /y.service /z.service ",
    ];
    come_in_turn(alloc, old.as_slice(), new.as_slice(), &steps)
}

/// Whether a list that is cleared is as it was or empty.
fn is_cleared_alone(alloc: Global) -> Option<bool> {
    let old = lists_text(
        alloc,
        &lists_of(alloc, ["a.service", "b.service", "c.service"])?,
    )
    .ok()?;
    let more = cleared_text(alloc, Which::Restarts).ok()?;
    let steps = ["a.service /b.service /c.service ", "a.service //c.service "];
    come_in_turn(alloc, old.as_slice(), more.as_slice(), &steps)
}

#[test]
fn a_record_that_is_torn_shows_lists_in_order(rt: HostRuntime) {
    assert!(rt; is_recorded_in_order(rt.alloc()) == Some(true));
    assert!(rt; is_cleared_alone(rt.alloc()) == Some(true));
}
