//! What is prepared to record lists, by hand.
use crate::{LOG_MAX, LogState, LogWrite};
use log_text::{Lists, lists_text};
use std::alloc::Global;
use switch_names::UnitName;

/// Lists of which one has a unit to start, or none has one.
fn lists_of(alloc: Global, start: Option<&str>) -> Option<Lists> {
    let mut lists = Lists::new(alloc);
    if let Some(start) = start {
        lists.starts.push(UnitName::parse(alloc, start).ok()?).ok()?;
    }
    Some(lists)
}

/// A word for what is prepared.
fn word_of(write: &LogWrite) -> &'static str {
    match write {
        LogWrite::Nothing => "nothing",
        LogWrite::Append(_) => "append",
        LogWrite::Put(_) => "put",
    }
}

/// What is prepared where this stands at the place of the log.
fn prepared(alloc: Global, log: LogState, lists: &Lists) -> Option<&'static str> {
    let write = log.prepare(alloc, lists).ok()?;
    Some(word_of(&write))
}

/// Whether a unit to start is recorded so.
fn is_recorded(alloc: Global, log: LogState, wanted: &str) -> Option<bool> {
    let lists = lists_of(alloc, Some("web.service"))?;
    Some(prepared(alloc, log, &lists)? == wanted)
}

/// Whether empty lists are recorded so.
fn is_nothing_recorded(alloc: Global, log: LogState, wanted: &str) -> Option<bool> {
    let lists = lists_of(alloc, None)?;
    Some(prepared(alloc, log, &lists)? == wanted)
}

/// The greatest log to which a unit to start can be appended.
fn greatest(alloc: Global) -> Option<usize> {
    let lists = lists_of(alloc, Some("web.service"))?;
    let text = lists_text(alloc, &lists).ok()?;
    LOG_MAX.checked_sub(text.as_slice().len())
}

#[test]
fn a_record_is_prepared_by_what_stands(rt: HostRuntime) {
    let alloc = rt.alloc();
    assert!(rt; is_nothing_recorded(alloc, LogState::Absent, "nothing") == Some(true));
    assert!(rt; is_nothing_recorded(alloc, LogState::Whole(0), "append") == Some(true));
    assert!(rt; is_nothing_recorded(alloc, LogState::Other, "put") == Some(true));
    assert!(rt; is_recorded(alloc, LogState::Absent, "put") == Some(true));
    assert!(rt; is_recorded(alloc, LogState::Whole(0), "append") == Some(true));
    assert!(rt; is_recorded(alloc, LogState::Other, "put") == Some(true));
}

#[test]
fn a_log_is_appended_to_up_to_its_limit(rt: HostRuntime) {
    let alloc = rt.alloc();
    let greatest = greatest(alloc).unwrap_or(0);
    assert!(rt; is_recorded(alloc, LogState::Whole(greatest), "append") == Some(true));
    assert!(rt;
        is_recorded(alloc, LogState::Whole(greatest.saturating_add(1)), "put") == Some(true)
    );
    assert!(rt; is_recorded(alloc, LogState::Whole(usize::MAX), "put") == Some(true));
}
