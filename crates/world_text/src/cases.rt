//! Cases, as they stand in a text.
use crate::fields::field_of;
use std::alloc::Global;
use std::mem;
use std::test::Fail;
use switch_names::{Bytes, Listed};

/// A case: its fields, which are what is tried, what it shows and what it is tried with, and the lines that
/// it has to give.
#[derive(Drop)]
pub struct Case {
    pub fields: Listed<Bytes>,
    pub wanted: String,
}

/// Whether a line begins a case or a set.
fn is_head(line: &str) -> bool {
    match line.as_bytes() {
        [] | [b'#', ..] | [b'>', ..] | [b'|', b' ', ..] => false,
        _ => true,
    }
}

/// The fields of the set of this name.
fn set_named<'a>(sets: &'a [Case], name: &str) -> Result<&'a [Bytes], Fail> {
    for set in sets {
        match set.fields.as_slice() {
            [_, title, fields @ ..] if title.as_slice() == name.as_bytes() => return Ok(fields),
            _ => {}
        }
    }
    Err(Fail::new("a field names no set"))
}

impl Case {
    /// A case without fields.
    fn new(alloc: Global) -> Case {
        Case {
            fields: Listed::new(alloc),
            wanted: String::new(alloc),
        }
    }

    /// Whether it is a set of fields.
    fn is_set(&self) -> bool {
        match self.fields.as_slice() {
            [word, ..] => word.as_slice() == b"set".as_slice(),
            [] => false,
        }
    }

    /// Adds copies of fields.
    fn add_copies(&mut self, alloc: Global, fields: &[Bytes]) -> Result<(), Fail> {
        for field in fields {
            self.fields.push(field.copy(alloc)?)?;
        }
        Ok(())
    }

    /// Adds the fields for which a text stands: those of a set where it is `@` and the set's name.
    fn add_field(&mut self, alloc: Global, sets: &[Case], text: &str) -> Result<(), Fail> {
        match text.strip_prefix('@') {
            Some(name) => self.add_copies(alloc, set_named(sets, name)?),
            None => Ok(self.fields.push(field_of(alloc, text)?)?),
        }
    }

    /// Adds the fields of a line.
    fn add_fields(&mut self, alloc: Global, sets: &[Case], line: &str) -> Result<(), Fail> {
        for text in line.split(" | ") {
            self.add_field(alloc, sets, text)?;
        }
        Ok(())
    }

    /// Adds a line that the case has to give.
    fn add_wanted(&mut self, line: &str) -> Result<(), Fail> {
        self.wanted.push_str(line)?;
        Ok(self.wanted.push('\n')?)
    }

    /// Reads a line of the case.
    fn read_line(&mut self, alloc: Global, sets: &[Case], line: &str) -> Result<(), Fail> {
        if line.is_empty() || line.starts_with('#') {
            return Ok(());
        }
        match line.strip_prefix('>') {
            Some(wanted) => self.add_wanted(wanted.strip_prefix(' ').unwrap_or(wanted)),
            None => self.add_fields(alloc, sets, line.strip_prefix("| ").unwrap_or(line)),
        }
    }
}

/// Puts a case that has ended to the sets or to the cases, if it has fields.
fn keep(sets: &mut Listed<Case>, cases: &mut Listed<Case>, case: Case) -> Result<(), Fail> {
    if case.is_set() {
        Ok(sets.push(case)?)
    } else if case.fields.as_slice().is_empty() {
        Ok(())
    } else {
        Ok(cases.push(case)?)
    }
}

/// The cases of a text.
///
/// Fails where a field can't be read, and where one names no set above it.
pub fn cases_of(alloc: Global, input: &str) -> Result<Listed<Case>, Fail> {
    let mut sets = Listed::new(alloc);
    let mut cases = Listed::new(alloc);
    let mut last = Case::new(alloc);
    for line in input.lines() {
        if is_head(line) {
            let ended = mem::replace(&mut last, Case::new(alloc));
            keep(&mut sets, &mut cases, ended)?;
        }
        last.read_line(alloc, sets.as_slice(), line)?;
    }
    keep(&mut sets, &mut cases, last)?;
    Ok(cases)
}
