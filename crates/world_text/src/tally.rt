//! What differs, and how many cases there are.
use crate::cases::Case;
use crate::fields::{misread, text_of};
use crate::lines::Lines;
use std::alloc::{AllocError, Global};
use std::test::Fail;

/// How many cases were tried, and how many of them gave something else than they have to.
#[derive(Drop)]
pub struct Tally {
    tried: u64,
    differing: u64,
}

/// Adds the name of a case: what is tried, and what the case shows.
fn show_name(lines: &mut Lines, case: &Case) -> Result<(), Fail> {
    let [command, title, ..] = case.fields.as_slice() else {
        return misread();
    };
    lines.add_word(text_of(command)?);
    lines.add_word("|");
    lines.add_word(text_of(title)?);
    lines.end_line();
    Ok(())
}

/// Adds a line, and the lines of a text, each after four blanks.
fn show_indented(lines: &mut Lines, head: &str, text: &str) {
    lines.add_text(head);
    lines.end_line();
    for line in text.lines() {
        lines.add_text("    ");
        lines.add_text(line);
        lines.end_line();
    }
}

/// The text of lines, where there was memory for all of them.
fn whole_text(lines: &Lines) -> Result<&str, Fail> {
    if lines.is_whole() {
        Ok(lines.as_str())
    } else {
        Err(Fail::from(AllocError))
    }
}

impl Tally {
    /// No case was tried.
    pub fn new() -> Tally {
        Tally {
            tried: 0,
            differing: 0,
        }
    }

    /// Counts a case that gave these lines. Where it has to give others, its name is put out, and both.
    pub fn count<R: Print + AllocGlobal>(
        &mut self,
        rt: &R,
        case: &Case,
        given: &mut Lines,
    ) -> Result<(), Fail> {
        self.tried = self.tried.saturating_add(1);
        given.end_last_line();
        let text = whole_text(given)?;
        if text == case.wanted.as_str() {
            return Ok(());
        }
        self.differing = self.differing.saturating_add(1);
        let mut lines = Lines::new(rt.alloc());
        show_name(&mut lines, case)?;
        show_indented(&mut lines, "  gave:", text);
        show_indented(&mut lines, "  should have given:", case.wanted.as_str());
        Ok(rt.print(whole_text(&lines)?)?)
    }

    /// Puts out how many cases there are, and how many differ, and fails where one does.
    pub fn tell<R: Print + AllocGlobal>(&self, rt: &R) -> Result<(), Fail> {
        let mut lines = Lines::new(rt.alloc());
        lines.add_value(&self.tried);
        lines.add_word("cases,");
        lines.add_value(&self.differing);
        lines.add_word("differ");
        lines.end_line();
        rt.print(whole_text(&lines)?)?;
        if self.differing == 0 {
            Ok(())
        } else {
            Err(Fail::new("a case gives something else than it has to"))
        }
    }
}
