//! Lines of words.
use std::alloc::Global;
use std::fmt::Debug;

/// The lines that a case gives.
///
/// Want of memory is kept in mind, and told at the end by `is_whole`.
#[derive(Drop)]
pub struct Lines {
    text: String,
    is_whole: bool,
}

impl Lines {
    /// No lines.
    pub fn new(alloc: Global) -> Lines {
        Lines {
            text: String::new(alloc),
            is_whole: true,
        }
    }

    /// All lines.
    pub fn as_str(&self) -> &str {
        self.text.as_str()
    }

    /// Whether there was memory for all of them.
    pub fn is_whole(&self) -> bool {
        self.is_whole
    }

    /// Whether the last line has ended.
    fn is_ended(&self) -> bool {
        self.text.is_empty() || self.text.as_str().ends_with('\n')
    }

    /// Adds a text as it stands.
    pub fn add_text(&mut self, text: &str) {
        if self.text.push_str(text).is_err() {
            self.is_whole = false;
        }
    }

    /// Adds other lines, and that there was no memory for them.
    pub fn add_all(&mut self, lines: &Lines) {
        self.add_text(lines.as_str());
        self.is_whole = self.is_whole && lines.is_whole;
    }

    /// Ends the line, which may be empty.
    pub fn end_line(&mut self) {
        self.add_text("\n");
    }

    /// Ends the last line if it hasn't ended.
    pub fn end_last_line(&mut self) {
        if !self.is_ended() {
            self.end_line();
        }
    }

    /// Adds a blank where the line has a word.
    fn add_gap(&mut self) {
        if !self.is_ended() {
            self.add_text(" ");
        }
    }

    /// Adds a word to the line.
    pub fn add_word(&mut self, word: &str) {
        self.add_gap();
        self.add_text(word);
    }

    /// Adds a value to the line, as a word.
    pub fn add_value<T: Debug>(&mut self, value: &T) {
        self.add_gap();
        if write!(self.text, "{value:?}").is_err() {
            self.is_whole = false;
        }
    }
}
