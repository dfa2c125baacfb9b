//! What a fault of a host over a folder is called.
use host_files::cause_of;
use std::alloc::{AllocError, Global};
use std::io;
use switch_names::Text;

/// A call that has failed, with the place of the last call on files before it ended, where that is known.
pub struct Fault {
    error: io::Error,
    place: Option<String>,
}

/// One call: a derived drop is proved anew in each function that lets one go.
impl Drop for Fault {
    fn drop(self) {
        let Fault { error: _, place: _ } = self;
    }
}

/// What stands after a folder in a place below it.
fn below<'a>(place: &'a str, folder: &str) -> Option<&'a str> {
    place.strip_prefix(folder)?.strip_prefix('/')
}

/// What a place is called: its path in the tree, or the one below the root.
fn name_of<'a>(place: &'a str, root: &str, tree: &str) -> &'a str {
    match (below(place, tree), below(place, root)) {
        (Some(path), _) | (None, Some(path)) => path,
        (None, None) => "the root",
    }
}

/// A text without the characters that don't belong to a line.
fn in_a_line(alloc: Global, text: &str) -> Result<Text, AllocError> {
    let mut line = String::with_capacity(alloc, text.len())?;
    for character in text.chars() {
        line.push(if character.is_control() {
            '?'
        } else {
            character
        })?;
    }
    Ok(Text::from_string(line))
}

impl Fault {
    /// A fault with this error, and the place of the last call on files.
    pub fn new(error: io::Error, place: Option<String>) -> Fault {
        Fault { error, place }
    }

    /// The line that names its place and its cause.
    pub fn line(&self, alloc: Global, root: &str, tree: &str) -> Result<Text, AllocError> {
        let cause = cause_of(alloc, &self.error)?;
        let place = match &self.place {
            Some(place) if !place.is_empty() => place.as_str().trim_end_matches('/'),
            _ => return Ok(cause),
        };
        let name = in_a_line(alloc, name_of(place, root, tree))?;
        Ok(Text::from_string(format!(in alloc; "{}: {}", name.as_str(), cause.as_str())?))
    }
}
