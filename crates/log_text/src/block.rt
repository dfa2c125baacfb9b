//! The blocks of a log.
ghost use Rattle.std.specs.Prelude.{◌≡◌, ◌≢◌, ◌++◌, ◌∷◌, ◌<◌, ◌^◌, ◌↔◌, ℕ, List, IsTrue, codes, string_bytes, IfOk, IfSome, MatchOption, None, length};
ghost use Rattle.log_text.specs.Log.{IsBlock, block_text, header_of, last_line, word};

use crate::lines::{first_line, first_names, is_ascending};
use crate::lists::{RECORD_ORDER, Which};
use std::alloc::{AllocError, Global};
use switch_names::{Listed, UnitName};

/// What a block gives: the names of one of the lists.
pub struct Block {
    pub which: Which,
    pub names: Listed<UnitName>,
}

/// One call: a derived drop is proved anew in each function that lets one go.
impl Drop for Block {
    fn drop(self) {
        let Block { which: _, names: _ } = self;
    }
}

impl Block {
    /// The list that it gives, and the names.
    pub fn into_parts(self) -> (Which, Listed<UnitName>)
        ensures which { result.0 ≡ self.which }
        ensures names { result.1 ≡ self.names }
    {
        let Block { which, names } = self;
        (which, names)
    }
}

impl Which {
    /// The word for the list.
    pub fn word(self) -> &'static str
        ensures { result.now ≡ word self }
    {
        match self {
            Which::Starts => "start",
            Which::Restarts => "restart",
            Which::Reloads => "reload",
        }
    }

    /// The first line of a block of so many names.
    pub(crate) fn header(self, alloc: Global, count: usize) -> Result<String, AllocError>
        ensures { IfOk result (λ line. string_bytes line ≡ header_of self count) }
    {
        format!(in alloc; "{} {count}", self.word())
    }

    /// Whether a line is the first one of such a block.
    fn is_header(self, alloc: Global, count: usize, line: &[u8]) -> Result<bool, AllocError>
        ensures { IfOk result (λ is. IsTrue is ↔ (line.now ≡ header_of self count)) }
    {
        let header = self.header(alloc, count)?;
        Ok(header.as_str().as_bytes() == line)
    }
}

/// The list whose block of so many names begins with a line.
fn list_of(alloc: Global, line: &[u8], count: usize) -> Result<Option<Which>, AllocError>
    ensures { IfOk result (λ which. MatchOption which ((one : Which) → line.now ≢ header_of one count) (λ one. line.now ≡ header_of one count)) }
{
    for which in RECORD_ORDER {
        if which.is_header(alloc, count, line)? {
            return Ok(Some(which));
        }
    }
    Ok(None)
}

/// Whether a line is the last one of a block.
fn is_end(line: &[u8]) -> bool
    ensures { IsTrue result ↔ (line.now ≡ codes "end") }
{
    line == b"end".as_slice()
}

/// What follows the last line of a block.
fn after_end(text: &[u8]) -> Option<&[u8]>
    ensures { MatchOption result ((rest : List ℕ) → text.now ≢ last_line ++ rest) (λ rest. text.now ≡ last_line ++ rest.now) }
{
    match first_line(text) {
        Some((line, rest)) => if is_end(line) { Some(rest) } else { None },
        None => None,
    }
}

/// The block with which a text begins, and what follows it.
///
/// No memory is taken by the number in its first line.
pub fn first_block<'a>(
    alloc: Global,
    text: &'a [u8],
) -> Result<Option<(Block, &'a [u8])>, AllocError>
    ensures block { IfOk result (λ found. IfSome found (λ read. IsBlock read.0 × (text.now ≡ block_text read.0 ++ read.1.now))) }
    ensures none { IfOk result (λ found. found ≡ None → (block : Block) (rest : List ℕ) → IsBlock block → text.now ≢ block_text block ++ rest) }
{
    let Some((line, after)) = first_line(text) else {
        return Ok(None);
    };
    let (names, rest) = first_names(alloc, after)?;
    let Some(rest) = after_end(rest) else {
        return Ok(None);
    };
    if !is_ascending(names.as_slice()) {
        return Ok(None);
    }
    match list_of(alloc, line, names.as_slice().len())? {
        Some(which) => Ok(Some((Block { which, names }, rest))),
        None => Ok(None),
    }
}
