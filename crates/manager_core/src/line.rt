//! One line of a manager's text.
ghost use Rattle.std.specs.Prelude.{◌≡◌, ◌==◌, IfOk, nat_eq, position, option_map};
ghost use Rattle.std.specs.Cmp.Lexicographic.{pointwise};
ghost use Rattle.switch_names.specs.Path.{is_no_path_byte};
ghost use Rattle.manager_core.specs.Reading.{bad_said, entry_said, line_of, parted, said, state_said, text_of, unit_and_text, utf8_of, word_of, word_text};

use host_trait::{Act, Bad, Entry, State, UnitState};
use std::alloc::{AllocError, Global};
use switch_names::{Text, UnitName};

/// What a line says.
#[derive(Drop)]
pub enum Line {
    /// Where the definitions lie that are loaded.
    Loaded(Text),
    /// A unit that isn't inactive, with its state.
    State(UnitState),
    /// A unit that fails when it is started under these definitions.
    Bad(Bad),
    /// One act in the journal.
    Entry(Entry),
}

/// The first word of a line, which says what the rest is.
#[derive(Clone, Copy)]
pub enum Word {
    /// `loaded`
    Loaded,
    /// `active`
    Active,
    /// `failed`
    Failed,
    /// `bad`
    Bad,
    /// `stop`
    Stop,
    /// `reload`
    Reload,
    /// `restart`
    Restart,
    /// `start`
    Start,
}

/// Every word.
const WORDS: [Word; 8] = [
    Word::Loaded,
    Word::Active,
    Word::Failed,
    Word::Bad,
    Word::Stop,
    Word::Reload,
    Word::Restart,
    Word::Start,
];

/// How a word is spelled.
fn word_text(word: Word) -> &'static str
    ensures { result.now ≡ word_text word }
{
    match word {
        Word::Loaded => "loaded",
        Word::Active => "active",
        Word::Failed => "failed",
        Word::Bad => "bad",
        Word::Stop => "stop",
        Word::Reload => "reload",
        Word::Restart => "restart",
        Word::Start => "start",
    }
}

/// Whether two texts have the same bytes.
fn is_same(one: &[u8], other: &[u8]) -> bool
    ensures { result ≡ pointwise nat_eq one.now other.now }
{
    one == other
}

/// The word with this spelling.
fn word_of(text: &[u8]) -> Option<Word>
    ensures { result ≡ word_of text.now }
{
    WORDS
        .iter()
        .copied()
        .find(|word| is_same(word_text(*word).as_bytes(), text))
}

/// The place of the first such byte.
fn first_place(bytes: &[u8], mark: u8) -> Option<usize>
    ensures { result ≡ position (λ byte. byte == mark) bytes.now }
{
    bytes.iter().position(|byte| *byte == mark)
}

/// What stands before and after the first such byte.
pub fn parted(bytes: &[u8], mark: u8) -> Option<(&[u8], &[u8])>
    ensures { option_map (λ parts. (parts.0.now, parts.1.now)) result ≡ parted mark bytes.now }
{
    match first_place(bytes, mark) {
        Some(at) => Some((&bytes[..at], &bytes[at + 1..])),
        None => None,
    }
}

/// Some bytes as a text, where they are one.
fn utf8_of(bytes: &[u8]) -> Option<&str>
    ensures { option_map (λ text. text.now) result ≡ utf8_of bytes.now }
{
    match std::str::from_utf8(bytes) {
        Ok(text) => Some(text),
        Err(_) => None,
    }
}

/// The place of the first NUL or line feed.
fn first_no_text_byte(bytes: &[u8]) -> Option<usize>
    ensures { result ≡ position is_no_path_byte bytes.now }
{
    bytes.iter().position(|byte| *byte == 0 || *byte == b'\n')
}

/// Reads where definitions lie.
fn read_text(alloc: Global, bytes: &[u8]) -> Result<Option<Text>, AllocError>
    ensures { IfOk result (λ text. text ≡ text_of bytes.now) }
{
    if first_no_text_byte(bytes).is_some() {
        return Ok(None);
    }
    match utf8_of(bytes) {
        Some(text) => Ok(Some(Text::from_str(alloc, text)?)),
        None => Ok(None),
    }
}

/// Reads the name of a unit, and after a blank where definitions lie.
fn read_unit_and_text(alloc: Global, bytes: &[u8]) -> Result<Option<(UnitName, Text)>, AllocError>
    ensures { IfOk result (λ read. read ≡ unit_and_text bytes.now) }
{
    let Some((unit, text)) = parted(bytes, b' ') else {
        return Ok(None);
    };
    let Some(unit) = UnitName::of_bytes(alloc, unit)? else {
        return Ok(None);
    };
    match read_text(alloc, text)? {
        Some(text) => Ok(Some((unit, text))),
        None => Ok(None),
    }
}

/// Reads what a line says of a unit's state.
fn read_unit_state(alloc: Global, state: State, bytes: &[u8]) -> Result<Option<Line>, AllocError>
    ensures { IfOk result (λ line. line ≡ state_said state bytes.now) }
{
    match UnitName::of_bytes(alloc, bytes)? {
        Some(unit) => Ok(Some(Line::State(UnitState { unit, state }))),
        None => Ok(None),
    }
}

/// Reads what a line says of a unit that fails.
fn read_bad(alloc: Global, bytes: &[u8]) -> Result<Option<Line>, AllocError>
    ensures { IfOk result (λ line. line ≡ bad_said bytes.now) }
{
    match read_unit_and_text(alloc, bytes)? {
        Some((unit, loaded)) => Ok(Some(Line::Bad(Bad { loaded, unit }))),
        None => Ok(None),
    }
}

/// Reads what a line says of an act.
fn read_entry(alloc: Global, act: Act, bytes: &[u8]) -> Result<Option<Line>, AllocError>
    ensures { IfOk result (λ line. line ≡ entry_said act bytes.now) }
{
    match read_unit_and_text(alloc, bytes)? {
        Some((unit, loaded)) => Ok(Some(Line::Entry(Entry { unit, act, loaded }))),
        None => Ok(None),
    }
}

/// Reads where the definitions lie that are loaded.
fn read_loaded(alloc: Global, bytes: &[u8]) -> Result<Option<Line>, AllocError>
    ensures { IfOk result (λ line. line ≡ said Word.Loaded bytes.now) }
{
    match read_text(alloc, bytes)? {
        Some(text) => Ok(Some(Line::Loaded(text))),
        None => Ok(None),
    }
}

/// Reads what follows a word.
fn read_said(alloc: Global, word: Word, bytes: &[u8]) -> Result<Option<Line>, AllocError>
    ensures { IfOk result (λ line. line ≡ said word bytes.now) }
{
    match word {
        Word::Loaded => read_loaded(alloc, bytes),
        Word::Active => read_unit_state(alloc, State::Active, bytes),
        Word::Failed => read_unit_state(alloc, State::Failed, bytes),
        Word::Bad => read_bad(alloc, bytes),
        Word::Stop => read_entry(alloc, Act::Stop, bytes),
        Word::Reload => read_entry(alloc, Act::Reload, bytes),
        Word::Restart => read_entry(alloc, Act::Restart, bytes),
        Word::Start => read_entry(alloc, Act::Start, bytes),
    }
}

/// Reads what a line says, where it is one.
pub fn read_line(alloc: Global, line: &[u8]) -> Result<Option<Line>, AllocError>
    ensures { IfOk result (λ read. read ≡ line_of line.now) }
{
    let Some((word, rest)) = parted(line, b' ') else {
        return Ok(None);
    };
    match word_of(word) {
        Some(word) => read_said(alloc, word, rest),
        None => Ok(None),
    }
}
