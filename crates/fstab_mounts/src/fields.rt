//! The fields of a line of an fstab.
ghost use Rattle.std.specs.Prelude.{◌≡◌, ◌++◌, ◌∷◌, ◌<◌, ◌==◌, length, drop, map, true, false, nat_eq, IfOk, OnOk, MatchOption, string_bytes};
ghost use Rattle.std.specs.Cmp.Lexicographic.{pointwise};
ghost use Rattle.std.specs.List.{before_first, after_first, position_or_len, starts_with};
ghost use Rattle.fstab_mounts.specs.Fields.{fields_of, is_auto, is_backslash, parts_between, unescaped, unescaped_part};

use std::alloc::{AllocError, Global};

/// What stands between the separators in a text, which are of ASCII, where there is something.
fn parts_of(alloc: Global, text: &str, separator: char) -> Result<Vec<&str>, AllocError>
    requires { separator < 128 }
    ensures { IfOk result (λ parts. map (λ part. part.now) parts.items ≡ parts_between separator text.now) }
{
    text.split(separator)
        .filter(|part| !part.is_empty())
        .collect(alloc)
}

/// The fields of a line: what stands between spaces and tabs.
pub fn fields_of(alloc: Global, line: &str) -> Result<Vec<&str>, AllocError>
    ensures { IfOk result (λ fields. map (λ field. field.now) fields.items ≡ fields_of line.now) }
{
    let mut fields = Vec::new(alloc);
    let parts = parts_of(alloc, line, ' ')?;
    for part in parts.as_slice() {
        let more = parts_of(alloc, *part, '\t')?;
        fields.extend_from_slice(more.as_slice())?;
    }
    Ok(fields)
}

/// What follows a prefix.
fn after_prefix<'a>(text: &'a str, prefix: &str) -> Option<&'a str>
    ensures { MatchOption result
        (starts_with nat_eq text.now prefix.now ≡ false)
        (λ rest. (starts_with nat_eq text.now prefix.now ≡ true) × (rest.now ≡ drop (length prefix.now) text.now)) }
{
    text.strip_prefix(prefix)
}

/// The character that a backslash and what follows it begin with, and the rest.
fn read_escape(part: &str) -> (char, &str)
    ensures read { result.0 ∷ result.1.now ≡ unescaped_part part.now }
    ensures ascii { result.0 < 128 }
{
    if let Some(rest) = after_prefix(part, "040") {
        (' ', rest)
    } else if let Some(rest) = after_prefix(part, "011") {
        ('\t', rest)
    } else if let Some(rest) = after_prefix(part, "134") {
        ('\\', rest)
    } else {
        ('\\', part)
    }
}

/// Adds what a backslash and the text up to the next one stand for.
fn add_part(text: &mut String, part: &str) -> Result<(), AllocError>
    ensures { OnOk result (string_bytes text.new ≡ string_bytes text.old ++ unescaped_part part.now) }
{
    let (character, rest) = read_escape(part);
    text.push(character)?;
    text.push_str(rest)
}

/// What a text has before and after its first backslash.
fn split_at_backslash(text: &str) -> Option<(&str, &str)>
    ensures { MatchOption result
        (position_or_len is_backslash text.now ≡ length text.now)
        (λ parts. (position_or_len is_backslash text.now < length text.now)
        × (parts.0.now ≡ before_first is_backslash text.now)
        × (parts.1.now ≡ after_first is_backslash text.now)) }
{
    text.split_once('\\')
}

/// A field with its escapes read, in one pass.
pub fn unescaped(alloc: Global, field: &str) -> Result<String, AllocError>
    ensures { IfOk result (λ text. string_bytes text ≡ unescaped field.now) }
{
    let Some((before, after)) = split_at_backslash(field) else {
        return String::from_str(alloc, field);
    };
    let mut text = String::from_str(alloc, before)?;
    for part in after.split('\\') {
        add_part(&mut text, part)?;
    }
    Ok(text)
}

/// Whether a text is this word.
pub fn is_word(text: &str, word: &str) -> bool
    ensures { result ≡ pointwise nat_eq text.now word.now }
{
    text == word
}

/// Whether what a line gives is to be started with the system.
pub fn is_auto(options: &str) -> bool
    ensures { result ≡ is_auto options.now }
{
    !options.split(',').any(|option| is_word(option, "noauto"))
}
