//! Lines, and the names in them.
ghost use Rattle.std.specs.Prelude.{◌≡◌, ◌≢◌, ◌++◌, ◌∷◌, ◌↔◌, ℕ, List, IsTrue, IfOk, MatchOption, None, ◌==◌, position};
ghost use Rattle.std.specs.List.Sorted.{IsStrictlySortedBy};
ghost use Rattle.std.specs.declared.cmp.Ordering.TheVariants.{Less};
ghost use Rattle.host_trait.specs.Bytes.{bytes_cmp};
ghost use Rattle.log_text.specs.Log.{AreFirstNames, IsLine};

use std::alloc::{AllocError, Global};
use std::cmp::Ordering;
use switch_names::{Listed, UnitName};

/// The place of the first line feed.
fn line_end(text: &[u8]) -> Option<usize>
    ensures { result ≡ position (λ byte. byte == 10) text.now }
{
    text.iter().position(|byte| *byte == b'\n')
}

/// The first line of a text, and what follows its line feed.
pub(crate) fn first_line(text: &[u8]) -> Option<(&[u8], &[u8])>
    ensures { MatchOption result (IsLine text.now) (λ parts. IsLine parts.0.now × (text.now ≡ parts.0.now ++ 10 ∷ parts.1.now)) }
{
    match line_end(text) {
        Some(at) => Some((&text[..at], &text[at + 1..])),
        None => None,
    }
}

/// The unit names with which a text begins, a line each, and what follows them.
pub(crate) fn first_names<'a>(
    alloc: Global,
    text: &'a [u8],
) -> Result<(Listed<UnitName>, &'a [u8]), AllocError>
    ensures { IfOk result (λ read. AreFirstNames text.now read.0 read.1.now) }
{
    let mut names = Listed::new(alloc);
    let mut rest = text;
    for _ in 0..u64::MAX {
        let Some((line, after)) = first_line(rest) else {
            return Ok((names, rest));
        };
        let Some(name) = UnitName::of_bytes(alloc, line)? else {
            return Ok((names, rest));
        };
        names.push(name)?;
        rest = after;
    }
    Err(AllocError)
}

/// Whether a name stands before another.
fn is_less(one: &UnitName, other: &UnitName) -> bool
    ensures { IsTrue result ↔ (bytes_cmp one.now other.now ≡ Less) }
{
    matches!(one.cmp(other), Ordering::Less)
}

/// Whether each name is greater than the one before it.
pub(crate) fn is_ascending(names: &[UnitName]) -> bool
    ensures { IsTrue result ↔ IsStrictlySortedBy bytes_cmp names.now }
{
    for at in 1..names.len() {
        if !is_less(&names[at - 1], &names[at]) {
            return false;
        }
    }
    true
}
