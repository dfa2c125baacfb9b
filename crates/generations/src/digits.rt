//! The numbers whose digits stand in texts.
ghost use Rattle.std.specs.Prelude.{◌≡◌, ◌≢◌, ◌++◌, ℕ, List, IfOk, MatchOption};
ghost use Rattle.std.specs.Fmt.{decimal};
ghost use Rattle.std.specs.Str.{bytes_eq};
ghost use Rattle.generations.specs.Digits.{BearsNumber};

use std::alloc::{AllocError, Global};

/// What follows the front of a text.
pub fn after<'a>(text: &'a str, front: &str) -> Option<&'a str>
    ensures { MatchOption result
        ((rest : List ℕ) → text.now ≢ front.now ++ rest)
        (λ rest. text.now ≡ front.now ++ rest.now) }
{
    text.strip_prefix(front)
}

/// What stands between the front and the end of a text.
fn between<'a>(text: &'a str, front: &str, end: &str) -> Option<&'a str>
    ensures { MatchOption result
        ((middle : List ℕ) → text.now ≢ front.now ++ (middle ++ end.now))
        (λ middle. text.now ≡ front.now ++ (middle.now ++ end.now)) }
{
    after(text, front)?.strip_suffix(end)
}

/// Whether a text is the digits of a number.
fn is_written(alloc: Global, number: u32, text: &str) -> Result<bool, AllocError>
    ensures { IfOk result (λ is. is ≡ bytes_eq (decimal number) text.now) }
{
    let digits = format!(in alloc; "{number}")?;
    Ok(digits.as_str() == text)
}

/// The number of which a text is the digits.
fn number_of_digits(alloc: Global, text: &str) -> Result<Option<u32>, AllocError>
    ensures { IfOk result (BearsNumber decimal text.now) }
{
    let Ok(number) = text.parse::<u32>() else {
        return Ok(None);
    };
    let is_written = is_written(alloc, number, text)?;
    Ok(is_written.then_some(number))
}

/// The number whose digits stand between this front and this end of a text, without leading zeros.
pub fn number_between(
    alloc: Global,
    text: &str,
    front: &str,
    end: &str,
) -> Result<Option<u32>, AllocError>
    ensures { IfOk result (BearsNumber (λ n. front.now ++ (decimal n ++ end.now)) text.now) }
{
    match between(text, front, end) {
        Some(digits) => number_of_digits(alloc, digits),
        None => Ok(None),
    }
}
