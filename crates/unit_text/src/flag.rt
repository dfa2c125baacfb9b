//! Flags.
ghost use Rattle.std.specs.Prelude.{◌≡◌};
ghost use Rattle.unit_text.specs.UnitText.{is_word, says_true, says_false, truth};

/// Whether a text is this word, whatever the case of its letters.
fn is_word(word: &str, text: &str) -> bool
    ensures { result ≡ is_word word.now text.now }
{
    text.eq_ignore_ascii_case(word)
}

fn says_true(text: &str) -> bool
    ensures { result ≡ says_true text.now }
{
    is_word("1", text) || is_word("yes", text) || is_word("true", text) || is_word("on", text)
}

fn says_false(text: &str) -> bool
    ensures { result ≡ says_false text.now }
{
    is_word("0", text) || is_word("no", text) || is_word("false", text) || is_word("off", text)
}

/// What a value says as a flag.
pub fn truth(text: &str) -> Option<bool>
    ensures { result ≡ truth text.now }
{
    if says_true(text) {
        Some(true)
    } else if says_false(text) {
        Some(false)
    } else {
        None
    }
}
