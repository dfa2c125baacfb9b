//! What a joined line says.
ghost use Rattle.std.specs.Prelude.{◌≡◌, ◌&&◌, true, false, MatchOption};
ghost use Rattle.std.specs.Option.{option_copied};
ghost use Rattle.std.specs.List.{list_any, prefix_len, suffix_len};
ghost use Rattle.unit_text.specs.Statement.{is_trimmed, trimmed_start, trimmed_end, trimmed, begins_section, ends_section, between_ends, is_bracket, section_name, is_assignment, key_part, value_part, capped};

/// Whether a byte is a space, a tab or a carriage return.
fn is_trimmed(byte: u8) -> bool
    ensures { result ≡ is_trimmed byte }
{
    byte == b' ' || byte == b'\t' || byte == b'\r'
}

fn trimmed_at_start(text: &[u8]) -> usize
    ensures { result ≡ prefix_len is_trimmed text.now }
{
    text.iter().take_while(|byte| is_trimmed(**byte)).count()
}

fn trimmed_at_end(text: &[u8]) -> usize
    ensures { result ≡ suffix_len is_trimmed text.now }
{
    text.iter()
        .rev()
        .take_while(|byte| is_trimmed(**byte))
        .count()
}

fn trimmed_start(text: &str) -> &str
    ensures { result.now ≡ trimmed_start text.now }
{
    &text[trimmed_at_start(text.as_bytes())..]
}

fn trimmed_end(text: &str) -> &str
    ensures { result.now ≡ trimmed_end text.now }
{
    &text[..text.len() - trimmed_at_end(text.as_bytes())]
}

/// A text without spaces, tabs and carriage returns at both ends.
pub fn trimmed(text: &str) -> &str
    ensures { result.now ≡ trimmed text.now }
{
    trimmed_end(trimmed_start(text))
}

/// Whether a line is to be a section.
pub fn begins_section(text: &str) -> bool
    ensures { result ≡ begins_section text.now }
{
    text.starts_with('[')
}

fn has_bracket(name: &[u8]) -> bool
    ensures { result ≡ list_any is_bracket name.now }
{
    name.contains(&b'[') || name.contains(&b']')
}

/// What stands between a bracket at either end.
fn between_brackets(text: &str) -> Option<&str>
    ensures { MatchOption result ((begins_section text.now && ends_section text.now) ≡ false) (λ name. ((begins_section text.now && ends_section text.now) ≡ true) × (name.now ≡ between_ends text.now)) }
{
    match text.strip_prefix('[') {
        None => None,
        Some(rest) => rest.strip_suffix(']'),
    }
}

/// The name of a section.
pub fn section_name(text: &str) -> Option<&str>
    ensures { option_copied result ≡ section_name text.now }
{
    match between_brackets(text) {
        Some(name) if !name.is_empty() && !has_bracket(name.as_bytes()) => Some(name),
        _ => None,
    }
}

/// The key and the value of an assignment.
pub fn key_and_value(text: &str) -> Option<(&str, &str)>
    requires { begins_section text.now ≡ false }
    ensures { MatchOption result (is_assignment text.now ≡ false) (λ parts. (is_assignment text.now ≡ true) × (parts.0.now ≡ key_part text.now) × (parts.1.now ≡ value_part text.now)) }
{
    match text.split_once('=') {
        None => None,
        Some((key, value)) => {
            let key = trimmed(key);
            if key.is_empty() {
                None
            } else {
                Some((key, trimmed(value)))
            }
        }
    }
}

/// The number of a line as a fault names it.
pub fn capped(number: u64) -> u32
    ensures { result ≡ capped number }
{
    u32::try_from(number).unwrap_or(u32::MAX)
}
