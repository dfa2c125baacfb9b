//! Names and texts of accounts.
ghost use Rattle.std.specs.Prelude.{◌≡◌, take};
ghost use Rattle.std.specs.List.{list_any};
ghost use Rattle.users_spec.specs.AccountName.{is_no_name_byte, is_sign, is_account_name, is_no_field_byte, is_plain};

/// The most bytes of a name.
const NAME_MAX: usize = 255;

/// Whether a byte stands in no name.
fn is_no_name_byte(byte: u8) -> bool
    ensures { result ≡ is_no_name_byte byte }
{
    byte < 33 || byte == 127 || byte == b':' || byte == b','
}

fn has_no_name_byte(text: &[u8]) -> bool
    ensures { result ≡ list_any is_no_name_byte text.now }
{
    text.iter().any(|byte| is_no_name_byte(*byte))
}

fn begins_with_sign(text: &[u8]) -> bool
    ensures { result ≡ list_any is_sign (take 1 text.now) }
{
    matches!(text, [b'+' | b'-', ..])
}

/// Whether a text is the name of a user or a group.
///
/// It has 1 to 255 bytes, no blank or control byte, no `:` or `,`, and begins with neither `+` nor
/// `-`.
pub fn is_account_name(text: &str) -> bool
    ensures { result ≡ is_account_name text.now }
{
    !text.is_empty()
        && text.len() <= NAME_MAX
        && !has_no_name_byte(text.as_bytes())
        && !begins_with_sign(text.as_bytes())
}

/// Whether a byte stands in no field of a line.
fn is_no_field_byte(byte: u8) -> bool
    ensures { result ≡ is_no_field_byte byte }
{
    byte == b':' || byte == 0 || byte == b'\n'
}

fn has_no_field_byte(text: &[u8]) -> bool
    ensures { result ≡ list_any is_no_field_byte text.now }
{
    text.iter().any(|byte| is_no_field_byte(*byte))
}

/// Whether a text can be a field of a line.
pub fn is_plain(text: &str) -> bool
    ensures { result ≡ is_plain text.now }
{
    !has_no_field_byte(text.as_bytes())
}
