//! The modes of entries.
ghost use Rattle.std.specs.Prelude.{◌≡◌, ◌≤◌, ℕ, true, Some};
ghost use Rattle.std.specs.List.{list_all};
ghost use Rattle.std.specs.Str.Parse.{digits_value};
ghost use Rattle.etc_manifest.specs.declared.mode.Mode.TheVariants.{Bits};
ghost use Rattle.etc_manifest.specs.Kind.{is_octal, is_octal_digit, mode_of};

/// The mode of an entry that is no link into the farm.
#[derive(Clone, Copy, Debug, PartialEq, Eq)]
pub enum Mode {
    /// It is a link that leads where the entry leads.
    DirectSymlink,
    /// It is a file with these bits of permission.
    Bits(u16),
}

/// Whether a text has nothing but octal digits.
fn has_octal_digits(text: &[u8]) -> bool
    ensures { result ≡ list_all is_octal_digit text.now }
{
    text.iter().all(|byte| matches!(byte, b'0'..=b'7'))
}

/// Whether a text is 1 to 4 octal digits.
fn is_octal(text: &[u8]) -> bool
    ensures { result ≡ is_octal text.now }
{
    has_octal_digits(text) && !text.is_empty() && text.len() <= 4
}

/// The number that octal digits write.
fn octal_value(digits: &[u8]) -> u16
    requires { is_octal digits.now ≡ true }
    ensures value { result ≡ digits_value 8 digits.now }
    ensures bits { result ≤ 4095 }
{
    let mut value: u16 = 0;
    for digit in digits {
        value = value * 8 + u16::from(*digit - b'0');
    }
    value
}

/// The mode that a text says: `direct-symlink`, or 1 to 4 octal digits.
pub fn read_mode(text: &[u8]) -> Option<Mode>
    ensures mode { result ≡ mode_of text.now }
    ensures bits { (mode : ℕ) → result ≡ Some (Bits mode) → mode ≤ 4095 }
{
    if text == "direct-symlink".as_bytes() {
        Some(Mode::DirectSymlink)
    } else if is_octal(text) {
        Some(Mode::Bits(octal_value(text)))
    } else {
        None
    }
}
