//! The fields of a leaf's text, each read with the byte that ends it.
//!
//! A field that can't be read answers how many bytes are left from the first one that can't go on.
ghost use Rattle.std.specs.Prelude.{◌≡◌, ◌≤◌, length, position, IfOk};
ghost use Rattle.switch_names.specs.Path.{is_no_path_byte};
ghost use Rattle.node_text.specs.Node.{blank, line_feed};
ghost use Rattle.node_text.specs.Fields.{Gives, octal_at, byte_at, digits_at, number_at, mode_at, target_at, target_len, is_digit, is_longer};

/// The most bytes of a link's target.
const TARGET_MAX: usize = 4096;

/// One octal digit.
fn octal_at(bytes: &[u8]) -> Result<(u16, &[u8]), usize>
    ensures read { Gives (λ x. (x.0, x.1.now)) result (octal_at bytes.now) }
    ensures low { IfOk result (λ x. x.0 ≤ 7) }
{
    match bytes {
        [digit, rest @ ..] if b'0' <= *digit && *digit <= b'7' => {
            Ok((u16::from(*digit - b'0'), rest))
        }
        _ => Err(bytes.len()),
    }
}

/// This byte.
fn byte_at(bytes: &[u8], byte: u8) -> Result<&[u8], usize>
    ensures { Gives (λ rest. rest.now) result (byte_at byte bytes.now) }
{
    match bytes {
        [first, rest @ ..] if *first == byte => Ok(rest),
        _ => Err(bytes.len()),
    }
}

/// Whether a number with one more digit has no leading zero and stays in its type.
fn is_longer(number: u32, byte: u8) -> bool
    ensures { result ≡ is_longer number byte }
{
    byte.is_ascii_digit()
        && number > 0
        && 10 * u64::from(number) + u64::from(byte - b'0') <= u64::from(u32::MAX)
}

/// The digits that follow a number, up to the byte that ends it.
fn digits_at(bytes: &[u8], start: u32, end: u8) -> Result<(u32, &[u8]), usize>
    ensures { Gives (λ x. (x.0, x.1.now)) result (digits_at end start bytes.now) }
{
    let mut number = start;
    let mut rest = bytes;
    while let [byte, after @ ..] = rest {
        if *byte == end {
            return Ok((number, after));
        }
        if !is_longer(number, *byte) {
            return Err(rest.len());
        }
        number = 10 * number + u32::from(*byte - b'0');
        rest = after;
    }
    Err(rest.len())
}

/// A number, up to the byte that ends it.
pub fn number_at(bytes: &[u8], end: u8) -> Result<(u32, &[u8]), usize>
    ensures { Gives (λ x. (x.0, x.1.now)) result (number_at end bytes.now) }
{
    match bytes {
        [digit @ b'0'..=b'9', rest @ ..] => digits_at(rest, u32::from(*digit - b'0'), end),
        _ => Err(bytes.len()),
    }
}

/// A mode in four octal digits, and the blank after it.
#[tactic(auto, unfolding(crate::specs::Fields::mode_at))]
pub fn mode_at(bytes: &[u8]) -> Result<(u16, &[u8]), usize>
    ensures read { Gives (λ x. (x.0, x.1.now)) result (mode_at bytes.now) }
    ensures low { IfOk result (λ x. x.0 ≤ 4095) }
{
    let (first, rest) = octal_at(bytes)?;
    let (second, rest) = octal_at(rest)?;
    let (third, rest) = octal_at(rest)?;
    let (fourth, rest) = octal_at(rest)?;
    let rest = byte_at(rest, b' ')?;
    Ok((512 * first + 64 * second + 8 * third + fourth, rest))
}

/// The place of the first byte that stands in no link's target.
fn first_no_target_byte(bytes: &[u8]) -> Option<usize>
    ensures { result ≡ position is_no_path_byte bytes.now }
{
    bytes.iter().position(|byte| *byte == 0 || *byte == b'\n')
}

/// How many bytes of a target stand at the front.
fn target_len(bytes: &[u8]) -> usize
    ensures len { result ≡ target_len bytes.now }
    ensures within { result ≤ length bytes.now }
{
    first_no_target_byte(bytes).unwrap_or(bytes.len())
}

/// A target, and the line feed that ends it.
#[tactic(auto, unfolding(crate::specs::Fields::target_at))]
pub fn target_at(bytes: &[u8]) -> Result<(&[u8], &[u8]), usize>
    ensures { Gives (λ x. (x.0.now, x.1.now)) result (target_at bytes.now) }
{
    let len = target_len(bytes);
    if len > TARGET_MAX {
        return Err(bytes.len() - TARGET_MAX);
    }
    if len == 0 {
        return Err(bytes.len());
    }
    match bytes.get(len) {
        Some(b'\n') => Ok((&bytes[..len], &bytes[len + 1..])),
        _ => Err(bytes.len() - len),
    }
}
