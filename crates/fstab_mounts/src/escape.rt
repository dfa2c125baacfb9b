//! Names of units that stand for paths.
ghost use Rattle.std.specs.Prelude.{◌≡◌, ◌++◌, ◌<◌, None, IfOk, OnOk, string_bytes};
ghost use Rattle.std.specs.Char.{digit_char};
ghost use Rattle.switch_names.specs.NameFault.{IsRefusedBy};
ghost use Rattle.fstab_mounts.specs.Escape.{escaped, escaped_byte, escaped_first, escaped_path, in_digits, is_plain, long_fault, mount_name, path_unit, short_name, swap_name, with_name};

use std::alloc::{AllocError, Global};
use switch_names::{NameFault, UnitKind, UnitName};

/// Whether a byte stands in a unit's name for itself.
fn is_plain(byte: u8) -> bool
    ensures { result ≡ is_plain byte }
{
    byte.is_ascii_alphanumeric() || matches!(byte, b':' | b'_' | b'.')
}

/// A hexadecimal digit in lower case.
fn hex_digit(digit: u8) -> char
    requires { digit < 16 }
    ensures digit { result ≡ digit_char digit }
    ensures ascii { result < 128 }
{
    if digit < 10 {
        (b'0' + digit) as char
    } else {
        (b'a' + (digit - 10)) as char
    }
}

/// Adds a byte in hexadecimal digits.
fn add_digits(text: &mut String, byte: u8) -> Result<(), AllocError>
    ensures { OnOk result (string_bytes text.new ≡ string_bytes text.old ++ in_digits byte) }
{
    text.push_str("\\x")?;
    text.push(hex_digit(byte / 16))?;
    text.push(hex_digit(byte % 16))?;
    Ok(())
}

/// Adds a byte as it stands in a unit's name.
fn add_byte(text: &mut String, byte: u8) -> Result<(), AllocError>
    ensures { OnOk result (string_bytes text.new ≡ string_bytes text.old ++ escaped_byte byte) }
{
    if is_plain(byte) {
        text.push(byte as char)?;
        Ok(())
    } else {
        add_digits(text, byte)
    }
}

/// Adds bytes as they stand in a unit's name.
fn add_bytes(text: &mut String, bytes: &[u8]) -> Result<(), AllocError>
    ensures { OnOk result (string_bytes text.new ≡ string_bytes text.old ++ escaped bytes.now) }
{
    for byte in bytes {
        add_byte(text, *byte)?;
    }
    Ok(())
}

/// Adds the first name of a path, in which a dot at the beginning doesn't stand for itself.
fn add_first(text: &mut String, name: &[u8]) -> Result<(), AllocError>
    ensures { OnOk result (string_bytes text.new ≡ string_bytes text.old ++ escaped_first name.now) }
{
    match name {
        [b'.', rest @ ..] => {
            add_digits(text, b'.')?;
            add_bytes(text, rest)
        }
        _ => add_bytes(text, name),
    }
}

/// Adds a name of a path, unless it is empty.
fn add_name(text: &mut String, name: &str) -> Result<(), AllocError>
    ensures { OnOk result (string_bytes text.new ≡ with_name (string_bytes text.old) name.now) }
{
    if name.is_empty() {
        return Ok(());
    }
    if text.is_empty() {
        return add_first(text, name.as_bytes());
    }
    text.push('-')?;
    add_bytes(text, name.as_bytes())
}

/// A path as it stands in a unit's name.
fn escaped_path(alloc: Global, path: &str) -> Result<String, AllocError>
    ensures { IfOk result (λ text. string_bytes text ≡ escaped_path path.now) }
{
    let mut text = String::new(alloc);
    for name in path.split('/') {
        add_name(&mut text, name)?;
    }
    if !text.is_empty() {
        return Ok(text);
    }
    text.push('-')?;
    Ok(text)
}

/// The name of the unit of a kind that stands for a path, of any length.
fn unit_text(alloc: Global, path: &str, kind: UnitKind) -> Result<String, AllocError>
    ensures { IfOk result (λ text. string_bytes text ≡ path_unit kind path.now) }
{
    let mut text = escaped_path(alloc, path)?;
    text.push_str(kind.ending())?;
    Ok(text)
}

/// The unit of a kind that stands for a path, if its name isn't too long.
pub fn short_unit(alloc: Global, path: &str, kind: UnitKind) -> Result<Option<UnitName>, AllocError>
    ensures { IfOk result (λ unit. unit ≡ short_name (path_unit kind path.now)) }
{
    let text = unit_text(alloc, path, kind)?;
    UnitName::of_text(alloc, text.as_str())
}

/// The unit that mounts a file system at a path: systemd.mount(5), and systemd.unit(5), "String
/// Escaping for Inclusion in Unit Names".
///
/// The faults are `Long` (the name has more than 255 bytes) and `Memory`.
pub fn mount_unit(alloc: Global, path: &str) -> Result<UnitName, NameFault>
    ensures ok { IfOk result (λ unit. unit ≡ mount_name path.now) }
    ensures short { OnOk result (long_fault (mount_name path.now) ≡ None) }
    ensures fault { IsRefusedBy result (long_fault (mount_name path.now)) }
{
    short_unit(alloc, path, UnitKind::Mount)?.ok_or(NameFault::Long)
}

/// The unit that turns a swap on, by the path of its device or file: systemd.swap(5), and
/// systemd.unit(5), "String Escaping for Inclusion in Unit Names".
///
/// The faults are `Long` (the name has more than 255 bytes) and `Memory`.
pub fn swap_unit(alloc: Global, path: &str) -> Result<UnitName, NameFault>
    ensures ok { IfOk result (λ unit. unit ≡ swap_name path.now) }
    ensures short { OnOk result (long_fault (swap_name path.now) ≡ None) }
    ensures fault { IsRefusedBy result (long_fault (swap_name path.now)) }
{
    short_unit(alloc, path, UnitKind::Swap)?.ok_or(NameFault::Long)
}
