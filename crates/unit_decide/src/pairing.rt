//! The sockets that a service is paired with.
ghost use Rattle.std.specs.Prelude.{◌≡◌, ◌++◌, ◌∷◌, [], codes, filter, IfOk, OnOk, Some, None, if◌then◌else◌};
ghost use Rattle.std.specs.List.{flat_map};
ghost use Rattle.unit_text.specs.Lines.{is_blank};
ghost use Rattle.unit_decide.specs.Sockets.{is_socket_name, sockets_of, words};

use crate::flags::is_not_socket_activated;
use crate::kinds::{is_service, is_socket};
use std::alloc::{AllocError, Global};
use switch_names::{Listed, Text, UnitName};
use unit_text::UnitText;

/// The sockets that a service is paired with: the unit names of kind socket among the words of
/// `Sockets`, in their order and with repeats; where that key has no value, the socket of the
/// service's own name.
///
/// A service with `X-NotSocketActivated` has none, nor has a unit of another kind. Whether the new
/// system defines a socket isn't looked at. Source: systemd.service(5), "Sockets=".
pub fn sockets(
    alloc: Global,
    new: &UnitText,
    unit: &UnitName,
) -> Result<Listed<UnitName>, AllocError>
    ensures { IfOk result (λ sockets. sockets ≡ sockets_of new.now unit.now) }
{
    if !is_service(unit.kind()) || is_not_socket_activated(new) {
        return Ok(Listed::new(alloc));
    }
    let values = new.values("Service", "Sockets");
    if values.is_empty() {
        own_socket(alloc, unit.stem())
    } else {
        named_sockets(alloc, values)
    }
}

/// The socket with a service's stem.
fn own_socket(alloc: Global, stem: &str) -> Result<Listed<UnitName>, AllocError>
    ensures { IfOk result (λ sockets. sockets ≡ filter is_socket_name ((stem.now ++ codes ".socket") ∷ [])) }
{
    let name = format!(in alloc; "{stem}.socket")?;
    let mut sockets = Listed::new(alloc);
    add_socket(alloc, &mut sockets, name.as_bytes())?;
    Ok(sockets)
}

/// The sockets among the words of some values.
fn named_sockets(alloc: Global, values: &[Text]) -> Result<Listed<UnitName>, AllocError>
    ensures { IfOk result (λ sockets. sockets ≡ filter is_socket_name (flat_map words values.now)) }
{
    let mut sockets = Listed::new(alloc);
    for value in values {
        add_sockets(alloc, &mut sockets, value.as_str())?;
    }
    Ok(sockets)
}

fn is_blank(byte: u8) -> bool
    ensures { result ≡ is_blank byte }
{
    byte == b' ' || byte == b'\t'
}

/// Adds the sockets among the words of a value.
fn add_sockets(alloc: Global, sockets: &mut Listed<UnitName>, value: &str) -> Result<(), AllocError>
    ensures { OnOk result (sockets.new ≡ sockets.old ++ filter is_socket_name (words value.now)) }
{
    for word in value.as_bytes().split(|byte| is_blank(*byte)) {
        add_socket(alloc, sockets, word)?;
    }
    Ok(())
}

/// Adds the socket that a word names, if it does.
fn add_socket(alloc: Global, sockets: &mut Listed<UnitName>, word: &[u8]) -> Result<(), AllocError>
    ensures { OnOk result (sockets.new ≡ sockets.old ++ filter is_socket_name (word.now ∷ [])) }
{
    match read_socket(alloc, word)? {
        Some(socket) => sockets.push(socket),
        None => Ok(()),
    }
}

/// The socket that a word names.
fn read_socket(alloc: Global, word: &[u8]) -> Result<Option<UnitName>, AllocError>
    ensures { IfOk result (λ socket. socket ≡ (if is_socket_name word.now then Some word.now else None)) }
{
    let Some(name) = UnitName::of_bytes(alloc, word)? else {
        return Ok(None);
    };
    if !is_socket(name.kind()) {
        return Ok(None);
    }
    Ok(Some(name))
}
