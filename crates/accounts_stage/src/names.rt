//! Lists of names of accounts.
ghost use Rattle.std.specs.Prelude.{◌≡◌, ◌++◌, ◌∷◌, [], Some, None, IfOk, OnOk, filter, if◌then◌else◌};
ghost use Rattle.std.specs.List.{slice_split};
ghost use Rattle.accounts_stage.specs.Files.{names_text};
ghost use Rattle.accounts_stage.specs.Standing.{is_between, is_name_text, names_in};

use std::alloc::{AllocError, Global};
use switch_names::{Bytes, Listed, Text};
use users_merge::ordered_names;
use users_spec::is_account_name;

/// Whether a byte is a blank, a tab or a line feed.
fn is_between(byte: u8) -> bool
    ensures { result ≡ is_between byte }
{
    byte == b' ' || byte == b'\t' || byte == b'\n'
}

/// The name that a text is.
#[tactic(auto, unfolding(crate::specs::Standing::is_name_text))]
fn read_name(alloc: Global, text: &[u8]) -> Result<Option<Text>, AllocError>
    ensures { IfOk result (λ name. name ≡ (if is_name_text text.now then Some text.now else None)) }
{
    let Ok(text) = std::str::from_utf8(text) else {
        return Ok(None);
    };
    if !is_account_name(text) {
        return Ok(None);
    }
    Ok(Some(Text::from_str(alloc, text)?))
}

/// Adds the name that a text is, if it is one.
fn add_name(alloc: Global, names: &mut Listed<Text>, text: &[u8]) -> Result<(), AllocError>
    ensures { OnOk result (names.new ≡ names.old ++ filter is_name_text (text.now ∷ [])) }
{
    match read_name(alloc, text)? {
        Some(name) => names.push(name),
        None => Ok(()),
    }
}

/// The names in a text, in their order.
fn all_names(alloc: Global, bytes: &[u8]) -> Result<Listed<Text>, AllocError>
    ensures { IfOk result (λ names. names ≡ filter is_name_text (slice_split is_between bytes.now)) }
{
    let mut names = Listed::new(alloc);
    for text in bytes.split(|byte| is_between(*byte)) {
        add_name(alloc, &mut names, text)?;
    }
    Ok(names)
}

/// The names in a text, in byte order and each once. What is no name is passed over.
///
/// Source: nixpkgs, update-users-groups.pl.
pub fn names_in(alloc: Global, bytes: &Bytes) -> Result<Listed<Text>, AllocError>
    ensures { IfOk result (λ names. names ≡ names_in bytes.now) }
{
    let names = all_names(alloc, bytes.as_slice())?;
    ordered_names(alloc, names.as_slice())
}

/// Writes a name, and ends the line.
fn write_name(text: &mut Vec<u8>, name: &Text) -> Result<(), AllocError>
    ensures { OnOk result (text.new.items ≡ text.old.items ++ name.now ++ 10 ∷ []) }
{
    text.extend_from_slice(name.as_str().as_bytes())?;
    text.push(b'\n')?;
    Ok(())
}

/// Writes names, one a line.
pub fn write_names(alloc: Global, names: &[Text]) -> Result<Bytes, AllocError>
    ensures { IfOk result (λ text. text ≡ names_text names.now) }
{
    let mut text = Vec::new(alloc);
    for name in names {
        write_name(&mut text, name)?;
    }
    Ok(Bytes::from_vec(text))
}
