//! The text of an entry of the boot menu, and its place.
ghost use Rattle.std.specs.Prelude.{◌≡◌, ◌==◌, ◌++◌, ◌∷◌, [], codes, position, IfOk, OnOk};
ghost use Rattle.std.specs.Fmt.{decimal};
ghost use Rattle.boot_entries.specs.Entries.{entry_text, first_line, loader_text, more_params, params_path, version_path};
ghost use Rattle.boot_entries.specs.Places.{entries_folder, entry_path, loader_path};

use host_trait::fixed_path;
use std::alloc::{AllocError, Global};
use switch_names::{Bytes, Path, SystemName, Text};

/// The folder of the entries.
#[tactic(auto, unfolding(crate::specs::Places::entries_folder))]
pub fn folder_path(alloc: Global) -> Result<Path, AllocError>
    ensures { IfOk result (λ path. path ≡ entries_folder) }
{
    fixed_path(alloc, "boot/loader/entries")
}

/// The path of what the boot loader reads first.
#[tactic(auto, unfolding(crate::specs::Places::loader_path))]
pub fn loader_path(alloc: Global) -> Result<Path, AllocError>
    ensures { IfOk result (λ path. path ≡ loader_path) }
{
    fixed_path(alloc, "boot/loader/loader.conf")
}

/// The path of a generation's entry.
#[tactic(auto, unfolding(crate::specs::Places::entry_path))]
pub fn entry_path(alloc: Global, number: u32) -> Result<Path, AllocError>
    ensures { IfOk result (λ path. path ≡ entry_path number) }
{
    let text = format!(in alloc; "boot/loader/entries/nixos-generation-{number}.conf")?;
    match Path::parse(alloc, text.as_str()) {
        Ok(path) => Ok(path),
        Err(_) => Err(AllocError),
    }
}

/// Where a system keeps its version.
#[tactic(auto, unfolding(crate::specs::Entries::version_path))]
pub fn version_path(alloc: Global, system: &SystemName) -> Result<Path, AllocError>
    ensures { IfOk result (λ path. path ≡ version_path system.now) }
{
    system.place(alloc, "nixos-version")
}

/// Where a system keeps the parameters of its kernel.
#[tactic(auto, unfolding(crate::specs::Entries::params_path))]
pub fn params_path(alloc: Global, system: &SystemName) -> Result<Path, AllocError>
    ensures { IfOk result (λ path. path ≡ params_path system.now) }
{
    system.place(alloc, "kernel-params")
}

/// Whether a byte is a line feed.
fn is_line_feed(byte: u8) -> bool
    ensures { result ≡ (byte == 10) }
{
    byte == b'\n'
}

/// The place of the first line feed.
fn line_end(text: &[u8]) -> Option<usize>
    ensures { result ≡ position (λ byte. byte == 10) text.now }
{
    text.iter().position(|byte| is_line_feed(*byte))
}

/// A text up to its first line feed.
pub fn first_line(text: &[u8]) -> &[u8]
    ensures { result.now ≡ first_line text.now }
{
    match line_end(text) {
        Some(at) => &text[..at],
        None => text,
    }
}

/// Adds parameters, after a blank where there are some.
fn add_params(text: &mut Vec<u8>, params: &[u8]) -> Result<(), AllocError>
    ensures { OnOk result (text.new.items ≡ text.old.items ++ more_params params.now) }
{
    if params.is_empty() {
        return Ok(());
    }
    text.push(b' ')?;
    text.extend_from_slice(params)
}

/// The title of an entry and the number in its version.
fn entry_head(alloc: Global, number: u32) -> Result<Text, AllocError>
    ensures { IfOk result (λ head. head ≡ codes "title NixOS" ++ 10 ∷ (codes "version Generation " ++ (decimal number ++ 32 ∷ []))) }
{
    let head = format!(in alloc; "title NixOS\nversion Generation {number} ")?;
    Ok(Text::from_string(head))
}

/// What an entry says of a system, from the end of its version to its parameters.
fn entry_middle(alloc: Global, system: &SystemName) -> Result<Text, AllocError>
    ensures { IfOk result (λ middle. middle ≡ 10 ∷ (codes "linux /" ++ (system.now ++ (codes "/kernel" ++ 10 ∷ (codes "initrd /" ++ (system.now ++ (codes "/initrd" ++ 10 ∷ (codes "options init=/" ++ (system.now ++ codes "/init"))))))))) }
{
    let system = system.as_str();
    let middle = format!(in alloc;
        "\nlinux /{system}/kernel\ninitrd /{system}/initrd\noptions init=/{system}/init"
    )?;
    Ok(Text::from_string(middle))
}

/// The text of an entry, of its parts.
fn join_entry(
    alloc: Global,
    head: &Text,
    version: &[u8],
    middle: &Text,
    params: &[u8],
) -> Result<Bytes, AllocError>
    ensures { IfOk result (λ text. text ≡ head.now ++ (version.now ++ (middle.now ++ (more_params params.now ++ 10 ∷ [])))) }
{
    let mut text = Vec::from_slice(alloc, head.as_str().as_bytes())?;
    text.extend_from_slice(version)?;
    text.extend_from_slice(middle.as_str().as_bytes())?;
    add_params(&mut text, params)?;
    text.push(b'\n')?;
    Ok(Bytes::from_vec(text))
}

/// The text of the entry of a generation, given the first lines of the version and the kernel's
/// parameters of its system.
///
/// Source: Boot Loader Specification, "Type #1 Boot Loader Specification Entries".
pub fn entry_text(
    alloc: Global,
    number: u32,
    system: &SystemName,
    version: &[u8],
    params: &[u8],
) -> Result<Bytes, AllocError>
    ensures { IfOk result (λ text. text ≡ entry_text number system.now version.now params.now) }
{
    let head = entry_head(alloc, number)?;
    let middle = entry_middle(alloc, system)?;
    let text = join_entry(alloc, &head, version, &middle, params)?;
    Ok(text)
}

/// The line that names the entry that is booted.
fn loader_line(alloc: Global, number: u32) -> Result<Text, AllocError>
    ensures { IfOk result (λ line. line ≡ codes "default nixos-generation-" ++ (decimal number ++ (codes ".conf" ++ 10 ∷ []))) }
{
    let line = format!(in alloc; "default nixos-generation-{number}.conf\n")?;
    Ok(Text::from_string(line))
}

/// The text that names the entry that is booted.
///
/// Source: loader.conf(5), "default".
pub fn loader_text(alloc: Global, number: u32) -> Result<Bytes, AllocError>
    ensures { IfOk result (λ text. text ≡ loader_text number) }
{
    let line = loader_line(alloc, number)?;
    let text = Bytes::from_slice(alloc, line.as_str().as_bytes())?;
    Ok(text)
}
