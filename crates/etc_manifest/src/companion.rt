//! The companions of entries.
ghost use Rattle.std.specs.Prelude.{◌≡◌, codes, IfOk};
ghost use Rattle.std.specs.List.Sorted.{IsStrictlySortedBy};
ghost use Rattle.std.specs.Option.{option_copied};
ghost use Rattle.switch_names.specs.Names.{has};
ghost use Rattle.host_trait.specs.Bytes.{bytes_cmp};
ghost use Rattle.switch_names.specs.Texts.{before_end};
ghost use Rattle.etc_manifest.specs.Companion.{has_mode, is_before, is_companion};

use crate::names::{has_name, with_ending};
use std::alloc::{AllocError, Global};
use switch_names::Path;

/// What a text has before an ending.
pub fn before_end<'a>(text: &'a str, ending: &str) -> Option<&'a str>
    ensures { option_copied result ≡ before_end ending.now text.now }
{
    text.strip_suffix(ending)
}

/// Whether leaves stand at a name and at its `.mode`.
pub fn has_mode(alloc: Global, names: &[Path], name: &str) -> Result<bool, AllocError>
    requires { IsStrictlySortedBy bytes_cmp names.now }
    ensures { IfOk result (λ answer. answer ≡ has_mode (has names.now) name.now) }
{
    if !has_name(names, name) {
        return Ok(false);
    }
    let mode = with_ending(alloc, name, ".mode")?;
    Ok(has_name(names, mode.as_str()))
}

/// Whether a name is the `.mode` of another.
fn is_mode(names: &[Path], name: &str) -> bool
    requires { IsStrictlySortedBy bytes_cmp names.now }
    ensures { result ≡ is_before (codes ".mode") (has names.now) name.now }
{
    match before_end(name, ".mode") {
        Some(entry) => has_name(names, entry),
        None => false,
    }
}

/// Whether a name is one that has a `.mode`, with an ending.
fn is_owner(alloc: Global, names: &[Path], name: &str, ending: &str) -> Result<bool, AllocError>
    requires { IsStrictlySortedBy bytes_cmp names.now }
    ensures { IfOk result (λ answer. answer ≡ is_before ending.now (has_mode (has names.now)) name.now) }
{
    match before_end(name, ending) {
        Some(entry) => has_mode(alloc, names, entry),
        None => Ok(false),
    }
}

/// Whether a name is a companion of another.
pub fn is_companion(alloc: Global, names: &[Path], name: &str) -> Result<bool, AllocError>
    requires { IsStrictlySortedBy bytes_cmp names.now }
    ensures { IfOk result (λ answer. answer ≡ is_companion (has names.now) name.now) }
{
    if is_mode(names, name) || is_owner(alloc, names, name, ".uid")? {
        return Ok(true);
    }
    is_owner(alloc, names, name, ".gid")
}
