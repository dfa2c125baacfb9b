//! Places below `/etc`.
ghost use Rattle.std.specs.Prelude.{◌≡◌, IfOk};
ghost use Rattle.std.specs.Option.{option_copied};
ghost use Rattle.switch_names.specs.SystemName.{IsSystemPath};
ghost use Rattle.switch_names.specs.Texts.{after_front};
ghost use Rattle.etc_manifest.specs.Place.{etc_folder, first_name, is_reserved};

use std::alloc::{AllocError, Global};
use switch_names::{Path, SystemName};

/// What stands before the first slash of a name.
fn first_name(name: &str) -> &str
    ensures { result.now ≡ first_name name.now }
{
    match name.split_once('/') {
        Some((first, _rest)) => first,
        None => name,
    }
}

/// Whether a name is one that a switch keeps for itself.
#[tactic(auto, unfolding(crate::specs::Place::reserved_names))]
fn is_reserved_name(name: &str) -> bool
    ensures { result ≡ is_reserved name.now }
{
    matches!(
        first_name(name),
        "static" | ".clean" | "passwd" | "group" | "shadow" | "subuid" | "subgid"
    )
}

/// Whether no entry may stand at a place below `/etc`: its first name is that of the farm of links,
/// of the list of copies, or of an account table.
pub fn is_reserved(place: &Path) -> bool
    ensures { result ≡ is_reserved place.now }
{
    is_reserved_name(place.as_str())
}

/// Where a system keeps what it wants below `/etc`.
#[tactic(auto, unfolding(crate::specs::Place::etc_folder))]
pub fn etc_folder(alloc: Global, system: &SystemName) -> Result<Path, AllocError>
    ensures folder { IfOk result (λ folder. folder ≡ etc_folder system.now) }
    ensures named { IsSystemPath system.now }
{
    system.place(alloc, "etc")
}

/// What a text has after a front.
pub fn after_front<'a>(text: &'a str, front: &str) -> Option<&'a str>
    ensures { option_copied result ≡ after_front front.now text.now }
{
    text.strip_prefix(front)
}
