//! Where the definitions lie that a service manager loads.
ghost use Rattle.std.specs.Prelude.{◌≡◌, IfOk, Some};
ghost use Rattle.std.specs.Option.{option_copied};
ghost use Rattle.host_trait.specs.Change.{definitions_place, loaded_from};
ghost use Rattle.host_trait.specs.Manager.{IsPlain};

use crate::known_path::fixed_path;
use crate::leaf::{Leaf, LeafKind};
use std::alloc::{AllocError, Global};
use switch_names::{Path, Text};

/// The place of the link that leads to the definitions that a manager loads.
#[tactic(auto, unfolding(crate::specs::Change::definitions_place))]
pub fn definitions_path(alloc: Global) -> Result<Path, AllocError>
    ensures { IfOk result (λ path. path ≡ definitions_place) }
{
    fixed_path(alloc, "etc/static")
}

/// Where the definitions lie that a manager loads, where this leaf stands at their place: the
/// target of a link. Elsewhere it loads nothing, and this is the empty text.
pub fn loaded_text(alloc: Global, leaf: Option<&Leaf>) -> Result<Text, AllocError>
    ensures text { IfOk result (λ text. text ≡ loaded_from (option_copied leaf.entry)) }
    ensures plain { IfOk result IsPlain }
{
    match leaf {
        Some(leaf) => link_target(alloc, leaf),
        None => Ok(Text::new(alloc)),
    }
}

/// The target of a link, or the empty text.
fn link_target(alloc: Global, leaf: &Leaf) -> Result<Text, AllocError>
    ensures text { IfOk result (λ text. text ≡ loaded_from (Some leaf.now)) }
    ensures plain { IfOk result IsPlain }
{
    match leaf.kind() {
        LeafKind::File { .. } => Ok(Text::new(alloc)),
        LeafKind::Link { target } => target.copy(alloc),
    }
}
