//! What is put for an entry.
ghost use Rattle.std.specs.Prelude.{◌≡◌, ◌++◌, IfOk, Some, codes};
ghost use Rattle.host_trait.specs.declared.leaf.LeafKind.TheVariants.{Link};
ghost use Rattle.etc_clean.specs.Etc.{leaf_of};
ghost use Rattle.etc_clean.specs.Standing.{is_leaf_of};

use etc_manifest::{Item, ItemKind};
use host_trait::Leaf;
use std::alloc::{AllocError, Global};
use switch_names::{NameFault, Path};

/// A link to a target, where it is one.
pub fn link_leaf(alloc: Global, target: &str) -> Result<Leaf, AllocError>
    ensures { IfOk result (λ leaf. leaf ≡ Link target.now) }
{
    Leaf::link(alloc, target).map_err(|_fault: NameFault| AllocError)
}

/// The link of a linked entry.
fn static_link(alloc: Global, name: &Path) -> Result<Leaf, AllocError>
    ensures { IfOk result (λ leaf. leaf ≡ Link (codes "/etc/static/" ++ name.now)) }
{
    let mut target = String::from_str(alloc, "/etc/static/")?;
    target.push_str(name.as_str())?;
    // No entry's path is as long as its link may be, so that memory alone can be wanting.
    link_leaf(alloc, target.as_str())
}

/// What is put for an entry: for a linked one a link into `/etc/static`, for a copied one its file, and for any other a
/// link to its target.
///
/// Source: setup-etc.pl of nixpkgs.
pub fn item_leaf(alloc: Global, item: &Item) -> Result<Leaf, AllocError>
    ensures { IfOk result (λ leaf. leaf ≡ leaf_of item.now.place item.now.kind) }
{
    match &item.kind {
        ItemKind::Linked => static_link(alloc, &item.place),
        ItemKind::Copied { leaf } => leaf.copy(alloc),
        ItemKind::Direct { target } => link_leaf(alloc, target.as_str()),
    }
}

/// Whether a leaf is what is put for an entry.
pub fn is_item_leaf(alloc: Global, item: &Item, leaf: &Option<Leaf>) -> Result<bool, AllocError>
    ensures { IfOk result (λ is. is ≡ is_leaf_of item.now.place (Some item.now.kind) leaf.now) }
{
    match leaf {
        Some(leaf) => Ok(leaf.same(&item_leaf(alloc, item)?)),
        None => Ok(false),
    }
}
