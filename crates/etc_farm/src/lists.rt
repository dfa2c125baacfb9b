//! The clean lists that a switch puts before and after its farm.
ghost use Rattle.std.specs.Prelude.{◌≡◌, ◌&&◌, ◌||◌, ◌++◌, ◌∷◌, [], not, false, IfOk, OnOk};
ghost use Rattle.std.specs.List.{AllByRecursion};
ghost use Rattle.std.specs.List.Sorted.{IsStrictlySortedBy};
ghost use Rattle.switch_names.specs.Names.{Name, has};
ghost use Rattle.host_trait.specs.World.{bytes_cmp};
ghost use Rattle.tree_put.specs.Sequence.{put_at};
ghost use Rattle.etc_manifest.specs.Place.{is_reserved};
ghost use Rattle.etc_clean.specs.CleanList.{clean_leaf, clean_name, clean_names, clean_text};
ghost use Rattle.etc_clean.specs.Farm.{is_made};
ghost use Rattle.etc_clean.specs.Names.{place};
ghost use Rattle.etc_farm.specs.Steps.{placed_but};

use etc_clean::{clean_path, contains, in_order, write_clean};
use etc_manifest::{Item, ItemKind};
use host_trait::Leaf;
use std::alloc::{AllocError, Global};
use switch_names::{Listed, Path};
use tree_put::LeafPut;

/// Whether an entry's name goes on the clean list: it is put as a leaf of its own, and not as a link
/// into `/etc/static`.
fn is_made(kind: &ItemKind) -> bool
    ensures { result ≡ is_made kind.now }
{
    match kind {
        ItemKind::Linked => false,
        ItemKind::Copied { .. } => true,
        ItemKind::Direct { .. } => true,
    }
}

/// Whether an entry is put as a leaf of its own, and isn't blocked.
fn is_placed(item: &Item, blocked: &[Path]) -> bool
    ensures { IsStrictlySortedBy bytes_cmp blocked.now → result ≡ (is_made item.now.kind && not (has blocked.now item.now.place)) }
{
    is_made(&item.kind) && !contains(blocked, &item.place)
}

/// Adds the name of an entry, where it is placed.
fn add_placed(
    alloc: Global,
    item: &Item,
    blocked: &[Path],
    names: &mut Listed<Path>,
) -> Result<(), AllocError>
    ensures { OnOk result (IsStrictlySortedBy bytes_cmp blocked.now → names.new ≡ names.old ++ placed_but blocked.now (item.now ∷ [])) }
{
    if !is_placed(item, blocked) {
        return Ok(());
    }
    names.push(item.place.copy(alloc)?)
}

/// The names of the copied and direct entries that aren't blocked, in their order.
pub fn placed_names(
    alloc: Global,
    items: &[Item],
    blocked: &[Path],
) -> Result<Listed<Path>, AllocError>
    ensures { IfOk result (λ names. IsStrictlySortedBy bytes_cmp blocked.now → names ≡ placed_but blocked.now items.now) }
{
    let mut names = Listed::new(alloc);
    for item in items {
        add_placed(alloc, item, blocked, &mut names)?;
    }
    Ok(names)
}

/// Adds some names to others.
fn add_all(alloc: Global, names: &mut Listed<Path>, more: &[Path]) -> Result<(), AllocError>
    ensures { OnOk result (names.new ≡ names.old ++ more.now) }
{
    for name in more {
        names.push(name.copy(alloc)?)?;
    }
    Ok(())
}

/// The names of two lists, in byte order.
pub fn joined(alloc: Global, names: &[Path], more: &[Path]) -> Result<Listed<Path>, AllocError>
    ensures names { IfOk result (λ list. (q : Name) → has list q ≡ (has names.now q || has more.now q)) }
    ensures sorted { IfOk result (λ list. IsStrictlySortedBy bytes_cmp list) }
{
    let mut all = Listed::new(alloc);
    add_all(alloc, &mut all, names)?;
    add_all(alloc, &mut all, more)?;
    in_order(alloc, all.as_slice())
}

/// The put of a clean list.
pub fn list_put(alloc: Global, names: &Listed<Path>) -> Result<LeafPut, AllocError>
    ensures put { IfOk result (λ put. put ≡ put_at (place clean_name) (clean_leaf names.now)) }
    ensures read_back { AllByRecursion (λ name. is_reserved name ≡ false) names.now → OnOk result (clean_names (clean_text names.now) ≡ names.now) }
{
    let text = write_clean(alloc, names)?;
    let leaf = Leaf::open_file(text);
    let at = clean_path(alloc)?;
    Ok(LeafPut { at, leaf })
}
