//! What the leaves below `etc` are.
ghost use Rattle.std.specs.Prelude.{◌≡◌, ◌||◌, ◌++◌, ◌∷◌, [], codes, nat_eq, IfOk, OnOk, Some, if◌then◌else◌};
ghost use Rattle.std.specs.FinMap.{get};
ghost use Rattle.std.specs.List.{starts_with};
ghost use Rattle.std.specs.List.Sorted.{IsStrictlySortedBy};
ghost use Rattle.host_trait.specs.Host.{Told};
ghost use Rattle.host_trait.specs.Reading.{IsReading};
ghost use Rattle.host_trait.specs.World.{bytes_cmp, is_path};
ghost use Rattle.etc_manifest.specs.Manifest.{places};
ghost use Rattle.etc_manifest.specs.Place.{is_reserved};
ghost use Rattle.etc_clean.specs.Farm.{is_below_nixos, is_entry, is_farm_link, is_into_static, is_ours};
ghost use Rattle.etc_clean.specs.Found.{AreFoundLeaves, TakesPath};
ghost use Rattle.etc_clean.specs.Names.{names_below};
ghost use Rattle.etc_clean.specs.Standing.{is_leaf_of};

use crate::leaves::is_item_leaf;
use crate::names::name_in_etc;
use crate::walk::Walk;
use etc_manifest::{Item, is_reserved};
use host_trait::{HostFault, Leaf, LeafKind, Tree};
use std::alloc::{AllocError, Global};
use switch_names::{Listed, Path};

/// Names below `etc` at which a leaf stands, in byte order.
pub struct FoundLeaves {
    /// Those that are neither reserved nor entries, and whose leaf is the farm's.
    pub gone: Listed<Path>,
    /// The others that are neither reserved nor entries.
    pub foreign: Listed<Path>,
    /// The entries whose leaf is what is put for them.
    pub standing: Listed<Path>,
}

/// One call: a derived drop is proved anew in each function that lets one go.
impl Drop for FoundLeaves {
    fn drop(self) {
        let FoundLeaves {
            gone: _,
            foreign: _,
            standing: _,
        } = self;
    }
}

impl FoundLeaves {
    /// No names.
    fn new(alloc: Global) -> FoundLeaves
        ensures gone { result.gone ≡ [] }
        ensures foreign { result.foreign ≡ [] }
        ensures standing { result.standing ≡ [] }
    {
        FoundLeaves {
            gone: Listed::new(alloc),
            foreign: Listed::new(alloc),
            standing: Listed::new(alloc),
        }
    }

    /// The names whose leaf is the farm's, and the entries whose leaf stands.
    pub fn into_names(self) -> (Listed<Path>, Listed<Path>)
        ensures gone { result.0 ≡ self.gone }
        ensures standing { result.1 ≡ self.standing }
    {
        let FoundLeaves {
            gone,
            foreign: _,
            standing,
        } = self;
        (gone, standing)
    }

    /// Adds a name, by whether its leaf is the farm's.
    fn add(&mut self, name: Path, ours: bool) -> Result<(), AllocError>
        ensures gone { OnOk result (self.new.gone ≡ self.old.gone ++ (if ours then name ∷ [] else [])) }
        ensures foreign { OnOk result (self.new.foreign ≡ self.old.foreign ++ (if ours then [] else name ∷ [])) }
        ensures standing { OnOk result (self.new.standing ≡ self.old.standing) }
    {
        if ours {
            self.gone.push(name)
        } else {
            self.foreign.push(name)
        }
    }

    /// Adds an entry, where its leaf stands.
    fn add_entry(&mut self, name: Path, stands: bool) -> Result<(), AllocError>
        ensures gone { OnOk result (self.new.gone ≡ self.old.gone) }
        ensures foreign { OnOk result (self.new.foreign ≡ self.old.foreign) }
        ensures standing { OnOk result (self.new.standing ≡ self.old.standing ++ (if stands then name ∷ [] else [])) }
    {
        if stands {
            self.standing.push(name)?;
        }
        Ok(())
    }
}

/// Whether a target is `/etc/static`.
fn is_static(target: &str) -> bool
    ensures { result ≡ is_path target.now (codes "/etc/static") }
{
    target == "/etc/static"
}

/// Whether a target begins with `/etc/static` and a slash.
fn is_below_static(target: &str) -> bool
    ensures { result ≡ starts_with nat_eq target.now (codes "/etc/static/") }
{
    target.starts_with("/etc/static/")
}

/// Whether a target leads into `/etc/static`.
#[tactic(auto, unfolding(crate::specs::Farm::is_into_static))]
fn is_into_static(target: &str) -> bool
    ensures { result ≡ is_into_static target.now }
{
    is_static(target) || is_below_static(target)
}

/// Whether a name lies below `nixos`.
#[tactic(auto, unfolding(crate::specs::Farm::is_below_nixos))]
fn is_below_nixos(name: &Path) -> bool
    ensures { result ≡ is_below_nixos name.now }
{
    name.as_str().starts_with("nixos/")
}

/// Whether a leaf is a link into `/etc/static`, outside of `nixos`.
fn is_farm_link(name: &Path, leaf: &Option<Leaf>) -> bool
    ensures { result ≡ is_farm_link name.now leaf.now }
{
    let Some(leaf) = leaf else {
        return false;
    };
    match leaf.kind() {
        LeafKind::File { .. } => false,
        LeafKind::Link { target } => is_into_static(target.as_str()) && !is_below_nixos(name),
    }
}

/// Whether the leaf at a path is the farm's, given the names of the clean list.
fn is_ours<T: Tree>(
    alloc: Global,
    host: &mut T,
    clean: &[Path],
    walk: &mut Walk,
    path: &Path,
    name: &Path,
) -> Result<bool, HostFault>
    requires { IsStrictlySortedBy bytes_cmp clean.now }
    ensures ours { IfOk result (λ ours. Told (T.host host.old) (λ w. ours ≡ is_ours clean.now name.now (get w.leaves path.now))) }
    ensures reads { IsReading (T.host host.old) (T.host host.new) result }
{
    if walk.is_clean(clean, name) {
        return Ok(true);
    }
    let leaf = host.read(alloc, path)?;
    Ok(is_farm_link(name, &leaf))
}

/// Whether what is put for an item stands at a path.
fn is_at<T: Tree>(alloc: Global, host: &mut T, item: &Item, path: &Path) -> Result<bool, HostFault>
    ensures stands { IfOk result (λ stands. Told (T.host host.old) (λ w. stands ≡ is_leaf_of item.now.place (Some item.now.kind) (get w.leaves path.now))) }
    ensures reads { IsReading (T.host host.old) (T.host host.new) result }
{
    let leaf = host.read(alloc, path)?;
    Ok(is_item_leaf(alloc, item, &leaf)?)
}

/// Adds the name of a path, where it is one below `etc` that isn't reserved, or is an entry.
fn take_path<T: Tree>(
    alloc: Global,
    host: &mut T,
    items: &[Item],
    clean: &[Path],
    walk: &mut Walk,
    path: &Path,
    found: &mut FoundLeaves,
) -> Result<(), HostFault>
    requires items { IsStrictlySortedBy bytes_cmp (places items.now) }
    requires clean { IsStrictlySortedBy bytes_cmp clean.now }
    ensures found { OnOk result (Told (T.host host.old) (λ w. TakesPath items.now clean.now w.leaves path.now found.old found.new)) }
    ensures reads { IsReading (T.host host.old) (T.host host.new) result }
{
    let Some(name) = name_in_etc(alloc, path)? else {
        return Ok(());
    };
    if let Some(item) = walk.item(items, &name) {
        let stands = is_at(alloc, host, item, path)?;
        return Ok(found.add_entry(name, stands)?);
    }
    if is_reserved(&name) {
        return Ok(());
    }
    let ours = is_ours(alloc, host, clean, walk, path, &name)?;
    Ok(found.add(name, ours)?)
}

/// Sorts the leaves at these paths. Where they come in byte order, the items and the clean list are walked once beside them.
pub fn find<T: Tree>(
    alloc: Global,
    host: &mut T,
    items: &[Item],
    clean: &[Path],
    paths: &[Path],
) -> Result<FoundLeaves, HostFault>
    requires items { IsStrictlySortedBy bytes_cmp (places items.now) }
    requires clean { IsStrictlySortedBy bytes_cmp clean.now }
    ensures found { IfOk result (λ found. Told (T.host host.old) (λ w. AreFoundLeaves items.now clean.now w.leaves (names_below paths.now) found)) }
    ensures reads { IsReading (T.host host.old) (T.host host.new) result }
{
    let mut found = FoundLeaves::new(alloc);
    let mut walk = Walk::new();
    for path in paths {
        take_path(alloc, host, items, clean, &mut walk, path, &mut found)?;
    }
    Ok(found)
}
