//! What a switch finds in `/etc` before it puts its farm there.
ghost use Rattle.std.specs.Prelude.{◌≡◌, ◌++◌, ◌∷◌, [], true, IfOk, OnOk, filter};
ghost use Rattle.std.specs.List.{list_any};
ghost use Rattle.std.specs.List.Sorted.{IsStrictlySortedBy};
ghost use Rattle.switch_names.specs.Names.{IsListOf, has};
ghost use Rattle.host_trait.specs.Host.{Told};
ghost use Rattle.host_trait.specs.Reading.{IsReading};
ghost use Rattle.host_trait.specs.World.{bytes_cmp, is_in_line};
ghost use Rattle.tree_put.specs.Found as noted;
ghost use Rattle.etc_manifest.specs.Manifest.{places};
ghost use Rattle.etc_clean.specs.CleanList.{names_in};
ghost use Rattle.etc_clean.specs.Found.{AreFoundLeaves};
ghost use Rattle.etc_clean.specs.Names.{etc_names};
ghost use Rattle.etc_clean.specs.Obsolete.{IsSortedOf};

use crate::clean_list::{names_in, read_old};
use crate::found::{FoundLeaves, find};
use crate::names::etc_folder;
use crate::order::in_order;
use crate::search::has_in_line;
use etc_manifest::{Item, Manifest};
use host_trait::{HostFault, Tree};
use leaf_limits::content_past;
use std::alloc::{AllocError, Global};
use std::collections::BTreeMap;
use switch_names::{Bytes, Listed, Path};

/// What a switch finds in `/etc`: names below it, each list in byte order.
pub struct Sorted {
    /// The leaves to be removed.
    pub gone: Listed<Path>,
    /// The entries that are left out, because a foreign leaf stands above or below them.
    pub blocked: Listed<Path>,
    /// The entries whose leaf stands already, blocked ones among them.
    pub standing: Listed<Path>,
    /// The names of the clean list that stands.
    pub clean: Listed<Path>,
    /// How many bytes that list has, where it has more than 16 MiB.
    pub past: Option<u64>,
}

/// One call: a derived drop is proved anew in each function that lets one go.
impl Drop for Sorted {
    fn drop(self) {
        let Sorted {
            gone: _,
            blocked: _,
            standing: _,
            clean: _,
            past: _,
        } = self;
    }
}

/// The names that the content of a clean list says, in byte order.
fn clean_set(alloc: Global, content: &Option<Bytes>) -> Result<Listed<Path>, AllocError>
    ensures clean { IfOk result (λ clean. IsListOf clean (λ q. has (names_in content.now) q ≡ true)) }
    ensures sorted { IfOk result (λ clean. IsStrictlySortedBy bytes_cmp clean) }
{
    let names = names_in(alloc, content)?;
    in_order(alloc, names.as_slice())
}

/// Sorts the leaves below `etc`.
fn find_all<T: Tree>(
    alloc: Global,
    host: &mut T,
    items: &[Item],
    clean: &[Path],
) -> Result<FoundLeaves, HostFault>
    requires items { IsStrictlySortedBy bytes_cmp (places items.now) }
    requires clean { IsStrictlySortedBy bytes_cmp clean.now }
    ensures found { IfOk result (λ found. Told (T.host host.old) (λ w. AreFoundLeaves items.now clean.now w.leaves (etc_names w.leaves) found)) }
    ensures reads { IsReading (T.host host.old) (T.host host.new) result }
{
    let folder = etc_folder(alloc)?;
    let paths = host.list(alloc, &folder)?;
    find(alloc, host, items, clean, paths.as_slice())
}

/// Adds the place of an item, where one of these names stands above or below it.
fn add_blocked(
    alloc: Global,
    item: &Item,
    foreign: &[Path],
    blocked: &mut Listed<Path>,
) -> Result<(), AllocError>
    ensures { OnOk result (IsStrictlySortedBy bytes_cmp foreign.now → blocked.new ≡ blocked.old ++ filter (λ q. list_any (λ p. is_in_line p q) foreign.now) (item.now.place ∷ [])) }
{
    if !has_in_line(alloc, foreign, &item.place)? {
        return Ok(());
    }
    blocked.push(item.place.copy(alloc)?)
}

/// The places of the items above or below which one of these names stands, where they are in byte order.
fn blocked_by(alloc: Global, items: &[Item], foreign: &[Path]) -> Result<Listed<Path>, AllocError>
    ensures { IfOk result (λ names. IsStrictlySortedBy bytes_cmp foreign.now → names ≡ filter (λ q. list_any (λ p. is_in_line p q) foreign.now) (places items.now)) }
{
    let mut blocked = Listed::new(alloc);
    for item in items {
        add_blocked(alloc, item, foreign, &mut blocked)?;
    }
    Ok(blocked)
}

/// What a manifest leaves to be removed and to be left out in `/etc`, with what of it stands already and the clean list
/// that stands.
///
/// It takes the clean list as it was found, or else reads it once, lists `etc` once, and reads each leaf there at most once:
/// those at entries too, so that one that can't be read is found before anything is changed. The entries and the clean list
/// are walked once beside the leaves.
/// Source: setup-etc.pl of nixpkgs.
pub fn obsolete<T: Tree>(
    alloc: Global,
    host: &mut T,
    findings: &mut BTreeMap<Path, tree_put::Found>,
    manifest: &Manifest,
) -> Result<Sorted, HostFault>
    requires found { Told (T.host host.old) (λ w. noted.AreFound w.leaves findings.old) }
    ensures sorted { IfOk result (λ sorted. Told (T.host host.old) (λ w. IsSortedOf manifest.now w.leaves sorted)) }
    ensures others { OnOk result (Told (T.host host.old) (λ w. noted.AreFound w.leaves findings.new)) }
    ensures reads { IsReading (T.host host.old) (T.host host.new) result }
{
    let items = manifest.items().as_slice();
    let content = read_old(alloc, host, findings)?;
    let clean = clean_set(alloc, &content)?;
    let found = find_all(alloc, host, items, clean.as_slice())?;
    let blocked = blocked_by(alloc, items, found.foreign.as_slice())?;
    let (gone, standing) = found.into_names();
    Ok(Sorted {
        gone,
        blocked,
        standing,
        clean,
        past: content_past(&content),
    })
}
