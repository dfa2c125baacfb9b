//! What a system wants below `/etc`.
ghost use Rattle.std.specs.Prelude.{◌≡◌, List, ℕ, None, Some, Ok, Err, IfOk, OnOk, IsErrOf};
ghost use Rattle.std.specs.List.Sorted.{IsStrictlySortedBy};
ghost use Rattle.host_trait.specs.declared.tree.HostFault.TheVariants.{Device};
ghost use Rattle.host_trait.specs.Bytes.{bytes_cmp};
ghost use Rattle.host_trait.specs.Host.{Told};
ghost use Rattle.host_trait.specs.Reading.{IsReadingOf};
ghost use Rattle.etc_manifest.specs.declared.manifest_fault.ManifestFault.{ManifestFault};
ghost use Rattle.etc_manifest.specs.declared.manifest_fault.ManifestFault.TheVariants.{Many, Reserved, Entry, Owner, Host};
ghost use Rattle.etc_manifest.specs.Count.{entries_past, refused_place};
ghost use Rattle.etc_manifest.specs.Entries.{IsAnswer, leaf_names, manifest_of};
ghost use Rattle.etc_manifest.specs.Manifest.{AreApart, IsManifest, places};
ghost use Rattle.etc_manifest.specs.Place.{etc_folder};

use crate::counting::{entries_past, names_in};
use crate::entry::read_items;
use crate::item::Item;
use crate::manifest_fault::ManifestFault;
use crate::owners::Owners;
use crate::place::etc_folder;
use host_trait::Tree;
use std::alloc::Global;
use std::marker::Model;
use switch_names::{Listed, Path, SystemName};

/// The entries of a system's etc, each with what is wanted at its place.
///
/// Contracts see them in byte order of places: each place once, and none of them reserved.
pub struct Manifest {
    items: Listed<Item>,
}

/// One call: a derived drop is proved anew in each function that lets one go.
impl Drop for Manifest {
    fn drop(self) {
        let Manifest { items: _ } = self;
    }
}

impl Model for Manifest {
    ghost use Rattle.std.specs.Prelude.{List};
    ghost use Rattle.etc_manifest.specs.declared.item.Item.{Item};
    ghost use Rattle.etc_manifest.specs.Manifest.{IsManifest};

    ghost Value = { List Item };

    ghost view = { λ manifest. manifest.items };

    ghost invariant = { λ manifest. IsManifest manifest.items };
}

/// Reads the entries of a system's etc, given the names of its leaves, up to the first that is refused.
fn read_entries<T: Tree>(
    alloc: Global,
    host: &mut T,
    system: &SystemName,
    names: &[Path],
    owners: &Owners,
) -> Result<Listed<Item>, ManifestFault>
    requires sorted { IsStrictlySortedBy bytes_cmp names.now }
    requires names { Told (T.host host.old) (λ w. names.now ≡ leaf_names w.leaves (etc_folder system.now)) }
    ensures items { Told (T.host host.old) (λ w. IsAnswer result (manifest_of w.leaves system.now owners.now)) }
    ensures is_manifest { IfOk result IsManifest }
    ensures apart { IfOk result (λ items. Told (T.host host.old) (λ w. AreApart (places items))) }
    ensures reads { IsReadingOf (T.host host.old) (T.host host.new) (IsErrOf result (Host Device)) }
{
    let folder = etc_folder(alloc, system)?;
    read_items(alloc, host, &folder, names, owners)
}

impl Manifest {
    /// Reads the entries of a system's etc, and their companions.
    ///
    /// It lists the folder once, and counts the entries before it reads any of them. Of an entry without
    /// a `.mode` nothing more is read, and of any other each leaf once. A link that is placed itself is followed
    /// too, as what it leads to may be longer than may be read.
    ///
    /// Source: NixOS manual, `environment.etc`.
    pub fn read<T: Tree>(
        alloc: Global,
        host: &mut T,
        system: &SystemName,
        owners: &Owners,
    ) -> Result<Manifest, ManifestFault>
        ensures manifest { IfOk result (λ manifest. Told (T.host host.old) (λ w. manifest_of w.leaves system.now owners.now ≡ Ok manifest)) }
        ensures apart { IfOk result (λ manifest. Told (T.host host.old) (λ w. AreApart (places manifest))) }

        ensures many { (count : ℕ) → IsErrOf result (Many count) → Told (T.host host.old) (λ w. entries_past w.leaves system.now ≡ Some count) }
        ensures few { OnOk result (Told (T.host host.old) (λ w. entries_past w.leaves system.now ≡ None)) }

        // No entry is refused where there are too many.
        ensures few_refused { (why : ManifestFault) (place : List ℕ) → IsErrOf result why → refused_place why ≡ Some place → Told (T.host host.old) (λ w. entries_past w.leaves system.now ≡ None) }

        // By the law `first_refused_is_found` that is the first refused entry in byte order.
        ensures reserved { (place : List ℕ) → IsErrOf result (Reserved place) → Told (T.host host.old) (λ w. manifest_of w.leaves system.now owners.now ≡ Err (Reserved place)) }
        ensures entry { (place : List ℕ) → IsErrOf result (Entry place) → Told (T.host host.old) (λ w. manifest_of w.leaves system.now owners.now ≡ Err (Entry place)) }
        ensures owner { (place : List ℕ) → IsErrOf result (Owner place) → Told (T.host host.old) (λ w. manifest_of w.leaves system.now owners.now ≡ Err (Owner place)) }

        ensures reads { IsReadingOf (T.host host.old) (T.host host.new) (IsErrOf result (Host Device)) }
    {
        let names = names_in(alloc, host, system)?;
        if let Some(count) = entries_past(alloc, names.as_slice())? {
            return Err(ManifestFault::Many(count));
        }
        let items = read_entries(alloc, host, system, names.as_slice(), owners)?;
        Ok(Manifest { items })
    }

    /// The entries in byte order of their places.
    pub fn items(&self) -> &Listed<Item>
        ensures items { result.now ≡ self.now }
        ensures is_manifest { IsManifest self.now }
    {
        &self.items
    }
}
