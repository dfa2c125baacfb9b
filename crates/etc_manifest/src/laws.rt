//! Laws of what a system wants below `/etc`.
ghost use Rattle.std.specs.Prelude.{◌≡◌, ◌↔◌, ◌&&◌, true, false, not, List, ℕ, None, Ok, Err};
ghost use Rattle.std.specs.List.Sorted.{IsStrictlySortedBy};
ghost use Rattle.switch_names.specs.Names.{Name, has};
ghost use Rattle.switch_names.specs.SystemName.{IsSystemPath};
ghost use Rattle.host_trait.specs.World.{IsSound, Leaves, bytes_cmp};
ghost use Rattle.etc_manifest.specs.declared.item.Item.{Item};
ghost use Rattle.etc_manifest.specs.declared.manifest_fault.ManifestFault.{ManifestFault};
ghost use Rattle.etc_manifest.specs.Companion.{is_companion};
ghost use Rattle.etc_manifest.specs.Entries.{IsFirstRefused, entries_of, has_leaf, manifest_of, wanted_at};
ghost use Rattle.etc_manifest.specs.Manifest.{AreApart, entry, places};
ghost use Rattle.etc_manifest.specs.Owners.{OwnerIds};
ghost use Rattle.etc_manifest.specs.Place.{etc_folder};
ghost use Rattle.etc_manifest.specs.Taken.{takes_entries};
ghost use Rattle.leaf_limits.specs.Limits.{is_long, long_past};

/// The entries of a system's etc are the names of the leaves there that are no companions, in byte
/// order and each once.
pub fn names_are_entries()
    ensures exact { (leaves : Leaves) (system : List ℕ) (name : Name) → IsSystemPath system →
        has (entries_of leaves system) name ≡ (has_leaf leaves (etc_folder system) name && not (is_companion (has_leaf leaves (etc_folder system)) name)) }
    ensures sorted { (leaves : Leaves) (system : List ℕ) → IsStrictlySortedBy bytes_cmp (entries_of leaves system) }
{}

/// A system's etc is refused exactly for its first refused entry in byte order.
pub fn first_refused_is_found()
    ensures { (leaves : Leaves) (system : List ℕ) (owners : OwnerIds) (fault : ManifestFault) →
        (manifest_of leaves system owners ≡ Err fault) ↔ ((name : Name) × IsFirstRefused leaves system owners name fault) }
{}

/// What a manifest has at a place is what the system wants there.
pub fn manifests_say_what_is_wanted()
    ensures { (leaves : Leaves) (system : List ℕ) (owners : OwnerIds) (items : List Item) → manifest_of leaves system owners ≡ Ok items →
        (places items ≡ entries_of leaves system) × ((name : Name) → entry items name ≡ wanted_at leaves system owners name) }
{}

/// In a sound world no place is above another.
pub fn manifests_are_apart()
    ensures { (leaves : Leaves) (system : List ℕ) (owners : OwnerIds) (items : List Item) → IsSystemPath system → IsSound leaves →
        manifest_of leaves system owners ≡ Ok items → AreApart (places items) }
{}

/// Where a system's etc isn't refused, no content that is taken of it is longer than may be read.
pub fn taken_contents_are_short()
    ensures short { (leaves : Leaves) (system : List ℕ) (owners : OwnerIds) (items : List Item) → IsSystemPath system → manifest_of leaves system owners ≡ Ok items →
        (q : Name) → takes_entries leaves system q ≡ true → is_long leaves q ≡ false }
    ensures none_past { (leaves : Leaves) (system : List ℕ) (owners : OwnerIds) (items : List Item) → IsSystemPath system → manifest_of leaves system owners ≡ Ok items →
        long_past (takes_entries leaves system) leaves ≡ None }
{}
