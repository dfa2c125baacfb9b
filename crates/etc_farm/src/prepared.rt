//! What a farm puts beside its entries, made before the first change.
ghost use Rattle.std.specs.Prelude.{◌≡◌, ◌∷◌, [], IfOk};
ghost use Rattle.host_trait.specs.declared.leaf.LeafKind.TheVariants.{Link};
ghost use Rattle.tree_put.specs.declared.leaf_put.LeafPut.{LeafPut};
ghost use Rattle.tree_put.specs.Sequence.{ArePutsApart, put_at};
ghost use Rattle.etc_clean.specs.CleanList.{clean_name};
ghost use Rattle.etc_clean.specs.Etc.{static_name};
ghost use Rattle.etc_clean.specs.Names.{place};
ghost use Rattle.etc_farm.specs.FarmPart.{farm_of, static_target};
ghost use Rattle.etc_farm.specs.Steps.{IsPrepared};

use crate::lists::{joined, list_put, placed_names};
use crate::places::static_path;
use crate::removal::gone_places;
use etc_clean::{Sorted, link_leaf};
use etc_manifest::Manifest;
use host_trait::Leaf;
use std::alloc::{AllocError, Global};
use std::marker::Model;
use switch_names::{Listed, Path, SystemName};
use tree_put::LeafPut;

/// What is put and removed for a farm beside its entries.
///
/// Contracts see the puts that come first, the places of what is gone and the last put. Those that come first are apart, and
/// the last is at the place of the clean list, whether or not a host tells its world.
pub struct Prepared {
    first: Listed<LeafPut>,
    gone: Listed<Path>,
    last: LeafPut,
}

/// One call: a derived drop is proved anew in each function that lets one go.
impl Drop for Prepared {
    fn drop(self) {
        let Prepared {
            first: _,
            gone: _,
            last: _,
        } = self;
    }
}

impl Model for Prepared {
    ghost use Rattle.etc_farm.specs.Prepared.{AreAtPlaces, PreparedPuts};

    ghost Value = { PreparedPuts };

    ghost view = { λ prepared. record { first = prepared.first; gone = prepared.gone; last = prepared.last } };

    ghost invariant = { λ prepared. AreAtPlaces (record { first = prepared.first; gone = prepared.gone; last = prepared.last }) };
}

impl Prepared {
    /// The first clean list, and the link at `static`.
    pub fn first(&self) -> &[LeafPut]
        ensures first { result.now ≡ self.now.first }
        ensures apart { ArePutsApart result.now }
    {
        self.first.as_slice()
    }

    /// The places of what is gone.
    pub fn gone(&self) -> &[Path]
        ensures { result.now ≡ self.now.gone }
    {
        self.gone.as_slice()
    }

    /// The last clean list.
    pub fn last(&self) -> &LeafPut
        ensures last { result.now ≡ self.now.last }
        ensures place { result.now.at ≡ place clean_name }
    {
        &self.last
    }
}

/// The link to a system's own etc.
#[tactic(auto, unfolding(crate::specs::FarmPart::static_target))]
fn static_leaf(alloc: Global, system: &SystemName) -> Result<Leaf, AllocError>
    ensures { IfOk result (λ leaf. leaf ≡ Link (static_target system.now)) }
{
    let mut target = system.link_text(alloc)?.into_string();
    target.push_str("/etc")?;
    link_leaf(alloc, target.as_str())
}

/// A clean list, and then the link to a system's own etc.
fn first_puts(
    alloc: Global,
    list: LeafPut,
    system: &SystemName,
) -> Result<Listed<LeafPut>, AllocError>
    ensures { IfOk result (λ puts. puts ≡ list ∷ put_at (place static_name) (Link (static_target system.now)) ∷ []) }
{
    let mut puts = Listed::new(alloc);
    puts.push(list)?;
    let leaf = static_leaf(alloc, system)?;
    let at = static_path(alloc)?;
    puts.push(LeafPut { at, leaf })?;
    Ok(puts)
}

/// The clean lists of a farm, the link to a system's own etc, and the places of what is gone.
pub fn prepare(
    alloc: Global,
    system: &SystemName,
    manifest: &Manifest,
    sorted: &Sorted,
) -> Result<Prepared, AllocError>
    ensures { IfOk result (IsPrepared (farm_of system.now manifest.now) sorted.now) }
{
    let items = manifest.items().as_slice();
    let placed = placed_names(alloc, items, sorted.blocked.as_slice())?;
    let first = joined(alloc, sorted.clean.as_slice(), placed.as_slice())?;
    let first_list = list_put(alloc, &first)?;
    let puts = first_puts(alloc, first_list, system)?;
    let gone = gone_places(alloc, sorted.gone.as_slice())?;
    let last = list_put(alloc, &placed)?;
    Ok(Prepared {
        first: puts,
        gone,
        last,
    })
}
