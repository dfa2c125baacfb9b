//! The generations that stand in a tree.
ghost use Rattle.std.specs.Prelude.{◌≡◌, ℕ, IfOk, IfSome, OnOk, IsSome, Some, map};
ghost use Rattle.std.specs.FinMap.{get};
ghost use Rattle.std.specs.List.Sorted.{IsStrictlySortedBy};
ghost use Rattle.std.specs.Ordering.{nat_cmp};
ghost use Rattle.host_trait.specs.Host.{Told};
ghost use Rattle.host_trait.specs.Reading.{IsReading};
ghost use Rattle.generations.specs.Gens.{IsGensOf, listed_at};
ghost use Rattle.generations.specs.LinkNumber.{Bears};
ghost use Rattle.generations.specs.Places.{profile, target_of};
ghost use Rattle.generations.specs.Targets.{AreTargetsAt, AreTargetsOf, IsGenAt, link_to, target_in, target_with};

use crate::gens::{Gen, Gens};
use crate::link_number::{number_of_name, number_of_path};
use crate::setting::profile_path;
use host_trait::{HostFault, Leaf, LeafKind, Tree, fixed_path};
use std::alloc::{AllocError, Global};
use std::collections::BTreeMap;
use switch_names::{Listed, Path, SystemName};

/// Targets of generations by number.
type Targets = BTreeMap<u32, Option<SystemName>>;

/// The system that a leaf names by its link, where it names one.
pub fn target_of(alloc: Global, leaf: &Leaf) -> Result<Option<SystemName>, AllocError>
    ensures { IfOk result (λ target. target ≡ target_of leaf.now) }
{
    match leaf.kind() {
        LeafKind::File { .. } => Ok(None),
        LeafKind::Link { target } => SystemName::of_text(alloc, target.as_str()),
    }
}

/// The number of the generation to which a leaf is a link.
fn number_of_leaf(alloc: Global, leaf: Option<Leaf>) -> Result<Option<u32>, AllocError>
    ensures { IfOk result (Bears link_to leaf) }
{
    let Some(leaf) = leaf else {
        return Ok(None);
    };
    match leaf.kind() {
        LeafKind::File { .. } => Ok(None),
        LeafKind::Link { target } => number_of_name(alloc, target.as_str()),
    }
}

/// The generation whose link has a path, where it stands.
fn read_link<T: Tree>(alloc: Global, host: &mut T, path: &Path) -> Result<Option<Gen>, HostFault>
    ensures generation { IfOk result (λ generation. Told (T.host host.old) (λ w. IsGenAt w.leaves path.now generation)) }
    ensures reads { IsReading (T.host host.old) (T.host host.new) result }
{
    let Some(number) = number_of_path(alloc, path.as_str())? else {
        return Ok(None);
    };
    let Some(leaf) = host.read(alloc, path)? else {
        return Ok(None);
    };
    let target = target_of(alloc, &leaf)?;
    Ok(Some(Gen { number, target }))
}

/// Puts a generation's target at its number.
fn put_target(targets: &mut Targets, generation: Option<Gen>) -> Result<(), AllocError>
    ensures { OnOk result ((n : ℕ) → target_in targets.new n ≡ target_with generation targets.old n) }
{
    if let Some(generation) = generation {
        targets.insert(generation.number, generation.target)?;
    }
    Ok(())
}

/// The targets of the generations whose links have these paths.
fn read_links<T: Tree>(alloc: Global, host: &mut T, paths: &[Path]) -> Result<Targets, HostFault>
    ensures targets { IfOk result (λ targets. Told (T.host host.old) (λ w. AreTargetsAt w.leaves paths.now targets)) }
    ensures reads { IsReading (T.host host.old) (T.host host.new) result }
{
    let mut targets = BTreeMap::new(alloc);
    for path in paths {
        let generation = read_link(alloc, host, path)?;
        put_target(&mut targets, generation)?;
    }
    Ok(targets)
}

/// The targets of the generations that stand.
#[tactic(auto, unfolding(crate::specs::Places::profiles))]
fn read_targets<T: Tree>(alloc: Global, host: &mut T) -> Result<Targets, HostFault>
    ensures targets { IfOk result (λ targets. Told (T.host host.old) (λ w. AreTargetsOf w.leaves targets)) }
    ensures reads { IsReading (T.host host.old) (T.host host.new) result }
{
    let folder = fixed_path(alloc, "nix/var/nix/profiles")?;
    let paths = host.list(alloc, &folder)?;
    read_links(alloc, host, paths.as_slice())
}

/// The number of the generation to which the profile's leaf is a link.
fn read_profile<T: Tree>(alloc: Global, host: &mut T) -> Result<Option<u32>, HostFault>
    ensures number { IfOk result (λ number. Told (T.host host.old) (λ w. Bears link_to (get w.leaves profile) number)) }
    ensures reads { IsReading (T.host host.old) (T.host host.new) result }
{
    let path = profile_path(alloc)?;
    let leaf = host.read(alloc, &path)?;
    let number = number_of_leaf(alloc, leaf)?;
    Ok(number)
}

/// The number that is linked, where a generation stands at it.
fn current_of(targets: &Targets, linked: Option<u32>) -> Option<u32>
    ensures stands { IfSome result (λ n. (linked ≡ Some n) × IsSome (target_in targets.now n)) }
    ensures only { (n : ℕ) → linked ≡ Some n → IsSome (target_in targets.now n) → result ≡ Some n }
{
    let number = linked?;
    targets.contains_key(&number).then_some(number)
}

/// The generations of these targets, ascending.
fn into_list(alloc: Global, targets: Targets) -> Result<Listed<Gen>, AllocError>
    ensures rising { IfOk result (λ list. IsStrictlySortedBy nat_cmp (map (λ generation. generation.number) list)) }
    ensures exact { IfOk result (λ list. (n : ℕ) → listed_at list n ≡ target_in targets n) }
{
    let mut list = Listed::new(alloc);
    for (number, target) in targets {
        list.push(Gen { number, target })?;
    }
    Ok(list)
}

/// The generations of the profile, ascending, and the current one.
///
/// It lists the profiles' folder once, and reads each generation's link and the profile's once.
pub fn all<T: Tree>(alloc: Global, host: &mut T) -> Result<Gens, HostFault>
    ensures gens { IfOk result (λ gens. Told (T.host host.old) (λ w. IsGensOf w.leaves gens)) }
    ensures reads { IsReading (T.host host.old) (T.host host.new) result }
{
    let targets = read_targets(alloc, host)?;
    let linked = read_profile(alloc, host)?;
    let current = current_of(&targets, linked);
    let list = into_list(alloc, targets)?;
    Ok(Gens { list, current })
}
