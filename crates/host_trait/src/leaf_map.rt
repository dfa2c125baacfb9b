//! Leaves by path, in std's ordered map.
ghost use Rattle.std.specs.Prelude.{◌≡◌, ◌≢◌, ◌↔◌, ◌++◌, ◌∷◌, [], None, IfOk, IfSome, OnOk, OnErr, IsErrOf, IsNone, IsSome, IsOk, IsTrue, MatchBool};
ghost use Rattle.std.specs.BTreeMap as tree;
ghost use Rattle.std.specs.FinMap.{get, insert, keys, remove};
ghost use Rattle.std.specs.List.{AllByRecursion, list_any};
ghost use Rattle.std.specs.Option.{option_copied};
ghost use Rattle.switch_names.specs.Path.{IsPath, is_below, path_fault, slash};
ghost use Rattle.host_trait.specs.World.{IsSameAt, IsClear, IsInTheWay, IsSound, is_elsewhere, is_path, is_listed, leaf_count, listed, moved, stage, with_more};
ghost use Rattle.host_trait.specs.LeafMap.{leaves_of};

use crate::leaf::Leaf;
use crate::world_fault::WorldFault;
use std::alloc::{AllocError, Global};
use std::collections::BTreeMap;
use std::ops::Bound;
use switch_names::{Bytes, Listed, NameFault, Path};

/// The place at which a leaf is written before it takes its own.
const STAGE: &str = "nix/var/nixswitch.stage";

/// The leaf at a path.
pub fn find_leaf<'a>(leaves: &'a BTreeMap<Path, Leaf>, at: &Path) -> Option<&'a Leaf>
    ensures { option_copied result ≡ get (leaves_of leaves.now) at.now }
{
    leaves.get(at)
}

/// Puts a leaf at a path, and answers the one that stood there.
pub fn put_leaf(
    leaves: &mut BTreeMap<Path, Leaf>,
    at: Path,
    leaf: Leaf,
) -> Result<Option<Leaf>, AllocError>
    ensures was { IfOk result (λ was. was ≡ get (leaves_of leaves.old) at) }
    ensures ok { OnOk result (leaves_of leaves.new ≡ insert (leaves_of leaves.old) at leaf) }
    ensures err { OnErr result (leaves_of leaves.new ≡ leaves_of leaves.old) }
    ensures present { IsSome (get (leaves_of leaves.old) at) → IsOk result }
    ensures sound { IsPath at → IsClear (leaves_of leaves.old) at → IsSound (leaves_of leaves.old) → IsSound (leaves_of leaves.new) }
{
    Ok(leaves.insert(at, leaf)?)
}

/// Takes the leaf at a path out.
pub fn remove_leaf(leaves: &mut BTreeMap<Path, Leaf>, at: &Path) -> Option<Leaf>
    ensures was { result ≡ get (leaves_of leaves.old) at.now }
    ensures removed { leaves_of leaves.new ≡ remove (leaves_of leaves.old) at.now }
    ensures sound { IsSound (leaves_of leaves.old) → IsSound (leaves_of leaves.new) }
{
    leaves.remove(at)
}

/// Whether a path is the stage's.
#[tactic(auto, unfolding(crate::specs::World::stage))]
fn is_stage(path: &Path) -> bool
    ensures { result ≡ is_path path.now stage }
{
    path.as_str() == STAGE
}

/// Whether a path equals another or lies below it, and isn't the stage's.
fn is_listed(under: &Path, path: &Path) -> bool
    ensures { result ≡ is_listed under.now path.now }
{
    (path == under || path.is_below(under)) && !is_stage(path)
}

/// Appends bytes to the file at a path.
pub fn extend_entry(
    alloc: Global,
    leaves: &mut BTreeMap<Path, Leaf>,
    at: &Path,
    more: &[u8],
) -> Result<(), AllocError>
    ensures ok { OnOk result (leaves_of leaves.new ≡ with_more (leaves_of leaves.old) at.now more.now) }
    ensures err { OnErr result (leaves_of leaves.new ≡ leaves_of leaves.old) }
    ensures sound { IsSound (leaves_of leaves.old) → IsSound (leaves_of leaves.new) }
{
    let place = at.copy(alloc)?;
    let Some(leaf) = find_leaf(leaves, at) else {
        return Ok(());
    };
    let longer = leaf.longer(alloc, more)?;
    let _was = put_leaf(leaves, place, longer)?;
    Ok(())
}

/// The paths of the leaves at or below a path, in byte order, without the stage.
pub fn list_leaves(
    alloc: Global,
    leaves: &BTreeMap<Path, Leaf>,
    under: &Path,
) -> Result<Listed<Path>, AllocError>
    ensures { IfOk result (λ paths. paths ≡ listed under.now (leaves_of leaves.now)) }
{
    let mut paths = Listed::new(alloc);
    for path in leaves.keys() {
        if is_listed(under, path) {
            paths.push(path.copy(alloc)?)?;
        }
    }
    Ok(paths)
}

/// Whether a path is another than the stage's.
#[tactic(auto, unfolding(crate::specs::World::is_elsewhere))]
pub fn is_elsewhere(path: &Path) -> bool
    ensures { result ≡ is_elsewhere path.now }
{
    !is_stage(path)
}

/// How many leaves there are, the stage's left out.
pub fn count_leaves(leaves: &BTreeMap<Path, Leaf>) -> u64
    ensures { result ≡ leaf_count (leaves_of leaves.now) }
{
    let mut count = 0;
    for path in leaves.keys() {
        if is_elsewhere(path) {
            count += 1;
        }
    }
    count
}

/// The least path below another, where one can be made.
fn least_below(alloc: Global, at: &Path) -> Result<Option<Path>, AllocError>
    ensures some { IfOk result (λ least. IfSome least (λ path. path ≡ at.now ++ slash ∷ 1 ∷ [])) }
    ensures none { IfOk result (λ least. IsNone least → path_fault (at.now ++ slash ∷ 1 ∷ []) ≢ None) }
{
    NameFault::or_none(at.join(alloc, "\u{1}"))
}

/// Whether a leaf stands strictly below a path.
fn has_leaf_below(
    alloc: Global,
    leaves: &BTreeMap<Path, Leaf>,
    at: &Path,
) -> Result<bool, AllocError>
    ensures { IfOk result (λ below. IsSound (leaves_of leaves.now) → below ≡ list_any (λ q. is_below q at.now) (keys (leaves_of leaves.now))) }
{
    let Some(least) = least_below(alloc, at)? else {
        return Ok(false);
    };
    // All that lies below it stands together, from the least path on.
    match leaves
        .range((Bound::Included(&least), Bound::Unbounded))
        .next()
    {
        Some((path, _leaf)) => Ok(path.is_below(at)),
        None => Ok(false),
    }
}

/// Whether a leaf stands strictly above a path.
fn has_leaf_above(
    alloc: Global,
    leaves: &BTreeMap<Path, Leaf>,
    at: &Path,
) -> Result<bool, AllocError>
    ensures { IfOk result (λ above. above ≡ list_any (λ q. is_below at.now q) (keys (leaves_of leaves.now))) }
{
    let mut next = at.parent(alloc)?;
    while let Some(place) = next {
        if find_leaf(leaves, &place).is_some() {
            return Ok(true);
        }
        next = place.parent(alloc)?;
    }
    Ok(false)
}

/// Whether a leaf stands strictly above or below a path.
fn has_in_line(alloc: Global, leaves: &BTreeMap<Path, Leaf>, at: &Path) -> Result<bool, AllocError>
    ensures { IfOk result (λ line. IsSound (leaves_of leaves.now) → MatchBool line (IsInTheWay (leaves_of leaves.now) at.now) (IsClear (leaves_of leaves.now) at.now)) }
{
    let below = has_leaf_below(alloc, leaves, at)?;
    if below {
        return Ok(below);
    }
    let above = has_leaf_above(alloc, leaves, at)?;
    Ok(above)
}

/// Puts a leaf at a path where none stands strictly above or below, and answers the one there.
pub fn set_entry(
    alloc: Global,
    leaves: &mut BTreeMap<Path, Leaf>,
    at: Path,
    leaf: Leaf,
) -> Result<Option<Leaf>, WorldFault>
    ensures was { IfOk result (λ was. was ≡ get (leaves_of leaves.old) at) }
    ensures ok { OnOk result (leaves_of leaves.new ≡ insert (leaves_of leaves.old) at leaf) }
    ensures blocked { IsSound (leaves_of leaves.old) → IsErrOf result WorldFault.Blocked → IsInTheWay (leaves_of leaves.old) at }
    ensures clear { IsSound (leaves_of leaves.old) → OnOk result (IsClear (leaves_of leaves.old) at) }
    ensures err { OnErr result (leaves_of leaves.new ≡ leaves_of leaves.old) }
    ensures sound { IsSound (leaves_of leaves.old) → IsSound (leaves_of leaves.new) }
{
    if has_in_line(alloc, leaves, &at)? {
        return Err(WorldFault::Blocked);
    }
    let _path = at.as_str();
    Ok(put_leaf(leaves, at, leaf)?)
}

/// Moves the leaf at a path to another, and answers the one that stood there.
pub fn move_entry(
    alloc: Global,
    leaves: &mut BTreeMap<Path, Leaf>,
    from: &Path,
    to: &Path,
) -> Result<Option<Leaf>, AllocError>
    requires present { IsSome (get (leaves_of leaves.old) from.now) }
    requires other { to.now ≢ from.now }
    ensures was { IfOk result (λ was. was ≡ get (leaves_of leaves.old) to.now) }
    ensures ok { OnOk result (leaves_of leaves.new ≡ moved (leaves_of leaves.old) from.now to.now) }
    ensures err { OnErr result (leaves_of leaves.new ≡ leaves_of leaves.old) }
    ensures sound { IsClear (leaves_of leaves.old) to.now → IsSound (leaves_of leaves.old) → IsSound (leaves_of leaves.new) }
{
    let _path = to.as_str();
    let first = to.copy(alloc)?;
    let second = to.copy(alloc)?;
    // An empty file keeps the place, so that the second insertion takes no memory.
    let blank = Leaf::file(Bytes::from_vec(Vec::new(alloc)), 0, 0, 0);
    let was = put_leaf(leaves, first, blank)?;
    let leaf = remove_leaf(leaves, from).unwrap();
    let _blank = put_leaf(leaves, second, leaf).unwrap();
    Ok(was)
}

/// Whether two maps have the same at a path, unless that is the stage's.
fn is_same_at(leaves: &BTreeMap<Path, Leaf>, other: &BTreeMap<Path, Leaf>, path: &Path) -> bool
    ensures { IsTrue result ↔ IsSameAt (leaves_of leaves.now) (leaves_of other.now) path.now }
{
    if is_stage(path) {
        return true;
    }
    match (find_leaf(leaves, path), find_leaf(other, path)) {
        (Some(leaf), Some(that)) => leaf.same(that),
        (None, None) => true,
        _ => false,
    }
}

/// Whether two maps have the same at each path of the second.
fn are_same_at_paths(leaves: &BTreeMap<Path, Leaf>, other: &BTreeMap<Path, Leaf>) -> bool
    ensures { IsTrue result ↔ AllByRecursion (IsSameAt (leaves_of leaves.now) (leaves_of other.now)) (tree.keys other.now) }
{
    for path in other.keys() {
        if !is_same_at(leaves, other, path) {
            return false;
        }
    }
    true
}

/// Whether two maps have the same leaves but for the stage's.
pub fn are_same_leaves(leaves: &BTreeMap<Path, Leaf>, other: &BTreeMap<Path, Leaf>) -> bool
    ensures { IsTrue result ↔ (remove (leaves_of leaves.now) stage ≡ remove (leaves_of other.now) stage) }
{
    are_same_at_paths(leaves, other) && are_same_at_paths(other, leaves)
}
