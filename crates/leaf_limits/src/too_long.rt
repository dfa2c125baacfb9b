//! Contents that are too long.
ghost use Rattle.std.specs.Prelude.{◌≡◌, ◌<◌, ◌↔◌, ◌++◌, ◌∷◌, [], Bool, List, length, option_map, unwrap_or, IsTrue, IfOk, OnOk};
ghost use Rattle.host_trait.specs.Host.{Told};
ghost use Rattle.host_trait.specs.Reading.{IsReading};
ghost use Rattle.host_trait.specs.World.{Leaves, content_of};
ghost use Rattle.switch_names.specs.Names.{Name};
ghost use Rattle.leaf_limits.specs.declared.too_long.TooLong.{TooLong};
ghost use Rattle.leaf_limits.specs.Limits.{AreTaken, IsBefore, IsFirstOf, content_past, first_long, is_long_content, leaf_max, length_at, length_of, long_past};

use crate::counts::past;
use host_trait::{HostFault, Tree, content};
use std::alloc::{AllocError, Global};
use switch_names::{Bytes, Path};

/// The greatest length of a content that is read, in bytes: 16 MiB.
pub const LEAF_MAX: u64 = 16_777_216;

/// A content that is too long.
pub struct TooLong {
    /// Where it stands.
    pub at: Path,
    /// How many bytes it has.
    pub count: u64,
}

/// One call: a derived drop is proved anew in each function that lets one go.
impl Drop for TooLong {
    fn drop(self) {
        let TooLong { at: _, count: _ } = self;
    }
}

/// How many bytes a content has: none where there is none.
fn length_of(content: &Option<Bytes>) -> u64
    ensures { result ≡ length_of content.now }
{
    match content {
        Some(bytes) => bytes.as_slice().len() as u64,
        None => 0,
    }
}

/// Whether a content has more than `LEAF_MAX` bytes.
pub fn is_long(content: &Option<Bytes>) -> bool
    ensures { result ≡ is_long_content content.now }
{
    length_of(content) > LEAF_MAX
}

/// How many bytes a content has, where it has more than `LEAF_MAX`.
pub fn content_past(content: &Option<Bytes>) -> Option<u64>
    ensures { result ≡ content_past content.now }
{
    past(LEAF_MAX, length_of(content))
}

/// The first in byte order of two contents that are too long, where there are any. Of two at one place it is the one that is
/// told first.
pub fn first_long(one: Option<TooLong>, other: Option<TooLong>) -> Option<TooLong>
    ensures { result ≡ first_long one other }
{
    match (one, other) {
        (None, other) => other,
        (one, None) => one,
        (Some(one), Some(other)) => {
            if other.at < one.at {
                Some(other)
            } else {
                Some(one)
            }
        }
    }
}

/// Whether a place stands before the one that was found, where one was.
fn is_before(place: &Path, found: &Option<TooLong>) -> bool
    ensures { IsTrue result ↔ IsBefore place.now found.now }
{
    match found {
        Some(first) => place < &first.at,
        None => true,
    }
}

/// Notes a place whose content is too long, where it stands before the one that was found.
fn keep_first(
    alloc: Global,
    found: &mut Option<TooLong>,
    place: &Path,
    count: u64,
) -> Result<(), AllocError>
    ensures { (done : List Name) (leaves : Leaves) → count ≡ length_at leaves place.now → leaf_max < count → IsFirstOf done leaves found.old
        → OnOk result (IsFirstOf (done ++ place.now ∷ []) leaves found.new) }
{
    if !is_before(place, found) {
        return Ok(());
    }
    let at = place.copy(alloc)?;
    *found = Some(TooLong { at, count });
    Ok(())
}

/// The content at a place, as `host_trait::content` gives it. Where it has more than 16 MiB and the place stands before the one that
/// was noted, in byte order, the place is noted with its length. It reads the place once.
pub fn content_noted<T: Tree>(
    alloc: Global,
    host: &mut T,
    at: &Path,
    long: &mut Option<TooLong>,
) -> Result<Option<Bytes>, HostFault>
    ensures content { IfOk result (λ bytes. Told (T.host host.old) (λ w. bytes ≡ content_of w.leaves at.now)) }
    ensures noted { (done : List Name) → Told (T.host host.old) (λ w. IsFirstOf done w.leaves long.old → OnOk result (IsFirstOf (done ++ at.now ∷ []) w.leaves long.new)) }
    ensures reads { IsReading (T.host host.old) (T.host host.new) result }
{
    let content = content(alloc, host, at)?;
    let count = length_of(&content);
    if count > LEAF_MAX {
        keep_first(alloc, long, at, count)?;
    }
    Ok(content)
}

/// The length of the content that was noted, where one was.
pub fn count_noted(long: &Option<TooLong>) -> Option<u64>
    ensures { result ≡ option_map (λ (first : TooLong). first.count) long.now }
{
    match long {
        Some(first) => Some(first.count),
        None => None,
    }
}

/// The length of the first content in byte order that is too long, of those at some places.
///
/// It reads each place once.
pub fn long_past<T: Tree>(
    alloc: Global,
    host: &mut T,
    places: &[Path],
) -> Result<Option<u64>, HostFault>
    ensures past { IfOk result (λ past. (is_taken : Name → Bool) → Told (T.host host.old) (λ w. AreTaken places.now is_taken w.leaves → past ≡ long_past is_taken w.leaves)) }
    ensures reads { IsReading (T.host host.old) (T.host host.new) result }
{
    let mut long = None;
    for place in places {
        content_noted(alloc, host, place, &mut long)?;
    }
    Ok(count_noted(&long))
}
