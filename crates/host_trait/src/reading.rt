//! What a path contains.
ghost use Rattle.std.specs.Prelude.{◌≡◌, IfOk};
ghost use Rattle.host_trait.specs.Host.{Told};
ghost use Rattle.host_trait.specs.Reading.{IsReading};
ghost use Rattle.host_trait.specs.World.{content_of, file_bytes, file_at, store_place};

use crate::leaf::{Leaf, LeafKind};
use crate::tree::{HostFault, Tree};
use std::alloc::{AllocError, Global};
use switch_names::{Bytes, Path};

/// Where the store lies, as a link's target begins that leads into it.
const STORE: &str = "/nix/store/";

/// The bytes of a leaf that is a file.
fn into_file_bytes(leaf: Option<Leaf>) -> Option<Bytes>
    ensures { result ≡ file_bytes leaf }
{
    match leaf?.into_kind() {
        LeafKind::File { bytes, .. } => Some(bytes),
        LeafKind::Link { .. } => None,
    }
}

/// The path in the store that a link's target names.
fn find_store_place(alloc: Global, target: &str) -> Result<Option<Path>, AllocError>
    ensures { IfOk result (λ place. place ≡ store_place target.now) }
{
    if !target.as_bytes().starts_with(STORE.as_bytes()) {
        return Ok(None);
    }
    let Some(place) = target.strip_prefix('/') else {
        return Ok(None);
    };
    Path::of_text(alloc, place)
}

/// The bytes of the file at a place, where there is one.
fn file_content<T: Tree>(
    alloc: Global,
    host: &mut T,
    place: Option<Path>,
) -> Result<Option<Bytes>, HostFault>
    ensures content { IfOk result (λ bytes. Told (T.host host.old) (λ w. bytes ≡ file_at w.leaves place)) }
    ensures reads { IsReading (T.host host.old) (T.host host.new) result }
{
    let Some(at) = place else {
        return Ok(None);
    };
    let leaf = host.read(alloc, &at)?;
    Ok(into_file_bytes(leaf))
}

/// The bytes of the file in the store that a link's target leads to.
pub fn store_content<T: Tree>(
    alloc: Global,
    host: &mut T,
    target: &str,
) -> Result<Option<Bytes>, HostFault>
    ensures content { IfOk result (λ bytes. Told (T.host host.old) (λ w. bytes ≡ file_at w.leaves (store_place target.now))) }
    ensures reads { IsReading (T.host host.old) (T.host host.new) result }
{
    let place = find_store_place(alloc, target)?;
    file_content(alloc, host, place)
}

/// The bytes of the file at a path, or of the file in the store that a link there leads to.
///
/// One link is followed, and only into the store.
pub fn content<T: Tree>(alloc: Global, host: &mut T, at: &Path) -> Result<Option<Bytes>, HostFault>
    ensures content { IfOk result (λ bytes. Told (T.host host.old) (λ w. bytes ≡ content_of w.leaves at.now)) }
    ensures reads { IsReading (T.host host.old) (T.host host.new) result }
{
    let Some(leaf) = host.read(alloc, at)? else {
        return Ok(None);
    };
    match leaf.into_kind() {
        LeafKind::File { bytes, .. } => Ok(Some(bytes)),
        LeafKind::Link { target } => store_content(alloc, host, target.as_str()),
    }
}
