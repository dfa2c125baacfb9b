//! What is put longer than can be read again.
ghost use Rattle.std.specs.Prelude.{◌≡◌, Some, IfOk};
ghost use Rattle.host_trait.specs.World.{file_bytes};
ghost use Rattle.leaf_limits.specs.Limits.{length_of};
ghost use Rattle.switch_parts.specs.Puts.{long_put, long_with};

use host_trait::{Leaf, LeafKind};
use leaf_limits::{LEAF_MAX, TooLong, first_long, past};
use std::alloc::{AllocError, Global};
use tree_put::LeafPut;

/// How many bytes a leaf has that is a file: a link has none.
fn file_length(leaf: &Leaf) -> u64
    ensures { result ≡ length_of (file_bytes (Some leaf.now)) }
{
    match leaf.kind() {
        LeafKind::File { bytes, .. } => bytes.as_slice().len() as u64,
        LeafKind::Link { .. } => 0,
    }
}

/// The file that a put puts, where it has more than `LEAF_MAX` bytes.
pub fn long_put(alloc: Global, put: &LeafPut) -> Result<Option<TooLong>, AllocError>
    ensures { IfOk result (λ long. long ≡ long_put put.now) }
{
    match past(LEAF_MAX, file_length(&put.leaf)) {
        Some(count) => {
            let at = put.at.copy(alloc)?;
            Ok(Some(TooLong { at, count }))
        }
        None => Ok(None),
    }
}

/// The first place in byte order where a file of more than `LEAF_MAX` bytes was found, or is put by one of these puts, with
/// its length, where there is one. Of one place it is what is put first.
pub fn long_with(
    alloc: Global,
    found: Option<TooLong>,
    puts: &[LeafPut],
) -> Result<Option<TooLong>, AllocError>
    ensures { IfOk result (λ long. long ≡ long_with found puts.now) }
{
    let mut first = found;
    for k in (0..puts.len()).rev() {
        let put = &puts[k];
        let long = long_put(alloc, put)?;
        first = first_long(long, first);
    }
    Ok(first)
}
