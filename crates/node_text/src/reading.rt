//! Reading a leaf.
ghost use Rattle.std.specs.Prelude.{◌≡◌, ◌≤◌, [], ◌∷◌, length, take, IfSome, IfNone, IfOk, IfErr};
ghost use Rattle.host_trait.specs.declared.leaf.LeafKind.{LeafKind};
ghost use Rattle.node_text.specs.Node.{blank, node_of, IsNodeOf, IsEncoded, IsReadAs, IsFaultOf};
ghost use Rattle.node_text.specs.Fields.{Gives, GivesLeaf, file_at, link_at};

use crate::fault::NodeFault;
use crate::fields::{mode_at, number_at, target_at};
use host_trait::Leaf;
use std::alloc::Global;
use switch_names::Bytes;

/// A file behind its tag: its mode, its owners and its bytes.
#[tactic(auto, unfolding(crate::specs::Fields::file_at))]
fn file_at(bytes: &[u8]) -> Result<(u16, u32, u32, &[u8]), usize>
    ensures read { Gives (λ x. LeafKind.File x.3.now x.0 x.1 x.2) result (file_at bytes.now) }
    ensures low { IfOk result (λ x. x.0 ≤ 4095) }
{
    let (mode, rest) = mode_at(bytes)?;
    let (uid, rest) = number_at(rest, b' ')?;
    let (gid, rest) = number_at(rest, b'\n')?;
    Ok((mode, uid, gid, rest))
}

/// The target of a link behind its tag.
#[tactic(auto, unfolding(crate::specs::Fields::link_at))]
fn link_at(bytes: &[u8]) -> Result<&[u8], usize>
    ensures { Gives (λ target. LeafKind.Link target.now) result (link_at bytes.now) }
{
    let (target, rest) = target_at(bytes)?;
    if rest.is_empty() {
        Ok(target)
    } else {
        Err(rest.len())
    }
}

/// Reads a file behind its tag.
fn read_file(alloc: Global, text: &[u8], fields: &[u8]) -> Result<Leaf, NodeFault>
    requires { length fields.now ≤ length text.now }
    ensures { GivesLeaf result text.now (file_at fields.now) }
{
    match file_at(fields) {
        Ok((mode, uid, gid, bytes)) => {
            Ok(Leaf::file(Bytes::from_slice(alloc, bytes)?, mode, uid, gid))
        }
        Err(left) => Err(NodeFault::Header(text.len() - left)),
    }
}

/// Reads a link behind its tag.
fn read_link(alloc: Global, text: &[u8], fields: &[u8]) -> Result<Leaf, NodeFault>
    requires { length fields.now ≤ length text.now }
    ensures { GivesLeaf result text.now (link_at fields.now) }
{
    let target = match link_at(fields) {
        Ok(target) => target,
        Err(left) => return Err(NodeFault::Header(text.len() - left)),
    };
    let Ok(target) = std::str::from_utf8(target) else {
        return Err(NodeFault::Utf8);
    };
    // A target that was read has none of the other faults.
    match Leaf::link(alloc, target) {
        Ok(leaf) => Ok(leaf),
        Err(_) => Err(NodeFault::Memory),
    }
}

/// The bytes after a tag and its blank.
fn after_tag(bytes: &[u8], tag: u8) -> Option<&[u8]>
    ensures some { IfSome result (λ fields. bytes.now ≡ tag ∷ blank ∷ fields.now) }
    ensures none { IfNone result (take 2 bytes.now ≡ tag ∷ blank ∷ [] → ⊥) }
{
    match bytes {
        [first, b' ', fields @ ..] if *first == tag => Some(fields),
        _ => None,
    }
}

/// Reads the text of a leaf.
///
/// The faults are sought in this order: `Tag`, `Header`, `Utf8`, `Memory`.
pub fn read_node(alloc: Global, bytes: &[u8]) -> Result<Leaf, NodeFault>
    ensures ok { IfOk result (λ leaf. bytes.now ≡ node_of leaf) }
    ensures again { (kind : LeafKind) → IsNodeOf bytes.now kind → IsEncoded kind → IsReadAs result kind }
    ensures fault { IfErr result (λ fault. IsFaultOf bytes.now fault) }
{
    if let Some(fields) = after_tag(bytes, b'F') {
        return read_file(alloc, bytes, fields);
    }
    if let Some(fields) = after_tag(bytes, b'L') {
        return read_link(alloc, bytes, fields);
    }
    Err(NodeFault::Tag)
}
