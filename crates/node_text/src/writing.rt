//! Writing a leaf.
ghost use Rattle.std.specs.Prelude.{◌≡◌, ◌≤◌, ◌++◌, IfOk, OnOk};
ghost use Rattle.host_trait.specs.declared.leaf.LeafKind.{LeafKind};
ghost use Rattle.node_text.specs.Node.{node_of, octal};

use host_trait::{Leaf, LeafKind};
use std::alloc::{AllocError, Global};
use switch_names::Bytes;

/// The four octal digits of a mode.
fn octal(mode: u16) -> [u8; 4]
    requires { mode ≤ 4095 }
    ensures { result ≡ octal mode }
{
    [
        b'0' + (mode / 512) as u8,
        b'0' + (mode / 64 % 8) as u8,
        b'0' + (mode / 8 % 8) as u8,
        b'0' + (mode % 8) as u8,
    ]
}

/// Writes a file after a text.
fn push_file(
    alloc: Global,
    text: &mut Vec<u8>,
    bytes: &[u8],
    mode: u16,
    uid: u32,
    gid: u32,
) -> Result<(), AllocError>
    requires { mode ≤ 4095 }
    ensures { OnOk result (text.new.items ≡ text.old.items ++ node_of (LeafKind.File bytes.now mode uid gid)) }
{
    text.extend_from_slice(b"F ")?;
    text.extend_from_slice(&octal(mode))?;
    text.extend_from_slice(format!(in alloc; " {uid} {gid}\n")?.as_bytes())?;
    text.extend_from_slice(bytes)?;
    Ok(())
}

/// Writes a link after a text.
fn push_link(text: &mut Vec<u8>, target: &str) -> Result<(), AllocError>
    ensures { OnOk result (text.new.items ≡ text.old.items ++ node_of (LeafKind.Link target.now)) }
{
    text.extend_from_slice(b"L ")?;
    text.extend_from_slice(target.as_bytes())?;
    text.push(b'\n')?;
    Ok(())
}

/// The text of a leaf.
pub fn write_node(alloc: Global, leaf: &Leaf) -> Result<Bytes, AllocError>
    ensures { IfOk result (λ text. text ≡ node_of leaf.now) }
{
    let mut text = Vec::new(alloc);
    match leaf.kind() {
        LeafKind::File {
            bytes,
            mode,
            uid,
            gid,
        } => push_file(alloc, &mut text, bytes.as_slice(), *mode, *uid, *gid)?,
        LeafKind::Link { target } => push_link(&mut text, target.as_str())?,
    }
    Ok(Bytes::from_vec(text))
}
