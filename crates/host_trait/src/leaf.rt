//! What stands at a path: a file or a link.
ghost use Rattle.std.specs.Prelude.{◌≡◌, ◌≤◌, ◌↔◌, IfOk, IsTrue, position};
ghost use Rattle.switch_names.specs.NameFault.{IsRefusedBy};
ghost use Rattle.switch_names.specs.Path.{is_no_path_byte};
ghost use Rattle.host_trait.specs.Leaf.{link_fault, open_file};

use std::alloc::{AllocError, Global};
use std::marker::Model;
use switch_names::{Bytes, NameFault, Text};

/// The greatest mode of a file: set-user-id, set-group-id, sticky, and nine bits of permission.
pub const MODE_MAX: u16 = 4095;

/// The most bytes of a link's target.
const TARGET_MAX: usize = 4096;

/// A file or a link, with what belongs to it.
#[derive(Drop)]
pub enum LeafKind {
    /// A regular file.
    File {
        /// What it contains.
        bytes: Bytes,
        /// Its permission bits, at most octal 7777.
        mode: u16,
        /// Its owner.
        uid: u32,
        /// Its group.
        gid: u32,
    },
    /// A symbolic link.
    Link {
        /// Where it leads, as it is written in the link.
        target: Text,
    },
}

/// What stands at a path. Contracts see its kind.
pub struct Leaf {
    kind: LeafKind,
}

/// One call: a derived drop is proved anew in each function that lets one go.
impl Drop for Leaf {
    fn drop(self) {
        let Leaf { kind: _ } = self;
    }
}

impl Model for Leaf {
    ghost use Rattle.host_trait.specs.declared.leaf.LeafKind.{LeafKind};
    ghost use Rattle.host_trait.specs.Leaf.{IsLeaf};

    ghost Value = { LeafKind };

    ghost view = { λ leaf. leaf.kind };

    ghost invariant = { λ leaf. IsLeaf leaf.kind };
}

/// The place of the first byte that stands in no link's target.
fn first_no_target_byte(bytes: &[u8]) -> Option<usize>
    ensures { result ≡ position is_no_path_byte bytes.now }
{
    bytes.iter().position(|byte| *byte == 0 || *byte == b'\n')
}

/// What keeps a text from being a link's target.
fn fault_of(target: &str) -> Option<NameFault>
    ensures { result ≡ link_fault target.now }
{
    if target.is_empty() {
        Some(NameFault::Empty)
    } else if target.len() > TARGET_MAX {
        Some(NameFault::Long)
    } else if let Some(at) = first_no_target_byte(target.as_bytes()) {
        Some(NameFault::Byte(at))
    } else {
        None
    }
}

impl Leaf {
    ghost use Rattle.host_trait.specs.Leaf.{IsLeaf};
    ghost use Rattle.host_trait.specs.World.{extended};

    /// This file with more bytes at its end, or this link.
    pub fn longer(&self, alloc: Global, more: &[u8]) -> Result<Leaf, AllocError>
        ensures { IfOk result (λ leaf. leaf ≡ extended self.now more.now) }
    {
        match self.kind() {
            LeafKind::File {
                bytes,
                mode,
                uid,
                gid,
            } => {
                let mut all = Vec::new(alloc);
                all.extend_from_slice(bytes.as_slice())?;
                all.extend_from_slice(more)?;
                Ok(Leaf::file(Bytes::from_vec(all), *mode, *uid, *gid))
            }
            LeafKind::Link { target: _ } => self.copy(alloc),
        }
    }

    /// A file with these bytes, this mode and these owners.
    pub fn file(bytes: Bytes, mode: u16, uid: u32, gid: u32) -> Leaf
        requires { mode ≤ 4095 }
        ensures { result ≡ LeafKind.File bytes mode uid gid }
    {
        Leaf {
            kind: LeafKind::File {
                bytes,
                mode,
                uid,
                gid,
            },
        }
    }

    /// A file with these bytes that all may read and root alone may write: mode 0644, owned by root.
    pub fn open_file(bytes: Bytes) -> Leaf
        ensures { result ≡ open_file bytes }
    {
        Leaf::file(bytes, 0o644, 0, 0)
    }

    /// A link to a target that is short and has neither NUL nor line feed. Another one counts as want of memory.
    pub fn short_link(alloc: Global, target: &str) -> Result<Leaf, AllocError>
        ensures { IfOk result (λ leaf. leaf ≡ LeafKind.Link target.now) }
    {
        Leaf::link(alloc, target).map_err(|_fault: NameFault| AllocError)
    }

    /// A link to this target.
    ///
    /// The faults are sought in this order: `Empty`, `Long` (more than 4,096 bytes), `Byte` (the
    /// first NUL or line feed), `Memory`.
    pub fn link(alloc: Global, target: &str) -> Result<Leaf, NameFault>
        ensures ok { IfOk result (λ leaf. leaf ≡ LeafKind.Link target.now) }
        ensures fault { IsRefusedBy result (link_fault target.now) }
    {
        if let Some(fault) = fault_of(target) {
            return Err(fault);
        }
        Ok(Leaf {
            kind: LeafKind::Link {
                target: Text::from_str(alloc, target)?,
            },
        })
    }

    /// What stands there, lent.
    pub fn kind(&self) -> &LeafKind
        ensures kind { result.now ≡ self.now }
        ensures is_leaf { IsLeaf self.now }
    {
        &self.kind
    }

    /// What stands there, as its parts.
    pub fn into_kind(self) -> LeafKind
        ensures kind { result ≡ self }
        ensures is_leaf { IsLeaf self }
    {
        let Leaf { kind } = self;
        kind
    }

    /// Whether the two are equal in all that belongs to them.
    pub fn same(&self, other: &Leaf) -> bool
        ensures { IsTrue result ↔ (self.now ≡ other.now) }
    {
        is_same_kind(&self.kind, &other.kind)
    }

    /// An equal leaf.
    pub fn copy(&self, alloc: Global) -> Result<Leaf, AllocError>
        ensures { IfOk result (λ copied. copied ≡ self.now) }
    {
        Ok(Leaf {
            kind: copy_kind(alloc, &self.kind)?,
        })
    }
}

fn is_same_kind(kind: &LeafKind, other: &LeafKind) -> bool
    ensures { IsTrue result ↔ (kind.now ≡ other.now) }
{
    match (kind, other) {
        (
            LeafKind::File {
                bytes,
                mode,
                uid,
                gid,
            },
            LeafKind::File {
                bytes: other_bytes,
                mode: other_mode,
                uid: other_uid,
                gid: other_gid,
            },
        ) => {
            mode == other_mode
                && uid == other_uid
                && gid == other_gid
                && bytes.as_slice() == other_bytes.as_slice()
        }
        (
            LeafKind::Link { target },
            LeafKind::Link {
                target: other_target,
            },
        ) => { target.as_str() == other_target.as_str() }
        _ => false,
    }
}

fn copy_kind(alloc: Global, kind: &LeafKind) -> Result<LeafKind, AllocError>
    ensures { IfOk result (λ copied. copied ≡ kind.now) }
{
    match kind {
        LeafKind::File {
            bytes,
            mode,
            uid,
            gid,
        } => Ok(LeafKind::File {
            bytes: bytes.copy(alloc)?,
            mode: *mode,
            uid: *uid,
            gid: *gid,
        }),
        LeafKind::Link { target } => Ok(LeafKind::Link {
            target: target.copy(alloc)?,
        }),
    }
}
