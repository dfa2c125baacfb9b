//! What is wanted at a place below `/etc`.
use host_trait::Leaf;
use switch_names::{Path, Text};

/// How an entry is placed: NixOS manual, `environment.etc.<name>.mode`.
pub enum ItemKind {
    /// A link into the farm of links below `/etc/static`.
    Linked,
    /// A file of its own.
    Copied {
        /// The file, with its mode and its owners.
        leaf: Leaf,
    },
    /// A link that leads where the entry itself leads.
    Direct {
        /// Where that is, as it is written in the link.
        target: Text,
    },
}

/// One call: a derived drop is proved anew in each function that lets one go.
impl Drop for ItemKind {
    fn drop(self) {
        match self {
            ItemKind::Linked => {}
            ItemKind::Copied { leaf: _ } => {}
            ItemKind::Direct { target: _ } => {}
        }
    }
}

/// An entry of a system's etc.
pub struct Item {
    /// Where it stands, below `/etc`.
    pub place: Path,
    /// What is wanted there.
    pub kind: ItemKind,
}

/// One call: a derived drop is proved anew in each function that lets one go.
impl Drop for Item {
    fn drop(self) {
        let Item { place: _, kind: _ } = self;
    }
}
