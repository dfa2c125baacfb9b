//! Why what a system wants below `/etc` can't be read.
ghost use Rattle.std.specs.Prelude.{◌≡◌};
ghost use Rattle.host_trait.specs.declared.tree.HostFault.TheVariants.{Memory};
ghost use Rattle.etc_manifest.specs.declared.manifest_fault.ManifestFault.TheVariants.{Host};

use host_trait::HostFault;
use std::alloc::{AllocError, AllocFailed};
use switch_names::Path;
use thiserror::Error;

/// Why what a system wants below `/etc` can't be read.
///
/// That there are too many entries is sought before any of them is read. Else the first entry in byte
/// order that is refused is named, by its place below `/etc`. What is wrong with one entry is sought in
/// the order in which the variants stand here.
#[derive(Debug, Drop, Error)]
pub enum ManifestFault {
    /// There are more entries than 131,072.
    #[error("there are too many entries")]
    Many(u64),
    /// The entry's first name is one that a switch keeps for itself.
    #[error("a name is reserved")]
    Reserved(Path),
    /// The entry's mode is none, or the entry isn't what its mode wants: it or a companion has no
    /// content, or it is no link. Or the entry has a `.mode`, and its content or that of a companion is
    /// longer than 16 MiB.
    #[error("an entry can't be placed")]
    Entry(Path),
    /// An owner of the entry is neither an id nor the name of an account.
    #[error("an owner is unknown")]
    Owner(Path),
    /// A call on the host has failed.
    #[error("the host has failed")]
    Host(HostFault),
}

impl From<HostFault> for ManifestFault {
    ghost from_gives = { λ fault given. given ≡ Host fault };

    fn from(fault: HostFault) -> ManifestFault {
        ManifestFault::Host(fault)
    }
}

impl From<AllocError> for ManifestFault {
    ghost from_gives = { λ _ given. given ≡ Host Memory };

    fn from(_error: AllocError) -> ManifestFault {
        ManifestFault::Host(HostFault::Memory)
    }
}

impl<T: Drop> From<AllocFailed<T>> for ManifestFault {
    ghost from_gives = { λ _ given. given ≡ Host Memory };

    fn from(_error: AllocFailed<T>) -> ManifestFault {
        ManifestFault::Host(HostFault::Memory)
    }
}
