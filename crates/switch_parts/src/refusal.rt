//! Why a command is refused.
ghost use Rattle.std.specs.Prelude.{◌≡◌};
ghost use Rattle.switch_parts.specs.Limits.{long_refusal, too_many};

use leaf_limits::{TooLong, count_noted};
use switch_names::{Path, Text, UnitName};
use thiserror::Error;
use users_spec::SpecFault;

/// A table of accounts.
#[derive(Clone, Copy, Debug, PartialEq, Eq)]
pub enum TableFile {
    /// The groups, at `etc/group`.
    Group,
    /// The users, at `etc/passwd`.
    Passwd,
    /// The passwords of the users, at `etc/shadow`.
    Shadow,
}

/// A map of the ids that accounts had.
#[derive(Clone, Copy, Debug, PartialEq, Eq)]
pub enum MapFile {
    /// The ids of users, at `var/lib/nixos/uid-map`.
    Uid,
    /// The ids of groups, at `var/lib/nixos/gid-map`.
    Gid,
}

/// What there can be too much of.
#[derive(Clone, Copy, Debug, PartialEq, Eq)]
pub enum What {
    /// Units with a text of their own in one system, those of its fstab included: at most 16,384.
    Units,
    /// Entries below `/etc` of one system: at most 131,072.
    Entries,
    /// Rows of one account table: at most 65,536.
    Rows,
    /// Bytes of one content: at most 16 MiB.
    LeafBytes,
}

/// Why a command is refused. Nothing was put then, and nothing changed.
#[derive(Debug, Drop, Error)]
pub enum Refusal {
    /// A rollback has no goal: none is recorded, and no generation below the current one names a system.
    #[error("no previous generation")]
    NoPrevious,
    /// The system has no readable `nixos-version`.
    #[error("no such system")]
    NoSystem,
    /// There is too much of something that the command would read or write.
    #[error("there is too much of something")]
    TooMany {
        /// What there is too much of.
        what: What,
        /// How much there is.
        count: u64,
    },
    /// A leaf stands strictly above or below this place, which the command writes; or one without content stands at it, where
    /// the command reads it first. Of such places the first in byte order is named.
    #[error("a leaf is in the way")]
    InTheWay(Path),
    /// A file of this unit of the new system can't be read.
    #[error("a unit file can't be read")]
    UnitText {
        /// The first such unit in byte order.
        unit: UnitName,
        /// The line of the first fault of its files, in the order in which they are applied.
        line: u32,
    },
    /// The account specification of the new system can't be read. The fault is never want of memory.
    #[error("the account specification can't be read")]
    UsersSpec(SpecFault),
    /// A line of an account table is no row of it.
    #[error("an account table can't be read")]
    Table {
        /// The first such table: of the groups, of the users, of their passwords.
        file: TableFile,
        /// The first such line.
        line: u32,
    },
    /// A map of remembered ids is no map of ids. The users' is sought before the groups'.
    #[error("a map of ids can't be read")]
    IdMap(MapFile),
    /// No id is free for the declared account of this name.
    #[error("no id is free for an account")]
    NoFreeId(Text),
    /// The group of a declared user is neither declared nor in the table of groups that results.
    #[error("the group of a user is unknown")]
    UnknownGroup {
        /// The name of the user.
        user: Text,
        /// The name of its group.
        group: Text,
    },
    /// The first name of this entry of the new system's etc is one that a switch keeps for itself.
    #[error("a name is reserved")]
    Reserved(Path),
    /// This entry of the new system's etc can't be placed.
    #[error("an entry can't be placed")]
    EtcEntry(Path),
    /// An owner of this entry of the new system's etc is neither an id nor the name of an account.
    #[error("an owner is unknown")]
    Owner(Path),
    /// The highest generation has the last number and names another system.
    #[error("no further generation")]
    GenerationsFull,
    /// The machine starts up, and its profile names no system.
    #[error("no profile")]
    NoProfile,
    /// A collection is asked for while a switch or a rollback that was cut has something left to do.
    #[error("a switch is unfinished")]
    Unfinished,
}

/// The refusal of a count that is past the greatest, where there is one.
pub fn too_many(what: What, past: Option<u64>) -> Option<Refusal>
    ensures { result ≡ too_many what past }
{
    past.map(|count| Refusal::TooMany { what, count })
}

/// The refusal of a content that is too long, where there is one.
pub fn long_refusal(long: &Option<TooLong>) -> Option<Refusal>
    ensures { result ≡ long_refusal long.now }
{
    too_many(What::LeafBytes, count_noted(long))
}
