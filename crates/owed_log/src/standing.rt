//! The lists that stand in a tree.
ghost use Rattle.std.specs.Prelude.{◌≡◌, ◌↔◌, ◌≤◌, ◌+◌, [], Some, IsTrue, IfOk, OnOk};
ghost use Rattle.std.specs.FinMap.{get};
ghost use Rattle.host_trait.specs.Host.{Told};
ghost use Rattle.host_trait.specs.Reading.{IsReading};
ghost use Rattle.host_trait.specs.World.{Leaves, content_of};
ghost use Rattle.log_text.specs.Lists.{AreCounted, list_names, no_lists};
ghost use Rattle.tree_put.specs.Found.{AreFound, standing_of};
ghost use Rattle.owed_log.specs.Places.{log_place};
ghost use Rattle.owed_log.specs.Standing.{AreStanding, IsLogState};
ghost use Rattle.owed_log.specs.Writing.{IsFilled, IsPrepared, log_max};

use crate::log_write::{LOG_MAX, LogWrite};
use crate::places::log_path;
use host_trait::{HostFault, Tree};
use log_text::{Lists, Log, RECORD_ORDER, Which, lists_text, read_log};
use owed_lists::load;
use std::alloc::{AllocError, Global};
use std::collections::BTreeMap;
use std::mem;
use switch_names::Path;
use tree_put::{Found, Standing, find};

/// What stands at the place of the log.
#[derive(Clone, Copy, Debug, PartialEq, Eq)]
pub enum LogState {
    /// Nothing.
    Absent,
    /// A log of so many bytes, of blocks alone.
    Whole(usize),
    /// A log that is torn, or a link.
    Other,
}

/// The lists that stand in a tree, and what stands at the place of the log.
pub struct StandingLists {
    /// The lists: those of the log where its place has content, and else those of an older program.
    pub lists: Lists,
    /// What stands at the place of the log.
    pub log: LogState,
}

/// One call: a derived drop is proved anew in each function that lets one go.
impl Drop for StandingLists {
    fn drop(self) {
        let StandingLists { lists: _, log: _ } = self;
    }
}

/// The lists that a log gives.
fn lists_in(alloc: Global, log: Log) -> Lists
    ensures { result ≡ log.lists }
{
    let mut log = log;
    mem::replace(&mut log.lists, Lists::new(alloc))
}

impl StandingLists {
    /// The lists of a log of these bytes, given what stands at its place.
    fn of_log(alloc: Global, standing: Standing, bytes: &[u8]) -> Result<StandingLists, AllocError>
        ensures { (leaves : Leaves) → standing ≡ standing_of (get leaves log_place) → content_of leaves log_place ≡ Some bytes.now → IfOk result (AreStanding leaves) }
    {
        let log = read_log(alloc, bytes)?;
        let state = match standing {
            Standing::File if log.is_whole => LogState::Whole(bytes.len()),
            _ => LogState::Other,
        };
        Ok(StandingLists {
            lists: lists_in(alloc, log),
            log: state,
        })
    }

    /// Reads the lists of a tree. The leaves of an older program are looked at only where the place of the log has no content. A
    /// place at which something was found isn't read again; else it is read once, or twice where a link stands there.
    pub fn read<T: Tree>(
        alloc: Global,
        host: &mut T,
        findings: &mut BTreeMap<Path, Found>,
    ) -> Result<StandingLists, HostFault>
        requires found { Told (T.host host.old) (λ w. AreFound w.leaves findings.old) }
        ensures standing { IfOk result (λ standing. Told (T.host host.old) (λ w. AreStanding w.leaves standing)) }
        ensures others { OnOk result (Told (T.host host.old) (λ w. AreFound w.leaves findings.new)) }
        ensures reads { IsReading (T.host host.old) (T.host host.new) result }
    {
        let at = log_path(alloc)?;
        let found = find(alloc, host, findings, &at)?;
        let stands = found.standing;
        match found.into_content() {
            Some(bytes) => {
                let standing = StandingLists::of_log(alloc, stands, bytes.as_slice())?;
                Ok(standing)
            }
            None => {
                let lists = load(alloc, host, findings)?;
                let log = match stands {
                    Standing::Nothing => LogState::Absent,
                    Standing::File | Standing::Link => LogState::Other,
                };
                Ok(StandingLists { lists, log })
            }
        }
    }
}

impl LogState {
    /// What has to be written to record lists: nothing where they are empty and no log stands; else their text, which is appended
    /// to a whole log that stays within 64 KiB, and put in the place of what stands otherwise.
    pub fn prepare(self, alloc: Global, lists: &Lists) -> Result<LogWrite, AllocError>
        ensures prepared { (leaves : Leaves) → IsLogState leaves self → IfOk result (IsPrepared leaves lists.now) }
        ensures counted { OnOk result (AreCounted lists.now) }
        ensures filled { IfOk result IsFilled }
    {
        let text = lists_text(alloc, lists)?;
        match self {
            LogState::Absent => Ok(if are_empty(lists) {
                LogWrite::Nothing
            } else {
                LogWrite::Put(text)
            }),
            LogState::Whole(length) => Ok(if fits(length, text.as_slice().len()) {
                LogWrite::Append(text)
            } else {
                LogWrite::Put(text)
            }),
            LogState::Other => Ok(LogWrite::Put(text)),
        }
    }
}

/// Whether nothing is on one of the lists.
fn is_empty(lists: &Lists, which: Which) -> bool
    ensures { IsTrue result ↔ (list_names lists.now which ≡ []) }
{
    lists.of(which).as_slice().is_empty()
}

/// Whether nothing is on any of the lists.
fn are_empty(lists: &Lists) -> bool
    ensures { IsTrue result ↔ (lists.now ≡ no_lists) }
{
    for which in RECORD_ORDER {
        if !is_empty(lists, which) {
            return false;
        }
    }
    true
}

/// Whether a log of so many bytes doesn't become too long with so many more.
fn fits(length: usize, more: usize) -> bool
    ensures { IsTrue result ↔ (length + more ≤ log_max) }
{
    match length.checked_add(more) {
        Some(sum) => sum <= LOG_MAX,
        None => false,
    }
}
