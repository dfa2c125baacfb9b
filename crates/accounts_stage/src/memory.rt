//! Reads the ids that accounts had, and the names that were declared.
ghost use Rattle.std.specs.Prelude.{◌≡◌, Some, IfOk, IsErrOf, OnOk};
ghost use Rattle.std.specs.FinMap.{empty};
ghost use Rattle.std.specs.Option.{unwrap_or};
ghost use Rattle.host_trait.specs.declared.tree.HostFault.TheVariants.{Device};
ghost use Rattle.host_trait.specs.Host.{Told};
ghost use Rattle.host_trait.specs.Reading.{IsReading};
ghost use Rattle.switch_parts.specs.declared.plan_fault.PlanFault.TheVariants.{Host};
ghost use Rattle.tree_put.specs.Found.{AreFound};
ghost use Rattle.accounts_stage.specs.Answer.{Answers};
ghost use Rattle.accounts_stage.specs.Refusals.{ids_refusal, maps_refusal};
ghost use Rattle.accounts_stage.specs.Standing.{declared_of, ids_of, memory_in, remembered_of};

use crate::names::names_in;
use crate::places::{gids_path, groups_path, uids_path, users_path};
use crate::reading::bytes_at;
use host_trait::{HostFault, Tree};
use id_memory::{IdFault, IdMap};
use std::alloc::{AllocError, Global};
use std::collections::BTreeMap;
use switch_names::{Bytes, Path};
use switch_parts::{MapFile, PlanFault, Refusal};
use tree_put::{Found, find_content};
use users_merge::{Declared, Remembered};

/// The texts of what is remembered of accounts.
pub struct MemoryTexts {
    /// The ids that users had.
    pub uids: Option<Bytes>,
    /// The ids that groups had.
    pub gids: Option<Bytes>,
    /// The names of users that were declared.
    pub users: Bytes,
    /// The names of groups that were declared.
    pub groups: Bytes,
}

/// One call: a derived drop is proved anew in each function that lets one go.
impl Drop for MemoryTexts {
    fn drop(self) {
        let MemoryTexts {
            uids: _,
            gids: _,
            users: _,
            groups: _,
        } = self;
    }
}

/// Reads the texts of what is remembered of accounts, of which those that were found are taken out of the notes.
pub fn read_memory<T: Tree>(
    alloc: Global,
    host: &mut T,
    findings: &mut BTreeMap<Path, Found>,
) -> Result<MemoryTexts, HostFault>
    requires found { Told (T.host host.old) (λ w. AreFound w.leaves findings.old) }
    ensures texts { IfOk result (λ texts. Told (T.host host.old) (λ w. texts ≡ memory_in w.leaves)) }
    ensures others { OnOk result (Told (T.host host.old) (λ w. AreFound w.leaves findings.new)) }
    ensures reads { IsReading (T.host host.old) (T.host host.new) result }
{
    let uids_path = uids_path(alloc)?;
    let gids_path = gids_path(alloc)?;
    let users_path = users_path(alloc)?;
    let groups_path = groups_path(alloc)?;
    let uids = find_content(alloc, host, findings, &uids_path)?;
    let gids = find_content(alloc, host, findings, &gids_path)?;
    let users = bytes_at(alloc, host, findings, &users_path)?;
    let groups = bytes_at(alloc, host, findings, &groups_path)?;
    Ok(MemoryTexts {
        uids,
        gids,
        users,
        groups,
    })
}

/// The ids that bytes give.
fn read_ids(alloc: Global, file: MapFile, bytes: &Bytes) -> Result<IdMap, PlanFault>
    ensures ids { Answers (ids_refusal file (Some bytes.now)) (λ ids. ids ≡ unwrap_or (ids_of (Some bytes.now)) empty) result }
    ensures cause { IsErrOf result (Host Device) → ⊥ }
{
    match IdMap::read(alloc, bytes.as_slice()) {
        Ok(ids) => Ok(ids),
        Err(IdFault::Form) => Err(PlanFault::Refused(Refusal::IdMap(file))),
        Err(IdFault::Memory) => Err(PlanFault::Host(HostFault::Memory)),
    }
}

/// The ids of a map: one that isn't there has none.
fn ids_of(alloc: Global, file: MapFile, text: &Option<Bytes>) -> Result<IdMap, PlanFault>
    ensures ids { Answers (ids_refusal file text.now) (λ ids. ids ≡ unwrap_or (ids_of text.now) empty) result }
    ensures cause { IsErrOf result (Host Device) → ⊥ }
{
    match text {
        Some(bytes) => read_ids(alloc, file, bytes),
        None => Ok(IdMap::none(alloc)),
    }
}

/// The ids that accounts had.
pub fn remembered_of(alloc: Global, texts: &MemoryTexts) -> Result<Remembered, PlanFault>
    ensures remembered { Answers (maps_refusal texts.now) (λ remembered. remembered ≡ remembered_of texts.now) result }
    ensures cause { IsErrOf result (Host Device) → ⊥ }
{
    let uids = ids_of(alloc, MapFile::Uid, &texts.uids)?;
    let gids = ids_of(alloc, MapFile::Gid, &texts.gids)?;
    Ok(Remembered { uids, gids })
}

/// The names that were declared.
pub fn declared_of(alloc: Global, texts: &MemoryTexts) -> Result<Declared, AllocError>
    ensures { IfOk result (λ declared. declared ≡ declared_of texts.now) }
{
    Ok(Declared {
        users: names_in(alloc, &texts.users)?,
        groups: names_in(alloc, &texts.groups)?,
    })
}
