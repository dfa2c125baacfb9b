//! The texts that are read of accounts, and what is judged of them before what is remembered.
ghost use Rattle.std.specs.Prelude.{◌≡◌, Ok, Some, IfOk, IsErrOf, OnOk, option_map};
ghost use Rattle.host_trait.specs.declared.tree.HostFault.TheVariants.{Device};
ghost use Rattle.host_trait.specs.Host.{Told};
ghost use Rattle.host_trait.specs.Reading.{IsReading};
ghost use Rattle.switch_parts.specs.declared.plan_fault.PlanFault.TheVariants.{Host};
ghost use Rattle.tree_put.specs.Found.{AreFound};
ghost use Rattle.users_spec.specs.Spec.{accounts_of};
ghost use Rattle.accounts_stage.specs.All.{AreSoundTables};
ghost use Rattle.accounts_stage.specs.Answer.{Answers, spec_fault, spec_refusal};
ghost use Rattle.accounts_stage.specs.Judging.{IsJudged, first_refusal};
ghost use Rattle.accounts_stage.specs.Lengths.{account_texts, text_past, texts_long};

use crate::memory::{MemoryTexts, read_memory};
use crate::places::spec_path;
use crate::reading::{TableTexts, read_texts, tables_of};
use crate::rows::texts_past;
use account_text::Tables;
use host_trait::{HostFault, Tree};
use leaf_limits::{LEAF_MAX, content_past, past};
use std::alloc::Global;
use std::collections::BTreeMap;
use switch_names::{Bytes, Path, SystemName};
use switch_parts::{PlanFault, Refusal, What, refuse, too_many};
use tree_put::{Found, find_content};
use users_spec::{Spec, SpecFault};

/// How many bytes a text has, where it has too many.
fn text_past(text: &Bytes) -> Option<u64>
    ensures { result ≡ text_past text.now }
{
    past(LEAF_MAX, text.as_slice().len() as u64)
}

/// The texts that are read of accounts before anything is judged.
pub struct AccountTexts {
    /// The specification of a system, where it has one.
    pub spec: Option<Bytes>,
    /// The texts of the three tables.
    pub tables: TableTexts,
    /// The texts of what is remembered of accounts.
    pub memory: MemoryTexts,
}

/// One call: a derived drop is proved anew in each function that lets one go.
impl Drop for AccountTexts {
    fn drop(self) {
        let AccountTexts {
            spec: _,
            tables: _,
            memory: _,
        } = self;
    }
}

impl AccountTexts {
    /// How long the first of them is that is too long, in the byte order of their places.
    pub fn long(&self) -> Option<u64>
        ensures { result ≡ texts_long self.now }
    {
        let gids = content_past(&self.memory.gids);
        let maps = gids.or(content_past(&self.memory.uids));
        let users = text_past(&self.memory.users).or(maps);
        let memory = text_past(&self.memory.groups).or(users);
        let spec = content_past(&self.spec).or(memory);
        let shadow = text_past(&self.tables.shadow).or(spec);
        let passwd = text_past(&self.tables.passwd).or(shadow);
        text_past(&self.tables.group).or(passwd)
    }
}

/// What such texts say.
pub struct Judged {
    /// The accounts that the system declares, where it does.
    pub spec: Option<Spec>,
    /// The three tables.
    pub tables: Tables,
}

/// One call: a derived drop is proved anew in each function that lets one go.
impl Drop for Judged {
    fn drop(self) {
        let Judged { spec: _, tables: _ } = self;
    }
}

impl Judged {
    /// The specification, and the tables.
    pub fn into_parts(self) -> (Option<Spec>, Tables)
        ensures { result ≡ (self.spec, self.tables) }
    {
        let Judged { spec, tables } = self;
        (spec, tables)
    }
}

/// Reads the specification of a system, the three tables and what is remembered of accounts, each once: what was found is
/// taken out of the notes.
pub fn read_account_texts<T: Tree>(
    alloc: Global,
    host: &mut T,
    findings: &mut BTreeMap<Path, Found>,
    system: &SystemName,
) -> Result<AccountTexts, HostFault>
    requires found { Told (T.host host.old) (λ w. AreFound w.leaves findings.old) }
    ensures texts { IfOk result (λ texts. Told (T.host host.old) (λ w. texts ≡ account_texts system.now w.leaves)) }
    ensures others { OnOk result (Told (T.host host.old) (λ w. AreFound w.leaves findings.new)) }
    ensures reads { IsReading (T.host host.old) (T.host host.new) result }
{
    let at = spec_path(alloc, system)?;
    let spec = find_content(alloc, host, findings, &at)?;
    let tables = read_texts(alloc, host, findings)?;
    let memory = read_memory(alloc, host, findings)?;
    Ok(AccountTexts {
        spec,
        tables,
        memory,
    })
}

/// What comes of a fault of a specification.
fn spec_fault(fault: SpecFault) -> PlanFault
    ensures { result ≡ spec_fault fault }
{
    match fault {
        SpecFault::Memory => PlanFault::Host(HostFault::Memory),
        fault => PlanFault::Refused(Refusal::UsersSpec(fault)),
    }
}

/// The specification of these bytes.
fn spec_of(alloc: Global, bytes: &Bytes) -> Result<Spec, PlanFault>
    ensures spec { Answers (spec_refusal (Some (accounts_of bytes.now))) (λ spec. accounts_of bytes.now ≡ Ok spec) result }
    ensures cause { IsErrOf result (Host Device) → ⊥ }
{
    match Spec::read(alloc, bytes.as_slice()) {
        Ok(spec) => Ok(spec),
        Err(fault) => Err(spec_fault(fault)),
    }
}

/// The specification of a system, where it has one.
fn spec_in(alloc: Global, bytes: &Option<Bytes>) -> Result<Option<Spec>, PlanFault>
    ensures spec { Answers (spec_refusal (option_map accounts_of bytes.now)) (λ spec. option_map accounts_of bytes.now ≡ option_map Ok spec) result }
    ensures cause { IsErrOf result (Host Device) → ⊥ }
{
    match bytes {
        Some(bytes) => Ok(Some(spec_of(alloc, bytes)?)),
        None => Ok(None),
    }
}

/// What texts say: the lines of the tables are counted first, then the specification is read, and then the tables.
pub fn judge(alloc: Global, texts: &AccountTexts) -> Result<Judged, PlanFault>
    ensures judged { Answers (first_refusal texts.now) (IsJudged texts.now) result }
    ensures sound { IfOk result (λ judged. AreSoundTables judged.tables) }
    ensures cause { IsErrOf result (Host Device) → ⊥ }
{
    refuse(too_many(What::Rows, texts_past(&texts.tables)))?;
    let spec = spec_in(alloc, &texts.spec)?;
    let tables = tables_of(alloc, &texts.tables)?;
    Ok(Judged { spec, tables })
}
