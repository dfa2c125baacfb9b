//! Reads the account tables.
ghost use Rattle.std.specs.Prelude.{◌≡◌, [], None, Some, IfOk, IsErrOf, OnOk};
ghost use Rattle.std.specs.Option.{unwrap_or};
ghost use Rattle.account_text.specs.Group.{IsSoundGroup, group_name, group_row};
ghost use Rattle.account_text.specs.Passwd.{IsSoundPasswd, passwd_name, passwd_row};
ghost use Rattle.account_text.specs.Shadow.{IsSoundShadow, shadow_name, shadow_row};
ghost use Rattle.account_text.specs.Table.{rows_of, wrong_line};
ghost use Rattle.host_trait.specs.declared.tree.HostFault.TheVariants.{Device};
ghost use Rattle.host_trait.specs.Host.{Told};
ghost use Rattle.host_trait.specs.Reading.{IsReading, IsReadingOf};
ghost use Rattle.switch_parts.specs.declared.plan_fault.PlanFault.TheVariants.{Host, Refused};
ghost use Rattle.switch_parts.specs.declared.refusal.Refusal.{Refusal};
ghost use Rattle.switch_parts.specs.declared.refusal.TableFile.TheVariants.{Group, Passwd, Shadow};
ghost use Rattle.tree_put.specs.Found.{AreFound};
ghost use Rattle.accounts_stage.specs.Refusals.{table_refusal, texts_refusal, wrong_table};
ghost use Rattle.accounts_stage.specs.Answer.{Answers, table_fault};
ghost use Rattle.accounts_stage.specs.Standing.{bytes_at, tables_in, tables_of, texts_in};

use crate::places::{group_path, passwd_path, shadow_path};
use account_text::{
    GroupRow, PasswdRow, RowFault, ShadowRow, Tables, read_group, read_passwd, read_shadow,
};
use host_trait::{HostFault, Tree};
use std::alloc::Global;
use std::collections::BTreeMap;
use switch_names::{Bytes, Listed, Path};
use switch_parts::{PlanFault, Refusal, TableFile};
use tree_put::{Found, find_content, nothing_found};

/// The texts of the three tables.
pub struct TableTexts {
    /// The groups.
    pub group: Bytes,
    /// The user accounts.
    pub passwd: Bytes,
    /// The passwords.
    pub shadow: Bytes,
}

/// One call: a derived drop is proved anew in each function that lets one go.
impl Drop for TableTexts {
    fn drop(self) {
        let TableTexts {
            group: _,
            passwd: _,
            shadow: _,
        } = self;
    }
}

/// These bytes, or none.
fn bytes_or_none(alloc: Global, bytes: Option<Bytes>) -> Bytes
    ensures { result ≡ unwrap_or bytes [] }
{
    match bytes {
        Some(bytes) => bytes,
        None => Bytes::from_vec(Vec::new(alloc)),
    }
}

/// The bytes at a place: none where nothing stands. What was found there is taken out of the notes.
pub fn bytes_at<T: Tree>(
    alloc: Global,
    host: &mut T,
    findings: &mut BTreeMap<Path, Found>,
    at: &Path,
) -> Result<Bytes, HostFault>
    requires found { Told (T.host host.old) (λ w. AreFound w.leaves findings.old) }
    ensures bytes { IfOk result (λ bytes. Told (T.host host.old) (λ w. bytes ≡ bytes_at w.leaves at.now)) }
    ensures others { OnOk result (Told (T.host host.old) (λ w. AreFound w.leaves findings.new)) }
    ensures reads { IsReading (T.host host.old) (T.host host.new) result }
{
    let bytes = find_content(alloc, host, findings, at)?;
    Ok(bytes_or_none(alloc, bytes))
}

/// Reads the texts of the three tables, of which those that were found are taken out of the notes.
pub fn read_texts<T: Tree>(
    alloc: Global,
    host: &mut T,
    findings: &mut BTreeMap<Path, Found>,
) -> Result<TableTexts, HostFault>
    requires found { Told (T.host host.old) (λ w. AreFound w.leaves findings.old) }
    ensures texts { IfOk result (λ texts. Told (T.host host.old) (λ w. texts ≡ texts_in w.leaves)) }
    ensures others { OnOk result (Told (T.host host.old) (λ w. AreFound w.leaves findings.new)) }
    ensures reads { IsReading (T.host host.old) (T.host host.new) result }
{
    let group_path = group_path(alloc)?;
    let passwd_path = passwd_path(alloc)?;
    let shadow_path = shadow_path(alloc)?;
    let group = bytes_at(alloc, host, findings, &group_path)?;
    let passwd = bytes_at(alloc, host, findings, &passwd_path)?;
    let shadow = bytes_at(alloc, host, findings, &shadow_path)?;
    Ok(TableTexts {
        group,
        passwd,
        shadow,
    })
}

/// What comes of a fault of a table.
fn table_fault(file: TableFile, fault: RowFault) -> PlanFault
    ensures { result ≡ table_fault file fault }
{
    match fault {
        RowFault::Line(line) => PlanFault::Refused(Refusal::Table { file, line }),
        RowFault::Memory => PlanFault::Host(HostFault::Memory),
    }
}

/// The groups of a table.
fn group_rows(alloc: Global, text: &Bytes) -> Result<Listed<GroupRow>, PlanFault>
    ensures rows { Answers (wrong_table Group (wrong_line group_row text.now)) (λ rows. rows ≡ rows_of group_row group_name text.now) result }
    ensures sound { IfOk result IsSoundGroup }
    ensures cause { IsErrOf result (Host Device) → ⊥ }
{
    match read_group(alloc, text.as_slice()) {
        Ok(rows) => Ok(rows),
        Err(fault) => Err(table_fault(TableFile::Group, fault)),
    }
}

/// The users of a table.
fn passwd_rows(alloc: Global, text: &Bytes) -> Result<Listed<PasswdRow>, PlanFault>
    ensures rows { Answers (wrong_table Passwd (wrong_line passwd_row text.now)) (λ rows. rows ≡ rows_of passwd_row passwd_name text.now) result }
    ensures sound { IfOk result IsSoundPasswd }
    ensures cause { IsErrOf result (Host Device) → ⊥ }
{
    match read_passwd(alloc, text.as_slice()) {
        Ok(rows) => Ok(rows),
        Err(fault) => Err(table_fault(TableFile::Passwd, fault)),
    }
}

/// The passwords of a table.
fn shadow_rows(alloc: Global, text: &Bytes) -> Result<Listed<ShadowRow>, PlanFault>
    ensures rows { Answers (wrong_table Shadow (wrong_line shadow_row text.now)) (λ rows. rows ≡ rows_of shadow_row shadow_name text.now) result }
    ensures sound { IfOk result IsSoundShadow }
    ensures cause { IsErrOf result (Host Device) → ⊥ }
{
    match read_shadow(alloc, text.as_slice()) {
        Ok(rows) => Ok(rows),
        Err(fault) => Err(table_fault(TableFile::Shadow, fault)),
    }
}

/// The tables of these texts.
pub fn tables_of(alloc: Global, texts: &TableTexts) -> Result<Tables, PlanFault>
    ensures tables { Answers (texts_refusal texts.now) (λ tables. tables ≡ tables_of texts.now) result }
    ensures sound { IfOk result (λ tables. IsSoundGroup tables.group × IsSoundPasswd tables.passwd × IsSoundShadow tables.shadow) }
    ensures cause { IsErrOf result (Host Device) → ⊥ }
{
    let group = group_rows(alloc, &texts.group)?;
    let passwd = passwd_rows(alloc, &texts.passwd)?;
    let shadow = shadow_rows(alloc, &texts.shadow)?;
    Ok(Tables {
        group,
        passwd,
        shadow,
    })
}

/// Reads the three tables, and changes nothing.
///
/// It is refused with `Table` at the first line that is no row, in the order group, passwd, shadow.
///
/// Source: group(5), passwd(5), shadow(5).
pub fn read_tables<T: Tree>(alloc: Global, host: &mut T) -> Result<Tables, PlanFault>
    ensures tables { IfOk result (λ tables. Told (T.host host.old) (λ w. tables ≡ tables_in w.leaves)) }
    ensures not_refused { OnOk result (Told (T.host host.old) (λ w. table_refusal w.leaves ≡ None)) }
    ensures sound { IfOk result (λ tables. IsSoundGroup tables.group × IsSoundPasswd tables.passwd × IsSoundShadow tables.shadow) }
    ensures refused { (why : Refusal) → IsErrOf result (Refused why) → Told (T.host host.old) (λ w. table_refusal w.leaves ≡ Some why) }
    ensures reads { IsReadingOf (T.host host.old) (T.host host.new) (IsErrOf result (Host Device)) }
{
    let mut findings = nothing_found(alloc);
    let texts = read_texts(alloc, host, &mut findings)?;
    tables_of(alloc, &texts)
}
