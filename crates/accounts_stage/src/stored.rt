//! All that stands of accounts.
ghost use Rattle.std.specs.Prelude.{◌≡◌, None, Some, IfOk, IsErrOf, OnOk};
ghost use Rattle.host_trait.specs.declared.tree.HostFault.TheVariants.{Device};
ghost use Rattle.host_trait.specs.Host.{Told};
ghost use Rattle.host_trait.specs.Reading.{IsReadingOf};
ghost use Rattle.switch_parts.specs.declared.plan_fault.PlanFault.TheVariants.{Host, Refused};
ghost use Rattle.switch_parts.specs.declared.refusal.Refusal.{Refusal};
ghost use Rattle.accounts_stage.specs.Refusals.{maps_refusal, stored_refusal};
ghost use Rattle.accounts_stage.specs.Answer.{Answers};
ghost use Rattle.accounts_stage.specs.All.{AreSoundTables, all_in, all_of};

use crate::memory::{MemoryTexts, declared_of, read_memory, remembered_of};
use crate::reading::read_tables;
use account_text::Tables;
use host_trait::Tree;
use std::alloc::Global;
use switch_parts::PlanFault;
use tree_put::nothing_found;
use users_merge::{Declared, Remembered};

/// All that stands of accounts.
pub struct Stored {
    /// The three tables.
    pub tables: Tables,
    /// The ids that accounts had.
    pub remembered: Remembered,
    /// The names that were declared.
    pub declared: Declared,
}

/// One call: a derived drop is proved anew in each function that lets one go.
impl Drop for Stored {
    fn drop(self) {
        let Stored {
            tables: _,
            remembered: _,
            declared: _,
        } = self;
    }
}

impl Stored {
    /// The three tables.
    pub fn into_tables(self) -> Tables
        ensures { result ≡ self.tables }
    {
        let Stored {
            tables,
            remembered: _remembered,
            declared: _declared,
        } = self;
        tables
    }
}

/// These tables, with what these texts say.
pub fn with_texts(alloc: Global, tables: Tables, texts: &MemoryTexts) -> Result<Stored, PlanFault>
    ensures stored { Answers (maps_refusal texts.now) (λ stored. stored ≡ all_of tables texts.now) result }
    ensures cause { IsErrOf result (Host Device) → ⊥ }
{
    let remembered = remembered_of(alloc, texts)?;
    let declared = declared_of(alloc, texts)?;
    Ok(Stored {
        tables,
        remembered,
        declared,
    })
}

/// Reads the tables, the ids that accounts had and the names that were declared, and changes nothing.
///
/// It is refused as `read_tables` is, and then with `IdMap` at the first map that is none, that of the users before that
/// of the groups. A map that isn't there has no ids.
///
/// Source: group(5), passwd(5), shadow(5); nixpkgs, update-users-groups.pl.
pub fn read_all<T: Tree>(alloc: Global, host: &mut T) -> Result<Stored, PlanFault>
    ensures stored { IfOk result (λ stored. Told (T.host host.old) (λ w. stored ≡ all_in w.leaves)) }
    ensures not_refused { OnOk result (Told (T.host host.old) (λ w. stored_refusal w.leaves ≡ None)) }
    ensures sound { IfOk result (λ stored. AreSoundTables stored.tables) }
    ensures refused { (why : Refusal) → IsErrOf result (Refused why) → Told (T.host host.old) (λ w. stored_refusal w.leaves ≡ Some why) }
    ensures reads { IsReadingOf (T.host host.old) (T.host host.new) (IsErrOf result (Host Device)) }
{
    let tables = read_tables(alloc, host)?;
    let mut findings = nothing_found(alloc);
    let memory = read_memory(alloc, host, &mut findings)?;
    with_texts(alloc, tables, &memory)
}
