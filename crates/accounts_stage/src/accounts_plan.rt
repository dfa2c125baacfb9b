//! What is done to the accounts.
ghost use Rattle.accounts_stage.specs.Puts.{AreAtAccounts};

use account_text::Tables;
use leaf_limits::TooLong;
use std::alloc::{AllocError, Global};
use switch_names::Listed;
use switch_parts::long_with;
use tree_put::LeafPut;
use users_merge::Merged;

/// What is done to the accounts.
pub struct AccountsPlan {
    /// The tables as they stand.
    pub tables: Tables,
    /// What they become, where the system declares accounts.
    pub merged: Option<Merged>,
    /// The files that are put then, in their order, but for the last two: none where the system declares no accounts.
    pub first: Listed<LeafPut>,
    /// The last two: the names that are declared now.
    pub last: Listed<LeafPut>,
    ghost places: { AreAtAccounts first × AreAtAccounts last },
}

/// One call: a derived drop is proved anew in each function that lets one go.
impl Drop for AccountsPlan {
    fn drop(self) {
        let AccountsPlan {
            tables: _,
            merged: _,
            first: _,
            last: _,
        } = self;
    }
}

impl AccountsPlan {
    ghost use Rattle.std.specs.Prelude.{◌≡◌, IfOk};
    ghost use Rattle.host_trait.specs.World.{Leaves};
    ghost use Rattle.switch_names.specs.Names.{Name};
    ghost use Rattle.accounts_stage.specs.AccountsPart.{accounts_long, tables_after};
    ghost use Rattle.accounts_stage.specs.Plan.{IsAccountsPlanOf};

    /// The tables that the plan leaves.
    pub fn tables_after(&self) -> &Tables
        ensures { (system : Name) (leaves : Leaves) → IsAccountsPlanOf system leaves self.now → result.now ≡ tables_after system leaves }
    {
        match &self.merged {
            Some(merged) => &merged.tables,
            None => &self.tables,
        }
    }

    /// The first file in byte order that the plan puts with more than 16 MiB, where there is one.
    pub fn long(&self, alloc: Global) -> Result<Option<TooLong>, AllocError>
        ensures { (system : Name) (leaves : Leaves) → IsAccountsPlanOf system leaves self.now → IfOk result (λ long. long ≡ accounts_long system leaves) }
    {
        let last = long_with(alloc, None, self.last.as_slice())?;
        long_with(alloc, last, self.first.as_slice())
    }
}
