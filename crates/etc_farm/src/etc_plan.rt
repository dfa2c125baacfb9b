//! What is done to `/etc`.
ghost use Rattle.std.specs.Prelude.{◌≡◌, IfOk};
ghost use Rattle.host_trait.specs.World.{Leaves};
ghost use Rattle.switch_names.specs.Names.{Name};
ghost use Rattle.etc_farm.specs.EtcPart.{IsEtcPlanOf, items_of};
ghost use Rattle.etc_farm.specs.Lists.{list_long};

use crate::prepared::Prepared;
use etc_clean::Sorted;
use etc_manifest::{Manifest, Owners};
use leaf_limits::TooLong;
use std::alloc::{AllocError, Global};
use switch_parts::{long_put, long_with};

/// What is done to `/etc`.
pub struct EtcPlan {
    /// The accounts that can own what is put.
    pub owners: Owners,
    /// What the system wants below `/etc`.
    pub manifest: Manifest,
    /// What is gone, which entries are blocked, and the clean list as it stands.
    pub sorted: Sorted,
    /// What is put and removed beside the entries.
    pub prepared: Prepared,
}

/// One call: a derived drop is proved anew in each function that lets one go.
impl Drop for EtcPlan {
    fn drop(self) {
        let EtcPlan {
            owners: _,
            manifest: _,
            sorted: _,
            prepared: _,
        } = self;
    }
}

impl EtcPlan {
    /// The clean list, where the plan puts it with more than 16 MiB.
    pub fn long(&self, alloc: Global) -> Result<Option<TooLong>, AllocError>
        ensures { (system : Name) (leaves : Leaves) → IsEtcPlanOf system leaves self.now
            → IfOk result (λ long. long ≡ list_long (items_of system self.now.owners leaves) leaves) }
    {
        let last = long_put(alloc, self.prepared.last())?;
        long_with(alloc, last, self.prepared.first())
    }
}
