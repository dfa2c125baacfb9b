//! What is done to the accounts and to `/etc`.
ghost use Rattle.std.specs.Prelude.{◌≡◌, IfOk};
ghost use Rattle.host_trait.specs.World.{Leaves};
ghost use Rattle.switch_names.specs.Names.{Name};
ghost use Rattle.activation_stage.specs.ActivationPart.{IsActivationPlanOf, activation_in};

use accounts_stage::AccountsPlan;
use etc_farm::EtcPlan;
use leaf_limits::{TooLong, first_long};
use std::alloc::{AllocError, Global};

/// What is done to the accounts and to `/etc`.
pub struct ActivationPlan {
    /// The tables as they stand, and what they become.
    pub accounts: AccountsPlan,
    /// What is wanted below `/etc`, and what is gone and blocked there.
    pub etc: EtcPlan,
}

/// One call: a derived drop is proved anew in each function that lets one go.
impl Drop for ActivationPlan {
    fn drop(self) {
        let ActivationPlan {
            accounts: _,
            etc: _,
        } = self;
    }
}

impl ActivationPlan {
    /// The first file in byte order that the plan puts with more than 16 MiB and that is read again, where there is one.
    pub fn long(&self, alloc: Global) -> Result<Option<TooLong>, AllocError>
        ensures { (system : Name) (leaves : Leaves) → IsActivationPlanOf system leaves self.now
            → IfOk result (λ long. long ≡ (activation_in system leaves).long leaves) }
    {
        let accounts = self.accounts.long(alloc)?;
        let etc = self.etc.long(alloc)?;
        Ok(first_long(accounts, etc))
    }
}
