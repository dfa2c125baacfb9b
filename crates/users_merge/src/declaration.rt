//! Accounts that are declared, as those see them who give ids.
ghost use Rattle.std.specs.Prelude.{◌≡◌};
ghost use Rattle.users_merge.specs.Account.{Account};

use switch_names::Text;
use users_spec::{GroupSpec, UserSpec};

/// A declared account.
pub trait Declaration {
    /// What is asked for it.
    ghost asked: { Self → Account };

    /// Its name.
    fn account_name(&self) -> &Text
        ensures { result.now ≡ (asked self.now).name };

    /// The id that the specification gives.
    fn wanted(&self) -> Option<u32>
        ensures { result ≡ (asked self.now).wanted };

    /// Whether its id is one of those of system accounts.
    fn is_system(&self) -> bool
        ensures { result ≡ (asked self.now).system };
}

impl Declaration for GroupSpec {
    ghost use Rattle.users_merge.specs.Account.{group_account};

    ghost asked = { group_account };

    fn account_name(&self) -> &Text {
        &self.name
    }

    fn wanted(&self) -> Option<u32> {
        self.gid
    }

    fn is_system(&self) -> bool {
        true
    }
}

impl Declaration for UserSpec {
    ghost use Rattle.users_merge.specs.Account.{user_account};

    ghost asked = { user_account };

    fn account_name(&self) -> &Text {
        &self.name
    }

    fn wanted(&self) -> Option<u32> {
        self.uid
    }

    fn is_system(&self) -> bool {
        self.system
    }
}
