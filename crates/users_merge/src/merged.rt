//! What a merge leaves.
use crate::declared_names::Declared;
use crate::kept::Kept;
use crate::remembered::Remembered;
use account_text::Tables;
use switch_names::Listed;

/// What a merge leaves of accounts.
pub struct Merged {
    /// The tables, in the order in which they are written.
    pub tables: Tables,
    /// The ids that accounts had, and those that they have.
    pub remembered: Remembered,
    /// The names that are declared now or were so before.
    pub union: Declared,
    /// The names that are declared now.
    pub declared: Declared,
    /// The accounts that keep ids other than those that are asked for, groups first.
    pub kept: Listed<Kept>,
}

/// One call: a derived drop is proved anew in each function that lets one go.
impl Drop for Merged {
    fn drop(self) {
        let Merged {
            tables: _,
            remembered: _,
            union: _,
            declared: _,
            kept: _,
        } = self;
    }
}
