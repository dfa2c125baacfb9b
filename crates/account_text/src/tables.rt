//! The three tables.
use crate::group::GroupRow;
use crate::passwd::PasswdRow;
use crate::shadow::ShadowRow;
use switch_names::Listed;

/// The three account tables.
pub struct Tables {
    /// The groups.
    pub group: Listed<GroupRow>,
    /// The user accounts.
    pub passwd: Listed<PasswdRow>,
    /// The passwords.
    pub shadow: Listed<ShadowRow>,
}

/// One call: a derived drop is proved anew in each function that lets one go.
impl Drop for Tables {
    fn drop(self) {
        let Tables {
            group: _,
            passwd: _,
            shadow: _,
        } = self;
    }
}
