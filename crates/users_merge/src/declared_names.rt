//! The names of declared accounts.
use switch_names::{Listed, Text};

/// The names of declared accounts, each list in byte order and each name once.
pub struct Declared {
    /// The names of the users.
    pub users: Listed<Text>,
    /// The names of the groups.
    pub groups: Listed<Text>,
}

/// One call: a derived drop is proved anew in each function that lets one go.
impl Drop for Declared {
    fn drop(self) {
        let Declared {
            users: _,
            groups: _,
        } = self;
    }
}
