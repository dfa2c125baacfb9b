//! The ids that accounts had.
use id_memory::IdMap;

/// The ids that accounts had, also those that aren't declared any more.
pub struct Remembered {
    /// The ids of users.
    pub uids: IdMap,
    /// The ids of groups.
    pub gids: IdMap,
}

/// One call: a derived drop is proved anew in each function that lets one go.
impl Drop for Remembered {
    fn drop(self) {
        let Remembered { uids: _, gids: _ } = self;
    }
}
