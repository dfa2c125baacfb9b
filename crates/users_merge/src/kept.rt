//! Accounts whose ids aren't those that are asked for.
use switch_names::Text;

/// A declared account whose row has another id than the specified one, which it keeps.
pub struct Kept {
    /// Whether it is a user, and not a group.
    pub user: bool,
    /// Its name.
    pub name: Text,
    /// The id that it keeps.
    pub id: u32,
}

/// One call: a derived drop is proved anew in each function that lets one go.
impl Drop for Kept {
    fn drop(self) {
        let Kept {
            user: _,
            name: _,
            id: _,
        } = self;
    }
}
