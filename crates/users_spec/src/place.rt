//! Places in an account specification.
ghost use Rattle.std.specs.Prelude.{◌≡◌};
ghost use Rattle.users_spec.specs.Place.{place_number};

/// A place in an account specification. Groups and users are numbered from 0, and numbers past
/// 4,294,967,295 are given as that number.
#[derive(Clone, Copy, Debug, PartialEq, Eq)]
pub enum Place {
    /// The object that holds all others.
    Top,
    /// A user.
    User(u32),
    /// A group.
    Group(u32),
}

/// The number of a group or a user as a place names it.
pub fn place_number(at: usize) -> u32
    ensures { result ≡ place_number at }
{
    u32::try_from(at).unwrap_or(u32::MAX)
}
