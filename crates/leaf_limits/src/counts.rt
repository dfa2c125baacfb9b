//! How many units, entries and rows there may be.
ghost use Rattle.std.specs.Prelude.{◌≡◌};
ghost use Rattle.leaf_limits.specs.Counts.{past};

/// The greatest number of units with a text of their own in one system, those of its fstab included.
pub const UNITS_MAX: u64 = 16_384;

/// The greatest number of entries below `/etc` of one system.
pub const ENTRIES_MAX: u64 = 131_072;

/// The greatest number of rows of one account table.
pub const ROWS_MAX: u64 = 65_536;

/// A count, where it is past the greatest.
pub fn past(most: u64, count: u64) -> Option<u64>
    ensures { result ≡ past most count }
{
    if count > most { Some(count) } else { None }
}
