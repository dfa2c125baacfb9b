//! Names in lists.
ghost use Rattle.std.specs.Prelude.{◌≡◌, position};
ghost use Rattle.switch_names.specs.Names.{has, is_name};

use std::cmp::Ordering;
use switch_names::UnitName;

/// Whether two names are the same.
pub(crate) fn is_same(one: &UnitName, other: &UnitName) -> bool
    ensures { result ≡ is_name one.now other.now }
{
    matches!(one.cmp(other), Ordering::Equal)
}

/// Whether a list has a name.
pub(crate) fn has(names: &[UnitName], name: &UnitName) -> bool
    ensures { result ≡ has names.now name.now }
{
    names.iter().any(|other| is_same(name, other))
}

/// The first place of a name in a list.
pub(crate) fn place_of(names: &[UnitName], name: &UnitName) -> Option<usize>
    ensures { result ≡ position (is_name name.now) names.now }
{
    names.iter().position(|other| is_same(name, other))
}
