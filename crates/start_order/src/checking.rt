//! Whether an order keeps its edges.
ghost use Rattle.std.specs.Prelude.{◌≡◌};
ghost use Rattle.std.specs.List.{before_first, list_all};
ghost use Rattle.start_order.specs.Check.{stand_once, is_checked, is_kept};
ghost use Rattle.switch_names.specs.Names.{is_name};

use crate::edge::Edge;
use crate::names::{has, place_of};
use crate::ordered::Ordered;
use switch_names::UnitName;

/// Whether no name stands in a list twice.
fn stand_once(names: &[UnitName]) -> bool
    ensures { result ≡ stand_once names.now }
{
    for at in 0..names.len() {
        if has(&names[at + 1..], &names[at]) {
            return false;
        }
    }
    true
}

/// The names before the first place of one.
fn before_first<'a>(names: &'a [UnitName], name: &UnitName) -> &'a [UnitName]
    ensures { result.now ≡ before_first (is_name name.now) names.now }
{
    match place_of(names, name) {
        Some(at) => &names[..at],
        None => names,
    }
}

/// Whether an edge is between units and kept, or the unit to which it leads is broken.
fn is_kept(units: &[UnitName], broken: &[UnitName], edge: &Edge) -> bool
    ensures { result ≡ is_kept units.now broken.now edge.now }
{
    has(units, &edge.before)
        && has(units, &edge.after)
        && (has(before_first(units, &edge.after), &edge.before) || has(broken, &edge.after))
}

/// Whether each edge is between units and kept.
fn are_kept(units: &[UnitName], broken: &[UnitName], edges: &[Edge]) -> bool
    ensures { result ≡ list_all (is_kept units.now broken.now) edges.now }
{
    edges.iter().all(|edge| is_kept(units, broken, edge))
}

/// Whether no unit stands in the order twice, and each edge leads from a unit to one that stands behind it or is broken.
///
/// It takes no memory, and so the time of a comparison for each two units, and of a walk over all units for each edge.
pub fn check(ordered: &Ordered) -> bool
    ensures { result ≡ is_checked ordered.now }
{
    stand_once(ordered.units.as_slice())
        && are_kept(
            ordered.units.as_slice(),
            ordered.broken.as_slice(),
            ordered.edges.as_slice(),
        )
}
