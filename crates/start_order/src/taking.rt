//! Takes units in order.
ghost use Rattle.std.specs.Prelude.{◌≡◌, ◌&&◌, not, IfSome};
ghost use Rattle.std.specs.List.Sorted.{IsStrictlySortedBy};
ghost use Rattle.host_trait.specs.Bytes.{bytes_cmp};
ghost use Rattle.start_order.specs.Order.{is_free, next_of};
ghost use Rattle.switch_names.specs.Names.{Name, has, is_name};

use crate::edge::Edge;
use std::collections::BTreeSet;
use switch_names::UnitName;

/// Takes the least free unit, or the least unit that is left where none is free.
pub fn take_next(
    _edges: &[Edge],
    left: &mut BTreeSet<UnitName>,
    free: &mut BTreeSet<UnitName>,
) -> Option<UnitName>
    requires left { IsStrictlySortedBy bytes_cmp left.old.keys }
    requires free { IsStrictlySortedBy bytes_cmp free.old.keys }
    requires are { (unit : Name) → has free.old.keys unit ≡ (is_free _edges.now left.old.keys unit && has left.old.keys unit) }
    ensures next { result ≡ next_of _edges.now left.old.keys }
    ensures left { IsStrictlySortedBy bytes_cmp left.new.keys }
    ensures free { IsStrictlySortedBy bytes_cmp free.new.keys }
    ensures fewer { IfSome result (λ unit. (other : Name) → has left.new.keys other ≡ (not (is_name other unit) && has left.old.keys other)) }
    ensures fewer_free { IfSome result (λ unit. (other : Name) → has free.new.keys other ≡ (not (is_name other unit) && has free.old.keys other)) }
{
    match free.pop_first() {
        Some(unit) => {
            left.remove(&unit);
            Some(unit)
        }
        None => left.pop_first(),
    }
}
