//! Units in order.
ghost use Rattle.std.specs.Prelude.{IfOk};
ghost use Rattle.std.specs.List.Sorted.{IsStrictlySortedBy};
ghost use Rattle.host_trait.specs.Bytes.{bytes_cmp};
ghost use Rattle.start_order.specs.Edges.{AreEdges};
ghost use Rattle.start_order.specs.Ordered.{IsOrdered};

use crate::breaking::add_broken;
use crate::copying::copy_edges;
use crate::edge::Edge;
use crate::graph::{Graph, place_in, rows_of};
use crate::marks::no_marks;
use crate::ordered::Ordered;
use crate::releasing::{free_of, release, set_of};
use crate::taking::take_next;
use std::alloc::{AllocError, Global};
use switch_names::{Listed, UnitName};

/// The units in order: each time the least of those before which no other stands that is left, and where each has another
/// before it, the least of all, which is broken.
///
/// Source: systemd.unit(5), "Before=, After=".
pub fn order(
    alloc: Global,
    units: &Listed<UnitName>,
    edges: &Listed<Edge>,
) -> Result<Ordered, AllocError>
    requires units { IsStrictlySortedBy bytes_cmp units.now }
    requires edges { AreEdges units.now edges.now }
    ensures { IfOk result (IsOrdered units.now edges.now) }
{
    let mut ordered = Ordered {
        units: Listed::new(alloc),
        edges: copy_edges(alloc, edges.as_slice())?,
        broken: Listed::new(alloc),
        cycles: Listed::new(alloc),
    };
    let (units, edges) = (units.as_slice(), edges.as_slice());
    let (befores, afters) = rows_of(alloc, units, edges)?;
    let graph = Graph {
        units,
        edges,
        befores,
        afters,
    };
    let mut left = set_of(alloc, units)?;
    let mut marks = no_marks(alloc, units, edges, &left)?;
    let mut free = free_of(alloc, &graph, &left, &mut marks)?;
    for _ in 0..u64::MAX {
        add_broken(alloc, &graph, &left, &free, &mut marks, &mut ordered)?;
        let Some(unit) = take_next(edges, &mut left, &mut free) else {
            return Ok(ordered);
        };
        let at = place_in(units, &unit);
        let _was = marks.taken.replace(at, true);
        release(alloc, &graph, &left, &mut marks, &mut free, at)?;
        ordered.units.push(unit)?;
    }
    Err(AllocError)
}
