//! What is broken.
ghost use Rattle.std.specs.Prelude.{◌≡◌, ◌&&◌, true, None, Some, OnOk, option_copied};
ghost use Rattle.std.specs.List.Sorted.{IsStrictlySortedBy};
ghost use Rattle.host_trait.specs.Bytes.{bytes_cmp};
ghost use Rattle.start_order.specs.Graph.{AreMarks, IsGraph};
ghost use Rattle.start_order.specs.Order.{is_free};
ghost use Rattle.start_order.specs.Progress.{IsBreak, stuck_unit};
ghost use Rattle.switch_names.specs.Names.{Name, has};

use crate::edge::Edge;
use crate::graph::Graph;
use crate::marks::Marks;
use crate::ordered::Ordered;
use crate::walking::cycle_of;
use std::alloc::{AllocError, Global};
use std::collections::BTreeSet;
use switch_names::UnitName;

/// The least unit that is left, where none is free.
fn stuck_unit<'a>(
    _edges: &[Edge],
    left: &'a BTreeSet<UnitName>,
    free: &BTreeSet<UnitName>,
) -> Option<&'a UnitName>
    requires left { IsStrictlySortedBy bytes_cmp left.now.keys }
    requires free { IsStrictlySortedBy bytes_cmp free.now.keys }
    requires are { (unit : Name) → has free.now.keys unit ≡ (is_free _edges.now left.now.keys unit && has left.now.keys unit) }
    ensures { option_copied result ≡ stuck_unit _edges.now left.now.keys }
{
    if free.is_empty() { left.first() } else { None }
}

/// Adds the least unit that is left to the broken ones and its cycle to theirs, where none is free.
pub(crate) fn add_broken(
    alloc: Global,
    graph: &Graph<'_>,
    left: &BTreeSet<UnitName>,
    free: &BTreeSet<UnitName>,
    marks: &mut Marks,
    ordered: &mut Ordered,
) -> Result<(), AllocError>
    requires graph { IsGraph graph.now }
    requires marks { AreMarks graph.now.units.now graph.now.edges.now left.now.keys marks.old }
    requires among { (name : Name) → has left.now.keys name ≡ true → has graph.now.units.now name ≡ true }
    requires left { IsStrictlySortedBy bytes_cmp left.now.keys }
    requires free { IsStrictlySortedBy bytes_cmp free.now.keys }
    requires are { (unit : Name) → has free.now.keys unit ≡ (is_free graph.now.edges.now left.now.keys unit && has left.now.keys unit) }
    ensures marks { OnOk result (AreMarks graph.now.units.now graph.now.edges.now left.now.keys marks.new) }
    ensures none { OnOk result (stuck_unit graph.now.edges.now left.now.keys ≡ None → ordered.new ≡ ordered.old) }
    ensures broken { OnOk result ((unit : Name) → stuck_unit graph.now.edges.now left.now.keys ≡ Some unit → IsBreak graph.now.edges.now left.now.keys unit ordered.old ordered.new) }
{
    if let Some(unit) = stuck_unit(graph.edges, left, free) {
        ordered
            .cycles
            .push(cycle_of(alloc, graph, left, marks, unit)?)?;
        ordered.broken.push(unit.copy(alloc)?)?;
    }
    Ok(())
}
