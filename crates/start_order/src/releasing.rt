//! What is free, and what becomes free once a unit is taken.
ghost use Rattle.std.specs.Prelude.{◌≡◌, ◌<◌, ◌&&◌, ◌||◌, Some, IfOk, OnOk, length, slice_get};
ghost use Rattle.std.specs.List.{list_any};
ghost use Rattle.std.specs.List.Sorted.{IsStrictlySortedBy};
ghost use Rattle.host_trait.specs.Bytes.{bytes_cmp};
ghost use Rattle.start_order.specs.Graph.{AreMarks, IsGraph, is_free_one, unit_at};
ghost use Rattle.start_order.specs.Order.{is_before, is_free};
ghost use Rattle.switch_names.specs.Names.{Name, has, is_name};

use crate::graph::{Graph, row_at};
use crate::marks::{Marks, is_free_at};
use std::alloc::{AllocError, Global};
use std::collections::BTreeSet;
use switch_names::UnitName;

/// Adds a unit, where this is so.
fn add_if(
    alloc: Global,
    set: &mut BTreeSet<UnitName>,
    is: bool,
    unit: &UnitName,
) -> Result<(), AllocError>
    requires { IsStrictlySortedBy bytes_cmp set.old.keys }
    ensures sorted { OnOk result (IsStrictlySortedBy bytes_cmp set.new.keys) }
    ensures added { OnOk result ((name : Name) → has set.new.keys name ≡ (has set.old.keys name || (is && is_name name unit.now))) }
{
    if is {
        set.insert(unit.copy(alloc)?)?;
    }
    Ok(())
}

/// Adds the unit at a place, where it is left and free.
fn add_free(
    alloc: Global,
    graph: &Graph<'_>,
    left: &BTreeSet<UnitName>,
    marks: &mut Marks,
    set: &mut BTreeSet<UnitName>,
    at: usize,
) -> Result<(), AllocError>
    requires left { IsStrictlySortedBy bytes_cmp left.now.keys }
    requires graph { IsGraph graph.now }
    requires marks { AreMarks graph.now.units.now graph.now.edges.now left.now.keys marks.old }
    requires set { IsStrictlySortedBy bytes_cmp set.old.keys }
    requires there { at < length graph.now.units.now }
    ensures marks { OnOk result (AreMarks graph.now.units.now graph.now.edges.now left.now.keys marks.new) }
    ensures sorted { OnOk result (IsStrictlySortedBy bytes_cmp set.new.keys) }
    ensures added { OnOk result ((name : Name) → has set.new.keys name ≡ (has set.old.keys name || is_free_one graph.now.edges.now left.now.keys name (unit_at graph.now.units.now at))) }
{
    let is_free = is_free_at(graph, left, marks, at);
    add_if(alloc, set, is_free, &graph.units[at])
}

/// Adds what has become free once the unit at a place is taken.
pub(crate) fn release(
    alloc: Global,
    graph: &Graph<'_>,
    left: &BTreeSet<UnitName>,
    marks: &mut Marks,
    free: &mut BTreeSet<UnitName>,
    at: usize,
) -> Result<(), AllocError>
    requires left { IsStrictlySortedBy bytes_cmp left.now.keys }
    requires graph { IsGraph graph.now }
    requires marks { AreMarks graph.now.units.now graph.now.edges.now left.now.keys marks.old }
    requires free { IsStrictlySortedBy bytes_cmp free.old.keys }
    requires there { at < length graph.now.units.now }
    ensures marks { OnOk result (AreMarks graph.now.units.now graph.now.edges.now left.now.keys marks.new) }
    ensures sorted { OnOk result (IsStrictlySortedBy bytes_cmp free.new.keys) }
    ensures added { OnOk result ((taken unit : Name) → slice_get graph.now.units.now at ≡ Some taken
        → has free.new.keys unit ≡ (has free.old.keys unit || (is_before graph.now.edges.now taken unit && (has left.now.keys unit && is_free graph.now.edges.now left.now.keys unit)))) }
{
    let row = row_at(&graph.afters, at);
    for place in row {
        add_free(alloc, graph, left, marks, free, *place)?;
    }
    Ok(())
}

/// The units as a set.
pub(crate) fn set_of(alloc: Global, units: &[UnitName]) -> Result<BTreeSet<UnitName>, AllocError>
    ensures sorted { IfOk result (λ set. IsStrictlySortedBy bytes_cmp set.keys) }
    ensures all { IfOk result (λ set. (unit : Name) → has set.keys unit ≡ has units.now unit) }
{
    let mut set = BTreeSet::new(alloc);
    for unit in units {
        add_if(alloc, &mut set, true, unit)?;
    }
    Ok(set)
}

/// Those of the units that are left and free.
pub(crate) fn free_of(
    alloc: Global,
    graph: &Graph<'_>,
    left: &BTreeSet<UnitName>,
    marks: &mut Marks,
) -> Result<BTreeSet<UnitName>, AllocError>
    requires left { IsStrictlySortedBy bytes_cmp left.now.keys }
    requires graph { IsGraph graph.now }
    requires marks { AreMarks graph.now.units.now graph.now.edges.now left.now.keys marks.old }
    ensures marks { OnOk result (AreMarks graph.now.units.now graph.now.edges.now left.now.keys marks.new) }
    ensures sorted { IfOk result (λ set. IsStrictlySortedBy bytes_cmp set.keys) }
    ensures free { IfOk result (λ set. (unit : Name) → has set.keys unit ≡ list_any (is_free_one graph.now.edges.now left.now.keys unit) graph.now.units.now) }
{
    let mut set = BTreeSet::new(alloc);
    for at in 0..graph.units.len() {
        add_free(alloc, graph, left, marks, &mut set, at)?;
    }
    Ok(set)
}
