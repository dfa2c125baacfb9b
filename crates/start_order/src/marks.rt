//! What a unit waits for.
ghost use Rattle.std.specs.Prelude.{◌≡◌, ◌<◌, ◌&&◌, ℕ, All, length, take, true, false, not, None, Some, IfOk, option_copied, slice_get};
ghost use Rattle.std.specs.List.{list_any};
ghost use Rattle.std.specs.List.Sorted.{IsStrictlySortedBy};
ghost use Rattle.host_trait.specs.Bytes.{bytes_cmp};
ghost use Rattle.start_order.specs.Graph.{AreMarks, IsGraph, is_open};
ghost use Rattle.start_order.specs.Order.{is_free, waits_for};
ghost use Rattle.switch_names.specs.Names.{Name, has};

use crate::edge::Edge;
use crate::graph::{Graph, place_in, row_at};
use std::alloc::{AllocError, Global};
use std::collections::BTreeSet;
use switch_names::{Listed, UnitName};

/// For each unit whether it is taken, and how many of those before it are known to be taken.
pub(crate) struct Marks {
    pub(crate) taken: Listed<bool>,
    pub(crate) passed: Listed<usize>,
}

/// One call: a derived drop is proved anew in each function that lets one go.
impl Drop for Marks {
    fn drop(self) {
        let Marks {
            taken: _,
            passed: _,
        } = self;
    }
}

/// Whether the unit at a place is taken.
fn is_taken(taken: &Listed<bool>, at: usize) -> bool
    requires { at < length taken.now }
    ensures { not result ≡ is_open taken.now at }
{
    taken.as_slice()[at]
}

/// How many of those before the unit at a place are known to be taken.
fn known_at(marks: &Marks, at: usize) -> usize
    requires { at < length marks.now.passed }
    ensures { slice_get marks.now.passed at ≡ Some result }
{
    marks.passed.as_slice()[at]
}

/// The unit whose place stands at this one of a row.
fn unit_of<'a>(units: &'a [UnitName], row: &[usize], at: usize) -> Option<&'a UnitName>
    requires { All (λ place. place < length units.now) row.now }
    ensures none { slice_get row.now at ≡ None → option_copied result ≡ None }
    ensures some { (place : ℕ) → slice_get row.now at ≡ Some place → option_copied result ≡ slice_get units.now place }
{
    match row.get(at) {
        Some(place) => units.get(*place),
        None => None,
    }
}

/// How many places of a row are those of units that are taken, from its first one on, where so many are known to be.
fn passed_of(row: &[usize], taken: &Listed<bool>, known: usize) -> usize
    requires places { All (λ place. place < length taken.now) row.now }
    requires known { list_any (is_open taken.now) (take known row.now) ≡ false }
    ensures passed { list_any (is_open taken.now) (take result row.now) ≡ false }
    ensures next { (place : ℕ) → slice_get row.now result ≡ Some place → is_open taken.now place ≡ true }
{
    for at in known..row.len() {
        if !is_taken(taken, row[at]) {
            return at;
        }
    }
    row.len()
}

/// What the unit at a place waits for: the least of the units that are left and stand before it.
pub(crate) fn waits_at<'a>(
    graph: &Graph<'a>,
    _left: &BTreeSet<UnitName>,
    marks: &mut Marks,
    at: usize,
) -> Option<&'a UnitName>
    requires left { IsStrictlySortedBy bytes_cmp _left.now.keys }
    requires graph { IsGraph graph.now }
    requires marks { AreMarks graph.now.units.now graph.now.edges.now _left.now.keys marks.old }
    requires there { at < length graph.now.units.now }
    ensures waits { (unit : Name) → slice_get graph.now.units.now at ≡ Some unit → option_copied result ≡ waits_for graph.now.edges.now _left.now.keys unit }
    ensures marks { AreMarks graph.now.units.now graph.now.edges.now _left.now.keys marks.new }
{
    let row = row_at(&graph.befores, at);
    let known = known_at(marks, at);
    let passed = passed_of(row, &marks.taken, known);
    let _known = marks.passed.replace(at, passed);
    unit_of(graph.units, row, passed)
}

/// The least of the units that are left and stand before this one.
pub(crate) fn waits_for<'a>(
    graph: &Graph<'a>,
    left: &BTreeSet<UnitName>,
    marks: &mut Marks,
    unit: &UnitName,
) -> Option<&'a UnitName>
    requires left { IsStrictlySortedBy bytes_cmp left.now.keys }
    requires graph { IsGraph graph.now }
    requires marks { AreMarks graph.now.units.now graph.now.edges.now left.now.keys marks.old }
    requires there { has graph.now.units.now unit.now ≡ true }
    ensures waits { option_copied result ≡ waits_for graph.now.edges.now left.now.keys unit.now }
    ensures marks { AreMarks graph.now.units.now graph.now.edges.now left.now.keys marks.new }
{
    waits_at(graph, left, marks, place_in(graph.units, unit))
}

/// Whether the unit at a place is left and free.
pub(crate) fn is_free_at(
    graph: &Graph<'_>,
    left: &BTreeSet<UnitName>,
    marks: &mut Marks,
    at: usize,
) -> bool
    requires left { IsStrictlySortedBy bytes_cmp left.now.keys }
    requires graph { IsGraph graph.now }
    requires marks { AreMarks graph.now.units.now graph.now.edges.now left.now.keys marks.old }
    requires there { at < length graph.now.units.now }
    ensures free { (unit : Name) → slice_get graph.now.units.now at ≡ Some unit → result ≡ (has left.now.keys unit && is_free graph.now.edges.now left.now.keys unit) }
    ensures marks { AreMarks graph.now.units.now graph.now.edges.now left.now.keys marks.new }
{
    !is_taken(&marks.taken, at) && waits_at(graph, left, marks, at).is_none()
}

/// No unit is taken, and nothing is known of those before each.
pub(crate) fn no_marks(
    alloc: Global,
    units: &[UnitName],
    _edges: &[Edge],
    _left: &BTreeSet<UnitName>,
) -> Result<Marks, AllocError>
    requires { (unit : Name) → has _left.now.keys unit ≡ has units.now unit }
    ensures { IfOk result (AreMarks units.now _edges.now _left.now.keys) }
{
    let mut taken = Listed::new(alloc);
    let mut passed = Listed::new(alloc);
    for _ in units {
        taken.push(false)?;
        passed.push(0)?;
    }
    Ok(Marks { taken, passed })
}
