//! The units by their places, with those before and after each.
ghost use Rattle.std.specs.Prelude.{◌≡◌, ◌<◌, ◌++◌, ◌∷◌, [], ℕ, length, true, Some, IfOk, OnOk, replicate, slice_get};
ghost use Rattle.std.specs.List.Sorted.{IsStrictlySortedBy};
ghost use Rattle.host_trait.specs.Bytes.{bytes_cmp};
ghost use Rattle.start_order.specs.Edges.{AreEdges};
ghost use Rattle.start_order.specs.Graph.{AreRows, IsPushed, afters_of, befores_of};
ghost use Rattle.switch_names.specs.Names.{has};

use crate::edge::Edge;
use std::alloc::{AllocError, Global};
use switch_names::{Listed, UnitName};

/// Units and the edges between them, and for each unit the places of those from which and to which an edge leads, in the order of
/// the edges.
pub(crate) struct Graph<'a> {
    pub(crate) units: &'a [UnitName],
    pub(crate) edges: &'a [Edge],
    pub(crate) befores: Listed<Listed<usize>>,
    pub(crate) afters: Listed<Listed<usize>>,
}

/// One call: a derived drop is proved anew in each function that lets one go.
impl<'a> Drop for Graph<'a> {
    fn drop(self) {
        let Graph {
            units: _,
            edges: _,
            befores: _,
            afters: _,
        } = self;
    }
}

/// The place of a unit that is there.
pub(crate) fn place_in(units: &[UnitName], unit: &UnitName) -> usize
    requires units { IsStrictlySortedBy bytes_cmp units.now }
    requires there { has units.now unit.now ≡ true }
    ensures { slice_get units.now result ≡ Some unit.now }
{
    match units.binary_search(unit) {
        Ok(at) => at,
        Err(at) => at,
    }
}

/// As many empty rows.
fn empty_rows(alloc: Global, count: usize) -> Result<Listed<Listed<usize>>, AllocError>
    ensures { IfOk result (λ rows. rows ≡ replicate count []) }
{
    let mut rows = Listed::new(alloc);
    for _ in 0..count {
        rows.push(Listed::new(alloc))?;
    }
    Ok(rows)
}

/// Adds a place at the end of a row.
fn push_to(
    alloc: Global,
    rows: &mut Listed<Listed<usize>>,
    at: usize,
    place: usize,
) -> Result<(), AllocError>
    requires { at < length rows.old }
    ensures { OnOk result (IsPushed rows.old at place rows.new) }
{
    let mut row = rows.replace(at, Listed::new(alloc));
    row.push(place)?;
    let _empty = rows.replace(at, row);
    Ok(())
}

/// The row at a place.
pub(crate) fn row_at(rows: &Listed<Listed<usize>>, at: usize) -> &[usize]
    requires { at < length rows.now }
    ensures { slice_get rows.now at ≡ Some result.now }
{
    rows.as_slice()[at].as_slice()
}

/// For each unit the places of those before it, and of those after it.
pub(crate) fn rows_of(
    alloc: Global,
    units: &[UnitName],
    edges: &[Edge],
) -> Result<(Listed<Listed<usize>>, Listed<Listed<usize>>), AllocError>
    requires units { IsStrictlySortedBy bytes_cmp units.now }
    requires edges { AreEdges units.now edges.now }
    ensures befores { IfOk result (λ rows. AreRows units.now rows.0 (befores_of edges.now)) }
    ensures afters { IfOk result (λ rows. AreRows units.now rows.1 (afters_of edges.now)) }
{
    let mut befores = empty_rows(alloc, units.len())?;
    let mut afters = empty_rows(alloc, units.len())?;
    for edge in edges {
        let before = place_in(units, &edge.before);
        let after = place_in(units, &edge.after);
        push_to(alloc, &mut befores, after, before)?;
        push_to(alloc, &mut afters, before, after)?;
    }
    Ok((befores, afters))
}
