//! The edges between units.
ghost use Rattle.std.specs.Prelude.{◌≡◌, ◌&&◌, ◌||◌, IfOk, OnOk, map};
ghost use Rattle.std.specs.List.Sorted.{IsStrictlySortedBy};
ghost use Rattle.start_order.specs.Edges.{AreEdges, edge_of, has_pair, is_between, pair_cmp};
ghost use Rattle.start_order.specs.Order.{is_before};
ghost use Rattle.switch_names.specs.Names.{Name, has, is_name};

use crate::edge::Edge;
use crate::names::is_same;
use host_trait::UnitSet;
use std::alloc::{AllocError, Global};
use std::collections::BTreeSet;
use switch_names::{Listed, UnitName};

/// Whether an edge leads from one of some units to another one.
fn is_between(units: &UnitSet, edge: &Edge) -> bool
    ensures { result ≡ is_between units.now edge.now }
{
    units.contains(&edge.before)
        && units.contains(&edge.after)
        && !is_same(&edge.before, &edge.after)
}

/// Adds an edge, where it leads from one of some units to another one.
fn add_between(
    alloc: Global,
    units: &UnitSet,
    pairs: &mut BTreeSet<(UnitName, UnitName)>,
    edge: &Edge,
) -> Result<(), AllocError>
    requires { IsStrictlySortedBy pair_cmp pairs.old.keys }
    ensures sorted { OnOk result (IsStrictlySortedBy pair_cmp pairs.new.keys) }
    ensures added { OnOk result ((before after : Name) → has_pair pairs.new.keys before after
        ≡ (has_pair pairs.old.keys before after || (is_between units.now edge.now && (is_name before edge.now.before && is_name after edge.now.after)))) }
{
    if is_between(units, edge) {
        pairs.insert((edge.before.copy(alloc)?, edge.after.copy(alloc)?))?;
    }
    Ok(())
}

/// Pairs of units as edges.
fn edges_of(
    alloc: Global,
    pairs: BTreeSet<(UnitName, UnitName)>,
) -> Result<Listed<Edge>, AllocError>
    ensures { IfOk result (λ edges. edges ≡ map edge_of pairs.keys) }
{
    let mut edges = Listed::new(alloc);
    for (before, after) in pairs {
        edges.push(Edge { before, after })?;
    }
    Ok(edges)
}

/// Those of some edges that lead from one of the units to another one, in order and each once.
pub fn edges_between(
    alloc: Global,
    units: &Listed<UnitName>,
    edges: &[Edge],
) -> Result<Listed<Edge>, AllocError>
    ensures edges { IfOk result (AreEdges units.now) }
    ensures exact { IfOk result (λ kept. (before after : Name) → is_before kept before after ≡ (is_between units.now (edge_of (before, after)) && is_before edges.now before after)) }
{
    let units = UnitSet::of(alloc, units.as_slice())?;
    let mut pairs = BTreeSet::new(alloc);
    for edge in edges {
        add_between(alloc, &units, &mut pairs, edge)?;
    }
    edges_of(alloc, pairs)
}
