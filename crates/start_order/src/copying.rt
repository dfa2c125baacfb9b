//! Equal lists.
ghost use Rattle.std.specs.Prelude.{◌≡◌, IfOk};

use crate::edge::Edge;
use std::alloc::{AllocError, Global};
use switch_names::{Listed, UnitName};

/// Equal names.
pub(crate) fn copy_units(alloc: Global, units: &[UnitName]) -> Result<Listed<UnitName>, AllocError>
    ensures { IfOk result (λ copied. copied ≡ units.now) }
{
    let mut copied = Listed::new(alloc);
    for unit in units {
        copied.push(unit.copy(alloc)?)?;
    }
    Ok(copied)
}

/// An equal edge.
fn copy_edge(alloc: Global, edge: &Edge) -> Result<Edge, AllocError>
    ensures { IfOk result (λ copied. copied ≡ edge.now) }
{
    Ok(Edge {
        before: edge.before.copy(alloc)?,
        after: edge.after.copy(alloc)?,
    })
}

/// Equal edges.
pub(crate) fn copy_edges(alloc: Global, edges: &[Edge]) -> Result<Listed<Edge>, AllocError>
    ensures { IfOk result (λ copied. copied ≡ edges.now) }
{
    let mut copied = Listed::new(alloc);
    for edge in edges {
        copied.push(copy_edge(alloc, edge)?)?;
    }
    Ok(copied)
}
