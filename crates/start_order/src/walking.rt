//! The cycle in which a unit waits.
ghost use Rattle.std.specs.Prelude.{◌≡◌, true, IfOk, OnOk, drop};
ghost use Rattle.std.specs.List.{position_or_len};
ghost use Rattle.std.specs.List.Sorted.{IsStrictlySortedBy};
ghost use Rattle.host_trait.specs.Bytes.{bytes_cmp};
ghost use Rattle.start_order.specs.Cycles.{IsCycle};
ghost use Rattle.start_order.specs.Graph.{AreMarks, IsGraph};
ghost use Rattle.start_order.specs.Order.{is_stuck};
ghost use Rattle.switch_names.specs.Names.{Name, has, is_name};

use crate::copying::copy_units;
use crate::graph::Graph;
use crate::marks::{Marks, waits_for};
use crate::names::place_of;
use crate::ordered::Cycle;
use host_trait::UnitSet;
use std::alloc::{AllocError, Global};
use std::collections::BTreeSet;
use switch_names::{Listed, UnitName};

/// The part of a walk from its first unit on to which it comes again.
pub fn part_from(
    alloc: Global,
    walk: &[UnitName],
    first: &UnitName,
) -> Result<Listed<UnitName>, AllocError>
    requires { has walk.now first.now ≡ true }
    ensures { IfOk result (λ part. part ≡ drop (position_or_len (is_name first.now) walk.now) walk.now) }
{
    let at = place_of(walk, first).unwrap();
    copy_units(alloc, &walk[at..])
}

/// The cycle in which a walk ends that goes from a unit to what it waits for, while none is free.
pub(crate) fn cycle_of(
    alloc: Global,
    graph: &Graph<'_>,
    left: &BTreeSet<UnitName>,
    marks: &mut Marks,
    unit: &UnitName,
) -> Result<Cycle, AllocError>
    requires left { IsStrictlySortedBy bytes_cmp left.now.keys }
    requires graph { IsGraph graph.now }
    requires marks { AreMarks graph.now.units.now graph.now.edges.now left.now.keys marks.old }
    requires among { (name : Name) → has left.now.keys name ≡ true → has graph.now.units.now name ≡ true }
    requires stuck { is_stuck graph.now.edges.now left.now.keys ≡ true }
    requires is_left { has left.now.keys unit.now ≡ true }
    ensures marks { OnOk result (AreMarks graph.now.units.now graph.now.edges.now left.now.keys marks.new) }
    ensures cycle { IfOk result (λ cycle. IsCycle graph.now.edges.now left.now.keys unit.now cycle.units) }
{
    let mut walk = Listed::new(alloc);
    let mut seen = UnitSet::new(alloc);
    let mut next = unit.copy(alloc)?;
    for _ in 0..u64::MAX {
        if !seen.insert(next.copy(alloc)?)? {
            return Ok(Cycle {
                units: part_from(alloc, walk.as_slice(), &next)?,
            });
        }
        let after = waits_for(graph, left, marks, &next).unwrap().copy(alloc)?;
        walk.push(std::mem::replace(&mut next, after))?;
    }
    Err(AllocError)
}
