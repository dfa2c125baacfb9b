//! What is pulled from the targets of a system.
use crate::writing::show_names;
use host_trait::States;
use owed_plan::{pull, roots};
use std::alloc::{AllocError, Global};
use switch_names::{Listed, UnitName};
use unit_defs::Defs;
use world_text::Lines;

/// Shows what units pull, and the roots and their pull where these units are to be started.
pub fn show_pulls(
    alloc: Global,
    lines: &mut Lines,
    defs: &Defs,
    states: &States,
    units: &Listed<UnitName>,
) -> Result<(), AllocError> {
    let pulled = pull(alloc, defs, units)?;
    show_names(lines, "pulled", pulled.as_slice());
    let found = roots(alloc, defs, states, units)?;
    show_names(lines, "roots", found.as_slice());
    let from_roots = pull(alloc, defs, &found)?;
    show_names(lines, "pulled", from_roots.as_slice());
    Ok(())
}
