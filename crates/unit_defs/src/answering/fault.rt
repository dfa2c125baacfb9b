//! The first fault in the files of the units of a system.
ghost use Rattle.std.specs.Prelude.{◌≡◌, List, ℕ, Option, None, Some, IfOk, IfSome, option_and_then};
ghost use Rattle.switch_names.specs.UnitName.{IsUnitName};
ghost use Rattle.unit_defs.specs.Defs.{first_faulty};

use crate::unit::Unit;
use std::alloc::{AllocError, Global};
use switch_names::UnitName;

/// The line of the first fault in the files of a unit.
fn fault_of(unit: &Unit) -> Option<u32>
    ensures { result ≡ option_and_then (λ part. part.fault) unit.now.part }
{
    unit.part.as_ref()?.fault
}

/// The first unit with a faulty file, and the line of its first fault.
pub fn first_fault(alloc: Global, units: &[Unit]) -> Result<Option<(UnitName, u32)>, AllocError>
    ensures first { IfOk result (λ fault. fault ≡ first_faulty units.now) }
    ensures named { IfOk result (λ fault. IfSome fault (λ at. IsUnitName at.0)) }
{
    for unit in units {
        let _name = unit.name.as_str();
        if let Some(line) = fault_of(unit) {
            return Ok(Some((unit.name.copy(alloc)?, line)));
        }
    }
    Ok(None)
}
