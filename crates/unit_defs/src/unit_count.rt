//! How many units a system has.
ghost use Rattle.std.specs.Prelude.{◌≡◌, IfOk, length};
ghost use Rattle.host_trait.specs.Host.{Told};
ghost use Rattle.host_trait.specs.Reading.{IsReading};
ghost use Rattle.unit_defs.specs.Count.{unit_names};

use crate::defs::Defs;
use host_trait::{HostFault, Tree};
use std::alloc::Global;
use switch_names::SystemName;

/// How many units of a system have a text of their own, those of its fstab included.
///
/// It reads as `Defs::read_old` does, and has no greatest number.
pub fn count<T: Tree>(alloc: Global, host: &mut T, system: &SystemName) -> Result<u64, HostFault>
    ensures count { IfOk result (λ count. Told (T.host host.old) (λ w. count ≡ length (unit_names w.leaves system.now))) }
    ensures reads { IsReading (T.host host.old) (T.host host.new) result }
{
    let defs = Defs::read_old(alloc, host, system)?;
    Ok(defs.names().as_slice().len() as u64)
}
