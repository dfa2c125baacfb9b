//! Which contents are taken to make `/etc`.
ghost use Rattle.std.specs.Prelude.{IfOk};
ghost use Rattle.host_trait.specs.Host.{Told};
ghost use Rattle.host_trait.specs.Reading.{IsReading};
ghost use Rattle.leaf_limits.specs.Limits.{AreTaken};
ghost use Rattle.etc_farm.specs.EtcPart.{takes_etc};

use etc_clean::clean_path;
use host_trait::{HostFault, Tree};
use std::alloc::Global;
use switch_names::{Listed, Path, SystemName};

/// The paths of the contents that making `/etc` of a system takes: those of its entries that a switch reads, as
/// `etc_manifest::taken` gives them, and the clean list that stands. It lists the folder of the entries once, and reads no leaf.
///
/// Source: NixOS manual, `environment.etc`; setup-etc.pl of nixpkgs.
pub fn taken<T: Tree>(
    alloc: Global,
    host: &mut T,
    system: &SystemName,
) -> Result<Listed<Path>, HostFault>
    ensures taken { IfOk result (λ places. Told (T.host host.old) (λ w. AreTaken places (takes_etc w.leaves system.now) w.leaves)) }
    ensures reads { IsReading (T.host host.old) (T.host host.new) result }
{
    let mut places = etc_manifest::taken(alloc, host, system)?;
    places.push(clean_path(alloc)?)?;
    Ok(places)
}
