//! The contents that the units of a system are read from.
ghost use Rattle.std.specs.Prelude.{◌≡◌, ◌||◌, ◌&&◌, IfOk};
ghost use Rattle.std.specs.Option.{option_copied};
ghost use Rattle.std.specs.List.Sorted.{IsStrictlySortedBy};
ghost use Rattle.host_trait.specs.Host.{Told};
ghost use Rattle.host_trait.specs.Reading.{IsReading};
ghost use Rattle.host_trait.specs.World.{bytes_cmp};
ghost use Rattle.leaf_limits.specs.Limits.{AreTaken};
ghost use Rattle.switch_names.specs.Names.{Name, has, is_name};
ghost use Rattle.unit_defs.specs.Defs.{AreSorted, own_in};
ghost use Rattle.unit_defs.specs.Place.{place_after};
ghost use Rattle.unit_defs.specs.Taken.{takes_place, takes_units};

use crate::answering::wanting::own_text;
use crate::place::{UnitPlace, place_after};
use crate::reading::fstab::fstab_path;
use crate::reading::{read_file_units, unit_folder, with_slash};
use crate::unit::Unit;
use host_trait::{HostFault, Tree};
use std::alloc::{AllocError, Global};
use std::collections::BTreeSet;
use switch_names::{Listed, Path, SystemName};

/// Whether what stands at a place is taken, by the units of its system.
fn is_taken(place: Option<&UnitPlace>, units: &[Unit]) -> bool
    requires { AreSorted units.now }
    ensures { result ≡ takes_place (own_in units.now) (option_copied place.entry) }
{
    match place {
        Some(UnitPlace::File(_)) => true,
        Some(UnitPlace::DropIn(unit, _)) => own_text(units, unit).is_some(),
        Some(UnitPlace::Want(_, _)) => false,
        None => false,
    }
}

/// Whether what stands at a path is taken, where the folder of units and a slash are its front.
fn takes_path(alloc: Global, front: &str, path: &Path, units: &[Unit]) -> Result<bool, AllocError>
    requires { AreSorted units.now }
    ensures { IfOk result (λ taken. taken ≡ takes_place (own_in units.now) (place_after front.now path.now)) }
{
    let place = place_after(alloc, front, path)?;
    Ok(is_taken(place.as_ref(), units))
}

/// The path of the fstab, and those of these paths at which something stands that is taken.
fn taken_among(
    alloc: Global,
    fstab: Path,
    front: &str,
    paths: &[Path],
    units: &[Unit],
) -> Result<BTreeSet<Path>, AllocError>
    requires { AreSorted units.now }
    ensures { IfOk result (λ taken. (q : Name) → has taken.keys q ≡ (is_name q fstab || (has paths.now q && takes_place (own_in units.now) (place_after front.now q)))) }
{
    let mut taken = BTreeSet::new(alloc);
    taken.insert(fstab)?;
    for path in paths {
        if takes_path(alloc, front, path, units)? {
            taken.insert(path.copy(alloc)?)?;
        }
    }
    Ok(taken)
}

/// The paths in byte order of the contents that the units of a system are read from: its fstab, the files of its units,
/// and the drop-ins of those whose files have a base.
///
/// It lists the folder of units twice, and reads each unit file and drop-in once.
pub fn taken<T: Tree>(
    alloc: Global,
    host: &mut T,
    system: &SystemName,
) -> Result<Listed<Path>, HostFault>
    ensures taken { IfOk result (λ places. Told (T.host host.old) (λ w. AreTaken places (takes_units w.leaves system.now) w.leaves)) }
    ensures sorted { IfOk result (λ places. IsStrictlySortedBy bytes_cmp places) }
    ensures reads { IsReading (T.host host.old) (T.host host.new) result }
{
    let units = read_file_units(alloc, host, system)?;
    let fstab = fstab_path(alloc, system)?;
    let folder = unit_folder(alloc, system)?;
    let front = with_slash(alloc, folder.as_str())?;
    let paths = host.list(alloc, &folder)?;
    let taken = taken_among(
        alloc,
        fstab,
        front.as_str(),
        paths.as_slice(),
        units.as_slice(),
    )?;
    Ok(Listed::of_set(alloc, taken)?)
}
