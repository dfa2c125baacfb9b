//! Reads the folder of a system's units and its fstab.
ghost use Rattle.std.specs.Prelude.{◌≡◌, [], ◌∷◌, ◌++◌, ◌&&◌, not, IfOk, OnOk};
ghost use Rattle.std.specs.Option.{option_copied};
ghost use Rattle.host_trait.specs.Host.{Told};
ghost use Rattle.host_trait.specs.Reading.{IsReading};
ghost use Rattle.unit_defs.specs.Defs.{AreSorted, AreUnitsOf, HaveFileTexts, own_at};
ghost use Rattle.unit_defs.specs.Found.{AreFilesAt, AreFilesOf, TakesPath, part_at};
ghost use Rattle.unit_defs.specs.Place.{is_want, place_after, place_of, unit_folder};
ghost use Rattle.unit_defs.specs.Taken.{NotesLong, is_read, takes_units};
ghost use Rattle.switch_names.specs.Names.{has, is_name};
ghost use Rattle.switch_names.specs.Path.{slash};

pub mod found;
pub mod fstab;
mod noting;
mod units;

use self::found::FoundUnits;
use self::fstab::read_fstab;
use self::noting::content_measured;
use self::units::units_of;
use crate::defs::Defs;
use crate::part::FilePart;
use crate::place::{UnitPlace, place_after};
use crate::unit::Unit;
use host_trait::{HostFault, Tree};
use std::alloc::{AllocError, Global};
use switch_names::{Listed, Path, SystemName, Text};
use unit_text::UnitText;

/// The text that another system has for the unit whose file this place is.
fn text_beside<'a>(place: &UnitPlace, beside: &'a Defs) -> Option<&'a UnitText>
    ensures { option_copied result ≡ own_at beside.now place.now }
{
    match place {
        UnitPlace::File(unit) => beside.own_text(unit),
        UnitPlace::DropIn(_, _) => None,
        UnitPlace::Want(_, _) => None,
    }
}

/// What the leaf at a path says, where this place is no wanted unit.
fn read_part<T: Tree>(
    alloc: Global,
    host: &mut T,
    path: &Path,
    place: &UnitPlace,
    beside: &Defs,
    long: &mut bool,
) -> Result<Option<FilePart>, HostFault>
    ensures part { IfOk result (λ part. Told (T.host host.old) (λ w. part ≡ part_at w.leaves path.now place.now)) }
    ensures short { OnOk result (Told (T.host host.old) (λ w. NotesLong long.old long.new (λ q. is_name q path.now && not (is_want place.now)) w.leaves)) }
    ensures reads { IsReading (T.host host.old) (T.host host.new) result }
{
    if place.is_want() {
        return Ok(None);
    }
    let bytes = content_measured(alloc, host, path, long)?;
    Ok(FilePart::read(alloc, bytes.as_ref(), text_beside(place, beside))?)
}

/// Reads what stands at a path, where the folder of units and a slash are its front.
fn read_path<T: Tree>(
    alloc: Global,
    host: &mut T,
    front: &str,
    path: &Path,
    beside: &Defs,
    found: &mut FoundUnits,
    long: &mut bool,
) -> Result<(), HostFault>
    ensures found { OnOk result (Told (T.host host.old) (λ w. TakesPath w.leaves front.now path.now found.old found.new)) }
    ensures short { OnOk result (Told (T.host host.old) (λ w. NotesLong long.old long.new (λ q. is_name q path.now && is_read (place_after front.now path.now)) w.leaves)) }
    ensures reads { IsReading (T.host host.old) (T.host host.new) result }
{
    let Some(place) = place_after(alloc, front, path)? else {
        return Ok(());
    };
    let part = read_part(alloc, host, path, &place, beside, long)?;
    Ok(place.put(alloc, part, found)?)
}

/// Reads what stands at these paths.
fn read_paths<T: Tree>(
    alloc: Global,
    host: &mut T,
    front: &str,
    paths: &[Path],
    beside: &Defs,
    long: &mut bool,
) -> Result<FoundUnits, HostFault>
    ensures found { IfOk result (λ found. Told (T.host host.old) (λ w. AreFilesAt w.leaves front.now paths.now found)) }
    ensures short { OnOk result (Told (T.host host.old) (λ w. NotesLong long.old long.new (λ q. has paths.now q && is_read (place_after front.now q)) w.leaves)) }
    ensures reads { IsReading (T.host host.old) (T.host host.new) result }
{
    let mut found = FoundUnits::new(alloc);
    for path in paths {
        read_path(alloc, host, front, path, beside, &mut found, long)?;
    }
    Ok(found)
}

/// The folder of a system's units.
#[tactic(auto, unfolding(crate::specs::Place::unit_folder))]
pub fn unit_folder(alloc: Global, system: &SystemName) -> Result<Path, AllocError>
    ensures { IfOk result (λ path. path ≡ unit_folder system.now) }
{
    system.place(alloc, "etc/systemd/system")
}

/// A text with a slash after it.
pub fn with_slash(alloc: Global, text: &str) -> Result<Text, AllocError>
    ensures { IfOk result (λ made. made ≡ text.now ++ slash ∷ []) }
{
    let mut made = String::from_str(alloc, text)?;
    made.push('/')?;
    Ok(Text::from_string(made))
}

/// Reads what stands in the folder of a system's units.
fn read_folder<T: Tree>(
    alloc: Global,
    host: &mut T,
    system: &SystemName,
    beside: &Defs,
    long: &mut bool,
) -> Result<FoundUnits, HostFault>
    ensures found { IfOk result (λ found. Told (T.host host.old) (λ w. AreFilesOf w.leaves system.now [] found)) }
    ensures short { OnOk result (Told (T.host host.old) (λ w. NotesLong long.old long.new (λ q. is_read (place_of system.now q)) w.leaves)) }
    ensures reads { IsReading (T.host host.old) (T.host host.new) result }
{
    let folder = unit_folder(alloc, system)?;
    let front = with_slash(alloc, folder.as_str())?;
    let paths = host.list(alloc, &folder)?;
    read_paths(alloc, host, front.as_str(), paths.as_slice(), beside, long)
}

/// The units of a system, in byte order, read beside those of another one. A content that is too long is noted.
pub fn read_units<T: Tree>(
    alloc: Global,
    host: &mut T,
    system: &SystemName,
    beside: &Defs,
    long: &mut bool,
) -> Result<Listed<Unit>, HostFault>
    ensures sorted { IfOk result (λ units. AreSorted units) }
    ensures units { IfOk result (λ units. Told (T.host host.old) (λ w. AreUnitsOf w.leaves system.now units)) }
    ensures short { OnOk result (Told (T.host host.old) (λ w. NotesLong long.old long.new (takes_units w.leaves system.now) w.leaves)) }
    ensures reads { IsReading (T.host host.old) (T.host host.new) result }
{
    let mut found = read_folder(alloc, host, system, beside, long)?;
    read_fstab(alloc, host, system, &mut found, long)?;
    let units = units_of(alloc, &found)?;
    Ok(units)
}

/// The units of a system in byte order, read by their files alone: what a line of the fstab says of one isn't joined.
pub fn read_file_units<T: Tree>(
    alloc: Global,
    host: &mut T,
    system: &SystemName,
) -> Result<Listed<Unit>, HostFault>
    ensures sorted { IfOk result (λ units. AreSorted units) }
    ensures texts { IfOk result (λ units. Told (T.host host.old) (λ w. HaveFileTexts w.leaves system.now units)) }
    ensures reads { IsReading (T.host host.old) (T.host host.new) result }
{
    let none = Defs::none(alloc);
    let mut long = false;
    let found = read_folder(alloc, host, system, &none, &mut long)?;
    let units = units_of(alloc, &found)?;
    Ok(units)
}
