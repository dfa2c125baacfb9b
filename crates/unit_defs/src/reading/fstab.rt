//! Reads the fstab of a system.
ghost use Rattle.std.specs.Prelude.{◌≡◌, ◌∷◌, [], None, IfOk, OnOk};
ghost use Rattle.std.specs.Option.{option_map_or};
ghost use Rattle.host_trait.specs.Host.{Told};
ghost use Rattle.host_trait.specs.Reading.{IsReading};
ghost use Rattle.unit_defs.specs.Found.{Joins, JoinsLines};
ghost use Rattle.unit_defs.specs.Fstab.{fstab_of, fstab_path, target_of, wanted_by_lines};
ghost use Rattle.unit_defs.specs.Taken.{NotesLong};
ghost use Rattle.fstab_mounts.specs.Fstab.{fstab_units};
ghost use Rattle.switch_names.specs.Names.{is_name};

use super::found::FoundUnits;
use super::noting::content_measured;
use fstab_mounts::{FsUnit, parse};
use host_trait::{HostFault, Tree};
use std::alloc::{AllocError, Global};
use switch_names::{Bytes, Listed, Path, SystemName, UnitKind, UnitName};

/// The fstab of a system.
#[tactic(auto, unfolding(crate::specs::Fstab::fstab_path))]
pub fn fstab_path(alloc: Global, system: &SystemName) -> Result<Path, AllocError>
    ensures { IfOk result (λ path. path ≡ fstab_path system.now) }
{
    system.place(alloc, "etc/fstab")
}

/// The units that the lines of an fstab define, where it has content.
fn lines_in(alloc: Global, content: Option<Bytes>) -> Result<Listed<FsUnit>, AllocError>
    ensures { IfOk result (λ lines. lines ≡ option_map_or fstab_units content []) }
{
    match content {
        Some(bytes) => parse(alloc, bytes.as_slice()),
        None => Ok(Listed::new(alloc)),
    }
}

/// The units that the lines of a system's fstab define.
fn lines_of<T: Tree>(
    alloc: Global,
    host: &mut T,
    system: &SystemName,
    long: &mut bool,
) -> Result<Listed<FsUnit>, HostFault>
    ensures lines { IfOk result (λ lines. Told (T.host host.old) (λ w. lines ≡ fstab_of w.leaves system.now)) }
    ensures short { OnOk result (Told (T.host host.old) (λ w. NotesLong long.old long.new (λ q. is_name q (fstab_path system.now)) w.leaves)) }
    ensures reads { IsReading (T.host host.old) (T.host host.new) result }
{
    let path = fstab_path(alloc, system)?;
    let bytes = content_measured(alloc, host, &path, long)?;
    Ok(lines_in(alloc, bytes)?)
}

/// The target that wants the unit of a line.
fn target_of(alloc: Global, line: &FsUnit) -> Result<Option<UnitName>, AllocError>
    ensures { IfOk result (λ target. target ≡ target_of line.now) }
{
    match line.unit.kind() {
        UnitKind::Mount if line.auto => UnitName::of_text(alloc, "local-fs.target"),
        UnitKind::Swap => UnitName::of_text(alloc, "swap.target"),
        _ => Ok(None),
    }
}

/// Adds the unit of a line to those that its target wants.
fn add_wanted(alloc: Global, line: &FsUnit, found: &mut FoundUnits) -> Result<(), AllocError>
    ensures { OnOk result (Joins (λ unit. None) (wanted_by_lines (line.now ∷ [])) found.old found.new) }
{
    let Some(target) = target_of(alloc, line)? else {
        return Ok(());
    };
    found.add_want(alloc, target, line.unit.copy(alloc)?)
}

/// Adds what a line says.
fn add_line(alloc: Global, line: &FsUnit, found: &mut FoundUnits) -> Result<(), AllocError>
    ensures { OnOk result (JoinsLines (line.now ∷ []) found.old found.new) }
{
    found.add_line(alloc, line.unit.copy(alloc)?, line.text.copy(alloc)?)?;
    add_wanted(alloc, line, found)
}

/// Adds what these lines say.
fn add_lines(alloc: Global, lines: &[FsUnit], found: &mut FoundUnits) -> Result<(), AllocError>
    ensures { OnOk result (JoinsLines lines.now found.old found.new) }
{
    for line in lines {
        add_line(alloc, line, found)?;
    }
    Ok(())
}

/// Reads the fstab of a system, and adds what its lines say.
pub fn read_fstab<T: Tree>(
    alloc: Global,
    host: &mut T,
    system: &SystemName,
    found: &mut FoundUnits,
    long: &mut bool,
) -> Result<(), HostFault>
    ensures found { OnOk result (Told (T.host host.old) (λ w. JoinsLines (fstab_of w.leaves system.now) found.old found.new)) }
    ensures short { OnOk result (Told (T.host host.old) (λ w. NotesLong long.old long.new (λ q. is_name q (fstab_path system.now)) w.leaves)) }
    ensures reads { IsReading (T.host host.old) (T.host host.new) result }
{
    let lines = lines_of(alloc, host, system, long)?;
    Ok(add_lines(alloc, lines.as_slice(), found)?)
}
