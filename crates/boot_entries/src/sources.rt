//! The files that the boot menu is made of.
ghost use Rattle.std.specs.Prelude.{◌≡◌, ◌++◌, IfOk, OnOk};
ghost use Rattle.std.specs.List.{flat_map};
ghost use Rattle.boot_entries.specs.Sources.{sources_of, taken_of};

use crate::entry::{params_path, version_path};
use generations::{Gen, Gens};
use std::alloc::{AllocError, Global};
use switch_names::{Listed, Path};

/// Adds what the entry of a generation is made of, where it names a system.
fn add_sources(alloc: Global, paths: &mut Listed<Path>, generation: &Gen) -> Result<(), AllocError>
    ensures { OnOk result (paths.new ≡ paths.old ++ sources_of generation.now) }
{
    let Some(system) = &generation.target else {
        return Ok(());
    };
    paths.push(version_path(alloc, system)?)?;
    paths.push(params_path(alloc, system)?)
}

/// Adds what the entries of some generations are made of.
fn add_all(alloc: Global, paths: &mut Listed<Path>, list: &[Gen]) -> Result<(), AllocError>
    ensures { OnOk result (paths.new ≡ paths.old ++ flat_map sources_of list.now) }
{
    for generation in list {
        add_sources(alloc, paths, generation)?;
    }
    Ok(())
}

/// The files that the boot menu of some generations is made of, by generation: the version and the
/// kernel's parameters of each system that one of them names, whether or not these stand.
///
/// Source: Boot Loader Specification, "Type #1 Boot Loader Specification Entries".
pub fn taken(alloc: Global, gens: &Gens) -> Result<Listed<Path>, AllocError>
    ensures { IfOk result (λ paths. paths ≡ taken_of gens.now) }
{
    let mut paths = Listed::new(alloc);
    add_all(alloc, &mut paths, gens.list.as_slice())?;
    Ok(paths)
}
