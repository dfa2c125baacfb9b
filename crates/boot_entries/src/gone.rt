//! The entries that go.
ghost use Rattle.std.specs.Prelude.{◌≡◌, ◌||◌, ◌&&◌, ◌==◌, ◌++◌, ◌∷◌, [], ℕ, IfOk, OnOk, filter, is_some};
ghost use Rattle.std.specs.BTreeSet.{contains};
ghost use Rattle.std.specs.Ordering.{nat_cmp};
ghost use Rattle.host_trait.specs.Host.{Told};
ghost use Rattle.host_trait.specs.Reading.{IsReading};
ghost use Rattle.boot_entries.specs.Texts.{gone_of, has_target, is_gone_by};

use crate::entry::folder_path;
use crate::number::number_of_entry;
use generations::Gen;
use host_trait::{HostFault, Tree};
use std::alloc::{AllocError, Global};
use std::collections::BTreeSet;
use switch_names::{Listed, Path};

/// Adds the number of a generation that names a system.
fn add_number(numbers: &mut BTreeSet<u32>, generation: &Gen) -> Result<(), AllocError>
    ensures { OnOk result ((n : ℕ) → contains nat_cmp numbers.new n ≡ (contains nat_cmp numbers.old n || (generation.now.number == n && is_some generation.now.target))) }
{
    if generation.target.is_some() {
        numbers.insert(generation.number)?;
    }
    Ok(())
}

/// The numbers of the generations that name a system.
fn targeted(alloc: Global, list: &[Gen]) -> Result<BTreeSet<u32>, AllocError>
    ensures { IfOk result (λ numbers. (n : ℕ) → contains nat_cmp numbers n ≡ has_target list.now n) }
{
    let mut numbers = BTreeSet::new(alloc);
    for generation in list {
        add_number(&mut numbers, generation)?;
    }
    Ok(numbers)
}

/// Whether a path is an entry whose number isn't among these.
fn is_gone(alloc: Global, path: &Path, numbers: &BTreeSet<u32>) -> Result<bool, AllocError>
    ensures { IfOk result (λ is. is ≡ is_gone_by (contains nat_cmp numbers.now) path.now) }
{
    let Some(number) = number_of_entry(alloc, path.as_str())? else {
        return Ok(false);
    };
    Ok(!numbers.contains(&number))
}

/// Adds a path, where it is an entry whose number isn't among these.
fn add_gone(
    alloc: Global,
    gone: &mut Listed<Path>,
    path: &Path,
    numbers: &BTreeSet<u32>,
) -> Result<(), AllocError>
    ensures { OnOk result (gone.new ≡ gone.old ++ filter (is_gone_by (contains nat_cmp numbers.now)) (path.now ∷ [])) }
{
    if is_gone(alloc, path, numbers)? {
        gone.push(path.copy(alloc)?)?;
    }
    Ok(())
}

/// Those of these paths that are entries whose numbers aren't among these.
fn gone_among(
    alloc: Global,
    paths: &[Path],
    numbers: &BTreeSet<u32>,
) -> Result<Listed<Path>, AllocError>
    ensures { IfOk result (λ gone. gone ≡ filter (is_gone_by (contains nat_cmp numbers.now)) paths.now) }
{
    let mut gone = Listed::new(alloc);
    for path in paths {
        add_gone(alloc, &mut gone, path, numbers)?;
    }
    Ok(gone)
}

/// The entries that stand and whose number no generation with a target has, in byte order.
pub fn read_gone<T: Tree>(
    alloc: Global,
    host: &mut T,
    list: &[Gen],
) -> Result<Listed<Path>, HostFault>
    ensures gone { IfOk result (λ gone. Told (T.host host.old) (λ w. gone ≡ gone_of w.leaves list.now)) }
    ensures reads { IsReading (T.host host.old) (T.host host.new) result }
{
    let numbers = targeted(alloc, list)?;
    let folder = folder_path(alloc)?;
    let paths = host.list(alloc, &folder)?;
    let gone = gone_among(alloc, paths.as_slice(), &numbers)?;
    Ok(gone)
}
