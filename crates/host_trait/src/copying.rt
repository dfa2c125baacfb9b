//! Copies of what a world holds.
ghost use Rattle.std.specs.Prelude.{◌≡◌, IfOk};
ghost use Rattle.host_trait.specs.LeafMap.{leaves_of};

use crate::entry::{Bad, Entry};
use crate::leaf::Leaf;
use crate::leaf_map::put_leaf;
use std::alloc::{AllocError, Global};
use std::collections::BTreeMap;
use switch_names::{Listed, Path};

/// Equal leaves at the same paths.
pub fn copy_leaves(
    alloc: Global,
    leaves: &BTreeMap<Path, Leaf>,
) -> Result<BTreeMap<Path, Leaf>, AllocError>
    ensures { IfOk result (λ copied. leaves_of copied ≡ leaves_of leaves.now) }
{
    let mut copied = BTreeMap::new(alloc);
    for (path, leaf) in leaves.iter() {
        let _none = put_leaf(&mut copied, path.copy(alloc)?, leaf.copy(alloc)?)?;
    }
    Ok(copied)
}

/// Equal paths in the same order.
pub fn copy_paths(alloc: Global, paths: &[Path]) -> Result<Listed<Path>, AllocError>
    ensures { IfOk result (λ copied. copied ≡ paths.now) }
{
    let mut copied = Listed::new(alloc);
    for path in paths {
        copied.push(path.copy(alloc)?)?;
    }
    Ok(copied)
}

/// The same units that fail, in the same order.
pub fn copy_bad(alloc: Global, list: &[Bad]) -> Result<Listed<Bad>, AllocError>
    ensures { IfOk result (λ copied. copied ≡ list.now) }
{
    let mut copied = Listed::new(alloc);
    for bad in list {
        copied.push(bad.copy(alloc)?)?;
    }
    Ok(copied)
}

/// The same acts in the same order.
pub fn copy_journal(alloc: Global, journal: &[Entry]) -> Result<Listed<Entry>, AllocError>
    ensures { IfOk result (λ copied. copied ≡ journal.now) }
{
    let mut copied = Listed::new(alloc);
    for entry in journal {
        copied.push(entry.copy(alloc)?)?;
    }
    Ok(copied)
}
