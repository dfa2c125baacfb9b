//! Names in byte order.
ghost use Rattle.std.specs.Prelude.{◌≡◌, IfOk};
ghost use Rattle.std.specs.List.Sorted.{IsStrictlySortedBy};
ghost use Rattle.switch_names.specs.Names.{Name, has};
ghost use Rattle.host_trait.specs.World.{bytes_cmp};

use std::alloc::{AllocError, Global};
use std::collections::BTreeSet;
use switch_names::{Listed, Path};

/// The set of some names.
fn set_of(alloc: Global, names: &[Path]) -> Result<BTreeSet<Path>, AllocError>
    ensures { IfOk result (λ set. (q : Name) → has set.keys q ≡ has names.now q) }
{
    let mut set = BTreeSet::new(alloc);
    for name in names {
        set.insert(name.copy(alloc)?)?;
    }
    Ok(set)
}

/// Names in byte order, each once.
pub fn in_order(alloc: Global, names: &[Path]) -> Result<Listed<Path>, AllocError>
    ensures sorted { IfOk result (λ list. IsStrictlySortedBy bytes_cmp list) }
    ensures same { IfOk result (λ list. (q : Name) → has list q ≡ has names.now q) }
{
    let set = set_of(alloc, names)?;
    Listed::of_set(alloc, set)
}
