//! Sets of names.
ghost use Rattle.std.specs.Prelude.{◌≡◌, ◌||◌, ◌++◌, IfOk, OnOk};
ghost use Rattle.std.specs.List.Sorted.{IsStrictlySortedBy};
ghost use Rattle.std.specs.Option.{option_copied};
ghost use Rattle.host_trait.specs.World.{bytes_cmp};
ghost use Rattle.store_names.specs.Occurs.{AreInFolder};
ghost use Rattle.switch_names.specs.Names.{Name, has};
ghost use Rattle.store_live.specs.Grown.{IsGrown, IsIn};

use std::alloc::{AllocError, Global};
use std::collections::BTreeSet;
use store_names::occurring;
use switch_names::{Listed, Path};

/// Adds the names of a list to a set.
pub(crate) fn add_all(
    alloc: Global,
    set: &mut BTreeSet<Path>,
    names: &[Path],
) -> Result<(), AllocError>
    ensures { OnOk result ((x : Name) → has set.new.keys x ≡ (has set.old.keys x || has names.now x)) }
{
    for name in names {
        set.insert(name.copy(alloc)?)?;
    }
    Ok(())
}

/// Adds the names of a list at the end of another.
pub(crate) fn push_all(
    alloc: Global,
    list: &mut Listed<Path>,
    names: &[Path],
) -> Result<(), AllocError>
    ensures { OnOk result (list.new ≡ list.old ++ names.now) }
{
    for name in names {
        list.push(name.copy(alloc)?)?;
    }
    Ok(())
}

/// The names of a set, in byte order.
pub(crate) fn into_names(alloc: Global, set: BTreeSet<Path>) -> Result<Listed<Path>, AllocError>
    ensures names { IfOk result (λ names. names ≡ set.keys) }
    ensures sorted { IsStrictlySortedBy bytes_cmp set.keys }
{
    let mut names = Listed::new(alloc);
    for name in set {
        names.push(name)?;
    }
    Ok(names)
}

/// Adds those of some store paths that stand in a text, where there is one, with these bytes before them.
pub(crate) fn add_in(
    alloc: Global,
    set: &mut BTreeSet<Path>,
    stored: &[Path],
    front: &[u8],
    text: Option<&[u8]>,
) -> Result<(), AllocError>
    requires sorted { IsStrictlySortedBy bytes_cmp stored.now }
    requires folder { AreInFolder stored.now }
    ensures { OnOk result (IsGrown set.old.keys set.new.keys (IsIn stored.now front.now (option_copied text.entry))) }
{
    let Some(text) = text else {
        return Ok(());
    };
    let names = occurring(alloc, stored, front, text)?;
    add_all(alloc, set, names.as_slice())
}
