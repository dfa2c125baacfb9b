//! The names that a text begins with.
ghost use Rattle.std.specs.Prelude.{◌≡◌, ◌||◌, ◌&&◌, true, false, IsNone, IfOk, IfSome, OnOk, nat_eq};
ghost use Rattle.std.specs.List.{starts_with};
ghost use Rattle.std.specs.List.Sorted.{IsStrictlySortedBy};
ghost use Rattle.host_trait.specs.World.{bytes_cmp};
ghost use Rattle.switch_names.specs.Names.{Name, has};
ghost use Rattle.store_names.specs.Beginnings.{IsCut, IsGreatest, common, is_up_to};

use std::alloc::{AllocError, Global};
use std::collections::BTreeSet;
use switch_names::Path;

/// How many bytes two texts begin with alike.
fn common(one: &[u8], other: &[u8]) -> usize
    ensures { result ≡ common one.now other.now }
{
    let mut count = 0;
    while count < one.len() && count < other.len() && one[count] == other[count] {
        count += 1;
    }
    count
}

/// Whether a name isn't above a text in byte order.
fn is_up_to(name: &Path, text: &[u8]) -> bool
    ensures { result ≡ is_up_to text.now name.now }
{
    !name.as_str().as_bytes().cmp(text).is_gt()
}

/// The greatest of some names in byte order that isn't above a text.
fn greatest_up_to<'a>(names: &'a [Path], text: &[u8]) -> Option<&'a Path>
    requires { IsStrictlySortedBy bytes_cmp names.now }
    ensures none { IsNone result → (name : Name) → has names.now name ≡ true → is_up_to text.now name ≡ false }
    ensures some { IfSome result (λ greatest. IsGreatest names.now text.now greatest.now) }
{
    let count = names.partition_point(|name| is_up_to(name, text));
    names[..count].last()
}

/// Adds a name, where a text begins with it. Answers how many bytes of the text the shorter names reach at most with
/// which it begins too.
fn add_if_begun(
    alloc: Global,
    found: &mut BTreeSet<Path>,
    name: &Path,
    text: &[u8],
) -> Result<usize, AllocError>
    ensures { IfOk result (λ count. IsCut name.now text.now found.old.keys found.new.keys count) }
{
    let bytes = name.as_str().as_bytes();
    let count = common(bytes, text);
    if count < bytes.len() {
        return Ok(count);
    }
    found.insert(name.copy(alloc)?)?;
    Ok(count - 1)
}

/// Adds those of some names in byte order that a text begins with.
///
/// The greatest name that isn't above the text begins with each of them. So the text is cut down, step by step, to what
/// it has in common with that name, or to less than the name where it begins with all of it.
pub(crate) fn add_beginnings(
    alloc: Global,
    found: &mut BTreeSet<Path>,
    names: &[Path],
    text: &[u8],
) -> Result<(), AllocError>
    requires { IsStrictlySortedBy bytes_cmp names.now }
    ensures { OnOk result ((name : Name) → has found.new.keys name ≡ (has found.old.keys name || (has names.now name && starts_with nat_eq text.now name))) }
{
    let mut left = text;
    while let Some(name) = greatest_up_to(names, left) {
        let count = add_if_begun(alloc, found, name, left)?;
        left = &left[..count];
    }
    Ok(())
}
