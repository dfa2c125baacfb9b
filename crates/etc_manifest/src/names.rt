//! The names of the leaves below a folder.
ghost use Rattle.std.specs.Prelude.{◌≡◌, ◌<◌, ◌++◌, [], ℕ, true, false, List, length, Some, IfOk, slice_get, string_bytes};
ghost use Rattle.std.specs.List.{AllByRecursion, filter_map};
ghost use Rattle.std.specs.List.Sorted.{IsStrictlySortedBy};
ghost use Rattle.std.specs.declared.cmp.Ordering.TheVariants.{Less};
ghost use Rattle.switch_names.specs.Names.{has};
ghost use Rattle.host_trait.specs.Bytes.{bytes_cmp};
ghost use Rattle.switch_names.specs.Texts.{after_front};
ghost use Rattle.etc_manifest.specs.Place.{path_in};

use std::alloc::{AllocError, Global};
use std::cmp::Ordering;
use switch_names::{Listed, Path};

/// Whether a name comes after others in byte order, where they are in that order.
fn is_after(names: &[Path], name: &Path) -> bool
    ensures after { result ≡ true → IsStrictlySortedBy bytes_cmp names.now → AllByRecursion (λ other. bytes_cmp other name.now ≡ Less) names.now }
    ensures last { AllByRecursion (λ other. bytes_cmp other name.now ≡ Less) names.now → result ≡ true }
{
    let Some(last) = names.last() else {
        return true;
    };
    match last.cmp(name) {
        Ordering::Less => true,
        _ => false,
    }
}

/// Names in byte order, each once.
fn in_order(names: Vec<Path>) -> Result<Listed<Path>, AllocError>
    ensures { IfOk result (λ list. IsStrictlySortedBy bytes_cmp list) }
{
    let mut names = names;
    names.sort()?;
    names.dedup();
    Ok(Listed::from_vec(names))
}

/// What each path below a folder has after it, in byte order: also where the paths aren't.
pub fn names_after(alloc: Global, folder: &Path, paths: &[Path]) -> Result<Listed<Path>, AllocError>
    ensures sorted { IfOk result (λ names. IsStrictlySortedBy bytes_cmp names) }
    ensures names { IfOk result (λ names. IsStrictlySortedBy bytes_cmp paths.now → names ≡ filter_map (after_front (path_in folder.now [])) paths.now) }
{
    let mut names = Vec::new(alloc);
    // A host lists in byte order, so that nothing is sorted.
    let mut is_sorted = true;
    for path in paths {
        let Some(name) = path.name_below(alloc, folder)? else {
            continue;
        };
        is_sorted = is_sorted && is_after(names.as_slice(), &name);
        names.push(name)?;
    }
    if is_sorted {
        return Ok(Listed::from_vec(names));
    }
    in_order(names)
}

/// Whether a name is among names in byte order.
pub fn has_name(names: &[Path], name: &str) -> bool
    requires { IsStrictlySortedBy bytes_cmp names.now }
    ensures { result ≡ has names.now name.now }
{
    names
        .binary_search_by(|other| other.as_str().cmp(name))
        .is_ok()
}

/// Whether a longer name begins with the one at this place, of names in byte order.
pub fn has_longer(names: &[Path], at: usize) -> bool
    requires sorted { IsStrictlySortedBy bytes_cmp names.now }
    requires there { at < length names.now }
    ensures { result ≡ false → (name end : List ℕ) → slice_get names.now at ≡ Some name → 0 < length end → has names.now (name ++ end) ≡ false }
{
    // What begins with a name comes next after it.
    let name = names[at].as_str();
    match names.get(at + 1) {
        Some(next) => next.as_str().as_bytes().starts_with(name.as_bytes()),
        None => false,
    }
}

/// A text with an ending.
pub fn with_ending(alloc: Global, text: &str, ending: &str) -> Result<String, AllocError>
    ensures { IfOk result (λ made. string_bytes made ≡ text.now ++ ending.now) }
{
    let mut made = String::from_str(alloc, text)?;
    made.push_str(ending)?;
    Ok(made)
}
