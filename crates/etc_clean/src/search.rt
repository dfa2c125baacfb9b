//! Searches among names in byte order.
ghost use Rattle.std.specs.Prelude.{◌≡◌, ◌++◌, ◌∷◌, [], nat_eq, IfOk};
ghost use Rattle.std.specs.List.{list_any, starts_with};
ghost use Rattle.std.specs.List.Sorted.{IsStrictlySortedBy};
ghost use Rattle.switch_names.specs.Names.{has};
ghost use Rattle.switch_names.specs.Path.{is_below, slash};
ghost use Rattle.host_trait.specs.World.{bytes_cmp, is_in_line};

use std::alloc::{AllocError, Global};
use switch_names::{Path, Text};

/// Whether a name is one of these, where they are in byte order.
pub fn contains(names: &[Path], name: &Path) -> bool
    ensures { IsStrictlySortedBy bytes_cmp names.now → result ≡ has names.now name.now }
{
    names.binary_search(name).is_ok()
}

/// A name with a slash after it.
fn with_slash(alloc: Global, name: &Path) -> Result<Text, AllocError>
    ensures { IfOk result (λ made. made ≡ name.now ++ slash ∷ []) }
{
    let mut made = String::from_str(alloc, name.as_str())?;
    made.push('/')?;
    Ok(Text::from_string(made))
}

/// Whether a name begins with a text.
fn begins(name: &Path, front: &str) -> bool
    ensures { result ≡ starts_with nat_eq name.now front.now }
{
    name.as_str().starts_with(front)
}

/// Whether one of these names begins with a text, where they are in byte order.
fn has_front(names: &[Path], front: &str) -> bool
    ensures { IsStrictlySortedBy bytes_cmp names.now → result ≡ list_any (λ q. starts_with nat_eq q front.now) names.now }
{
    // What begins with a text comes next after it.
    match names.binary_search_by(|name| name.as_str().cmp(front)) {
        Ok(_) => true,
        Err(at) => match names.get(at) {
            Some(name) => begins(name, front),
            None => false,
        },
    }
}

/// Whether one of these names lies strictly below another, where they are in byte order.
fn has_below(alloc: Global, names: &[Path], name: &Path) -> Result<bool, AllocError>
    ensures { IfOk result (λ below. IsStrictlySortedBy bytes_cmp names.now → below ≡ list_any (λ q. is_below q name.now) names.now) }
{
    let front = with_slash(alloc, name)?;
    Ok(has_front(names, front.as_str()))
}

/// Whether one of these names lies strictly above another, where they are in byte
/// order.
fn has_above(alloc: Global, names: &[Path], name: &Path) -> Result<bool, AllocError>
    ensures { IfOk result (λ above. IsStrictlySortedBy bytes_cmp names.now → above ≡ list_any (λ q. is_below name.now q) names.now) }
{
    let mut next = name.parent(alloc)?;
    while let Some(place) = next {
        if contains(names, &place) {
            return Ok(true);
        }
        next = place.parent(alloc)?;
    }
    Ok(false)
}

/// Whether one of these names lies strictly above or below another, where they are in byte order.
///
/// It searches once for what is below, and once for each place above.
pub fn has_in_line(alloc: Global, names: &[Path], name: &Path) -> Result<bool, AllocError>
    ensures { IfOk result (λ line. IsStrictlySortedBy bytes_cmp names.now → line ≡ list_any (λ q. is_in_line q name.now) names.now) }
{
    let below = has_below(alloc, names, name)?;
    if below {
        return Ok(below);
    }
    let above = has_above(alloc, names, name)?;
    Ok(above)
}
