//! Finds a unit or its template among the units of a system.
ghost use Rattle.std.specs.Prelude.{◌≡◌, ◌++◌, ◌∷◌, ◌<◌, List, ℕ, None, Some, length, map, slice_get, option_and_then, MatchOption, IfOk, IfErr};
ghost use Rattle.std.specs.List.{position_or_len, before_first, after_first};
ghost use Rattle.std.specs.Ordering.{ordering_then};
ghost use Rattle.switch_names.specs.UnitName.{is_at_sign, template_of};
ghost use Rattle.host_trait.specs.World.{bytes_cmp};
ghost use Rattle.unit_defs.specs.Defs.{AreSorted, unit_in};

use crate::unit::Unit;
use std::cmp::Ordering;
use switch_names::UnitName;

/// How a name stands to a front, and what is left of it.
fn compare_front<'a>(name: &'a [u8], front: &[u8]) -> (Ordering, &'a [u8])
    ensures { (rest : List ℕ) → bytes_cmp name.now (front.now ++ rest) ≡ ordering_then result.0 (bytes_cmp result.1.now rest) }
{
    let (head, rest) = name.split_at(name.len().min(front.len()));
    (head.cmp(front), rest)
}

/// How a name stands to the name of a template, of which this stands before and after the `@`.
fn compare_template(name: &[u8], before: &[u8], end: &[u8]) -> Ordering
    ensures { result ≡ bytes_cmp name.now (before.now ++ 64 ∷ end.now) }
{
    let (first, rest) = compare_front(name, before);
    let (second, rest) = compare_front(rest, b"@");
    first.then(second).then(rest.cmp(end))
}

/// Where the unit of a name stands.
pub fn find_unit(units: &[Unit], name: &UnitName) -> Option<usize>
    requires { AreSorted units.now }
    ensures { MatchOption result
        (unit_in units.now name.now ≡ None)
        (λ at. (at < length units.now) × (unit_in units.now name.now ≡ slice_get units.now at)) }
{
    units.binary_search_by(|unit| unit.name.cmp(name)).ok()
}

/// Where the template stands of which this stands before and after the `@`.
fn find_parts(units: &[Unit], before: &str, end: &str) -> Option<usize>
    requires { AreSorted units.now }
    ensures { MatchOption result
        (unit_in units.now (before.now ++ 64 ∷ end.now) ≡ None)
        (λ at. (at < length units.now) × (unit_in units.now (before.now ++ 64 ∷ end.now) ≡ slice_get units.now at)) }
{
    let before = before.as_bytes();
    let end = end.as_bytes();
    units
        .binary_search_by(|unit| compare_template(unit.name.as_str().as_bytes(), before, end))
        .ok()
}

/// What a stem has before and after its first `@`.
fn split_at_sign(stem: &str) -> Option<(&str, &str)>
    ensures { MatchOption result
        (position_or_len is_at_sign stem.now ≡ length stem.now)
        (λ parts. (position_or_len is_at_sign stem.now < length stem.now)
        × (parts.0.now ≡ before_first is_at_sign stem.now)
        × (parts.1.now ≡ after_first is_at_sign stem.now)) }
{
    stem.split_once('@')
}

/// Where the template of a unit stands.
pub fn find_template(units: &[Unit], name: &UnitName) -> Option<usize>
    requires { AreSorted units.now }
    ensures { MatchOption result
        (option_and_then (unit_in units.now) (template_of name.now) ≡ None)
        (λ at. (at < length units.now) × (option_and_then (unit_in units.now) (template_of name.now) ≡ slice_get units.now at)) }
{
    let (before, instance) = split_at_sign(name.stem())?;
    if instance.is_empty() {
        return None;
    }
    find_parts(units, before, name.kind().ending())
}
