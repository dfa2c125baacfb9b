//! Two texts of a unit, side by side.
ghost use Rattle.std.specs.Prelude.{◌≡◌, ◌↔◌, ◌++◌, filter, slice_get};
ghost use Rattle.unit_compare.specs.declared.comparison.Comparison.{Comparison};
ghost use Rattle.unit_compare.specs.Compare.{AreSame, AreReloadOnly, AreChanged, comparison, differs, outcome_of};
ghost use Rattle.unit_compare.specs.Walk.{key_comparison, next_order};
ghost use Rattle.unit_text.specs.Parts.{AreParts};
ghost use Rattle.unit_text.specs.UnitText.{values_of};

use crate::comparison::Comparison;
use crate::keys::compare_values;
use std::cmp::Ordering;
use switch_names::{Text, UnitKind};
use unit_text::{Parts, UnitKey, UnitText};

/// How the keys at these places stand to each other. A text that has none there stands behind.
fn next_order(old: &[UnitKey], old_at: usize, new: &[UnitKey], new_at: usize) -> Option<Ordering>
    ensures { result ≡ next_order (slice_get old.now old_at) (slice_get new.now new_at) }
{
    match (old.get(old_at), new.get(new_at)) {
        (Some(old), Some(new)) => Some(old.cmp(new)),
        (Some(_), None) => Some(Ordering::Less),
        (None, Some(_)) => Some(Ordering::Greater),
        (None, None) => None,
    }
}

/// The comparison by one key, which has these values by the first files of the two texts alone.
fn compare_key<'a>(
    kind: UnitKind,
    key: &UnitKey,
    old: &Parts<'a>,
    old_front: &'a [Text],
    new: &Parts<'a>,
    new_front: &'a [Text],
) -> Comparison
    requires old { AreParts old.now }
    requires new { AreParts new.now }
    ensures { (o : AreParts old.now) (n : AreParts new.now) → old_front.now ≡ values_of o.front key.now → new_front.now ≡ values_of n.front key.now
        → result ≡ key_comparison kind key.now (values_of old.now.text.now key.now) (values_of new.now.text.now key.now) }
{
    compare_values(
        kind,
        key,
        old.values(key, old_front),
        new.values(key, new_front),
    )
}

/// How a unit changed by the keys of the files with which its texts begin.
fn compare_fronts<'a>(kind: UnitKind, old: &Parts<'a>, new: &Parts<'a>) -> Comparison
    requires old { AreParts old.now }
    requires new { AreParts new.now }
    ensures { result ≡ outcome_of kind (filter (differs old.now.text.now new.now.text.now) (old.now.front_keys.now ++ new.now.front_keys.now)) }
{
    let mut outcome = Comparison::Same;
    let mut old_at = 0;
    let mut new_at = 0;
    while let Some(order) = next_order(old.front_keys, old_at, new.front_keys, new_at) {
        let one = match order {
            Ordering::Less => compare_key(
                kind,
                &old.front_keys[old_at],
                &*old,
                old.front_values[old_at].as_slice(),
                &*new,
                &[],
            ),
            Ordering::Equal => compare_key(
                kind,
                &old.front_keys[old_at],
                &*old,
                old.front_values[old_at].as_slice(),
                &*new,
                new.front_values[new_at].as_slice(),
            ),
            Ordering::Greater => compare_key(
                kind,
                &new.front_keys[new_at],
                &*old,
                &[],
                &*new,
                new.front_values[new_at].as_slice(),
            ),
        };
        outcome = outcome.worse(one);
        old_at += usize::from(order.is_le());
        new_at += usize::from(order.is_ge());
    }
    outcome
}

/// How a unit changed by these keys.
fn compare_keys(kind: UnitKind, old: &UnitText, new: &UnitText, keys: &[UnitKey]) -> Comparison
    ensures { result ≡ outcome_of kind (filter (differs old.now new.now) keys.now) }
{
    let mut outcome = Comparison::Same;
    for key in keys {
        let section = key.section.as_str();
        let name = key.key.as_str();
        let one = compare_values(
            kind,
            key,
            old.values(section, name),
            new.values(section, name),
        );
        outcome = outcome.worse(one);
    }
    outcome
}

/// How a unit of this kind changed from an old text to a new one, by the keys of both.
fn compare_texts(kind: UnitKind, old: &UnitText, new: &UnitText) -> Comparison
    ensures { result ≡ comparison kind old.now new.now }
{
    let old_parts = old.parts();
    let new_parts = new.parts();
    compare_fronts(kind, &old_parts, &new_parts)
        .worse(compare_keys(kind, old, new, old_parts.changed_keys))
        .worse(compare_keys(kind, old, new, new_parts.changed_keys))
}

/// How a unit of this kind changed from an old text to a new one.
///
/// Source: NixOS manual, "Unit handling".
pub fn compare(kind: UnitKind, old: &UnitText, new: &UnitText) -> Comparison
    ensures exact { result ≡ comparison kind old.now new.now }

    // The same by the keys that differ.
    ensures same { (result ≡ Comparison.Same) ↔ AreSame old.now new.now }
    ensures reload_only { (result ≡ Comparison.ReloadOnly) ↔ AreReloadOnly kind old.now new.now }
    ensures changed { (result ≡ Comparison.Changed) ↔ AreChanged kind old.now new.now }
{
    if old.is_same_file(new) {
        Comparison::Same
    } else {
        compare_texts(kind, old, new)
    }
}
