//! The edges among the units that are started.
ghost use Rattle.std.specs.Prelude.{◌≡◌, ◌&&◌, ◌||◌, true, false, None, IfOk, IfSome, OnOk};
ghost use Rattle.std.specs.List.{flat_map};
ghost use Rattle.std.specs.List.Sorted.{IsStrictlySortedBy};
ghost use Rattle.host_trait.specs.Bytes.{bytes_cmp};
ghost use Rattle.start_order.specs.Order.{is_before};
ghost use Rattle.switch_names.specs.Names.{Name, has, is_name};
ghost use Rattle.unit_decide.specs.Sockets.{words};
ghost use Rattle.unit_defs.specs.Defs.{found_in};
ghost use Rattle.unit_text.specs.Lines.{is_blank};
ghost use Rattle.owed_plan.specs.StartEdges.{AreStartEdges, key_words};

use host_trait::UnitSet;
use start_order::{Edge, edges_between};
use std::alloc::{AllocError, Global};
use switch_names::{Listed, Text, UnitName};
use unit_defs::Defs;

/// The unit that a word names, of units in byte order.
fn find_start<'a>(starts: &'a [UnitName], word: &[u8]) -> Option<&'a UnitName>
    requires { IsStrictlySortedBy bytes_cmp starts.now }
    ensures none { result ≡ None → has starts.now word.now ≡ false }
    ensures some { IfSome result (λ start. (start.now ≡ word.now) × (has starts.now word.now ≡ true)) }
{
    match starts.binary_search_by(|other| other.as_str().as_bytes().cmp(word)) {
        Ok(at) => Some(&starts[at]),
        Err(_) => None,
    }
}

/// Adds the unit that a word names.
fn add_word(
    alloc: Global,
    starts: &[UnitName],
    named: &mut UnitSet,
    word: &[u8],
) -> Result<(), AllocError>
    requires { IsStrictlySortedBy bytes_cmp starts.now }
    ensures { OnOk result ((name : Name) → has named.new name ≡ (has named.old name || (has starts.now name && is_name name word.now))) }
{
    match find_start(starts, word) {
        Some(start) => {
            named.insert(start.copy(alloc)?)?;
            Ok(())
        }
        None => Ok(()),
    }
}

fn is_blank(byte: u8) -> bool
    ensures { result ≡ is_blank byte }
{
    byte == b' ' || byte == b'\t'
}

/// Adds the units that the words of a value name.
fn add_words(
    alloc: Global,
    starts: &[UnitName],
    named: &mut UnitSet,
    value: &str,
) -> Result<(), AllocError>
    requires { IsStrictlySortedBy bytes_cmp starts.now }
    ensures { OnOk result ((name : Name) → has named.new name ≡ (has named.old name || (has starts.now name && has (words value.now) name))) }
{
    for word in value.as_bytes().split(|byte| is_blank(*byte)) {
        add_word(alloc, starts, named, word)?;
    }
    Ok(())
}

/// Those of some units that the words of some values name.
fn named_starts(
    alloc: Global,
    starts: &[UnitName],
    values: &[Text],
) -> Result<Listed<UnitName>, AllocError>
    requires { IsStrictlySortedBy bytes_cmp starts.now }
    ensures { IfOk result (λ named. (name : Name) → has named name ≡ (has starts.now name && has (flat_map words values.now) name)) }
{
    let mut named = UnitSet::new(alloc);
    for value in values {
        add_words(alloc, starts, &mut named, value.as_str())?;
    }
    named.into_names(alloc)
}

/// Puts some units before one.
fn put_before(
    alloc: Global,
    edges: &mut Listed<Edge>,
    befores: &[UnitName],
    unit: &UnitName,
) -> Result<(), AllocError>
    ensures { OnOk result ((before after : Name) → is_before edges.new before after ≡ (is_before edges.old before after || (has befores.now before && is_name after unit.now))) }
{
    for before in befores {
        edges.push(Edge {
            before: before.copy(alloc)?,
            after: unit.copy(alloc)?,
        })?;
    }
    Ok(())
}

/// Puts some units after one.
fn put_after(
    alloc: Global,
    edges: &mut Listed<Edge>,
    unit: &UnitName,
    afters: &[UnitName],
) -> Result<(), AllocError>
    ensures { OnOk result ((before after : Name) → is_before edges.new before after ≡ (is_before edges.old before after || (is_name before unit.now && has afters.now after))) }
{
    for after in afters {
        edges.push(Edge {
            before: unit.copy(alloc)?,
            after: after.copy(alloc)?,
        })?;
    }
    Ok(())
}

/// Those of some units that the words of a key in the section `Unit` of a unit's text name.
fn starts_by(
    alloc: Global,
    new: &Defs,
    starts: &[UnitName],
    unit: &UnitName,
    key: &str,
) -> Result<Listed<UnitName>, AllocError>
    requires { IsStrictlySortedBy bytes_cmp starts.now }
    ensures { IfOk result (λ named. (name : Name) → has named name ≡ (has starts.now name && has (key_words (found_in new.now) key.now unit.now) name)) }
{
    match new.find(unit) {
        Some(text) => named_starts(alloc, starts, text.values("Unit", key)),
        None => Ok(Listed::new(alloc)),
    }
}

/// The edges among the units that are started: from each word of `After` in the section `Unit` of a unit's text to
/// that unit, and from it to each word of `Before`, where both are started and they are two.
///
/// Source: systemd.unit(5), "Before=, After=". The dependencies that systemd adds by itself are left out.
pub fn order_edges(
    alloc: Global,
    new: &Defs,
    starts: &Listed<UnitName>,
) -> Result<Listed<Edge>, AllocError>
    requires { IsStrictlySortedBy bytes_cmp starts.now }
    ensures { IfOk result (AreStartEdges (found_in new.now) starts.now) }
{
    let mut edges = Listed::new(alloc);
    for unit in starts.as_slice() {
        let befores = starts_by(alloc, new, starts.as_slice(), unit, "After")?;
        put_before(alloc, &mut edges, befores.as_slice(), unit)?;
        let afters = starts_by(alloc, new, starts.as_slice(), unit, "Before")?;
        put_after(alloc, &mut edges, unit, afters.as_slice())?;
    }
    edges_between(alloc, starts, edges.as_slice())
}
