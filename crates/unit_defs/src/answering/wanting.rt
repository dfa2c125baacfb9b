//! The units that each unit of a system wants.
ghost use Rattle.std.specs.Prelude.{◌≡◌, ◌==◌, ◌<◌, [], Some, IfOk, OnOk, map, option_and_then};
ghost use Rattle.std.specs.List.{flat_map, slice_split};
ghost use Rattle.std.specs.Option.{option_copied};
ghost use Rattle.switch_names.specs.UnitName.{template_of};
ghost use Rattle.unit_defs.specs.Defs.{AddsName, AddsWanted, AreNamesOf, AreSorted, found_in, own_in, unit_in, wants_for};
ghost use Rattle.unit_defs.specs.Units.{can_be_wanted, wanted, words_in, words_of};

use super::search::{find_template, find_unit};
use crate::unit::{Unit, Wants, copies};
use host_trait::UnitSet;
use std::alloc::{AllocError, Global};
use switch_names::{Listed, Text, UnitName};
use unit_text::UnitText;

/// The text that a unit has of its own.
pub fn own_text<'a>(units: &'a [Unit], name: &UnitName) -> Option<&'a UnitText>
    requires { AreSorted units.now }
    ensures { option_copied result ≡ own_in units.now name.now }
{
    units[find_unit(units, name)?].text()
}

/// The text that the template of a unit has of its own.
fn template_text<'a>(units: &'a [Unit], name: &UnitName) -> Option<&'a UnitText>
    requires { AreSorted units.now }
    ensures { option_copied result ≡ option_and_then (own_in units.now) (template_of name.now) }
{
    units[find_template(units, name)?].text()
}

/// The text of a unit: its own, or else its template's.
pub fn find_text<'a>(units: &'a [Unit], name: &UnitName) -> Option<&'a UnitText>
    requires { AreSorted units.now }
    ensures { option_copied result ≡ found_in units.now name.now }
{
    let _name = name.as_str();
    match own_text(units, name) {
        Some(text) => Some(text),
        None => template_text(units, name),
    }
}

/// Whether a unit is defined and no template.
fn can_be_wanted(units: &[Unit], name: &UnitName) -> bool
    requires { AreSorted units.now }
    ensures { result ≡ can_be_wanted (own_in units.now) name.now }
{
    if name.is_template() {
        return false;
    }
    find_text(units, name).is_some()
}

/// Adds a unit that is wanted, where it can be.
fn add_name(units: &[Unit], set: &mut UnitSet, name: UnitName) -> Result<(), AllocError>
    requires { AreSorted units.now }
    ensures { OnOk result (AddsName units.now name set.old set.new) }
{
    if can_be_wanted(units, &name) {
        set.insert(name)?;
    }
    Ok(())
}

/// Adds the units of these names, where they can be wanted.
fn add_names(
    alloc: Global,
    units: &[Unit],
    set: &mut UnitSet,
    names: &[UnitName],
) -> Result<(), AllocError>
    requires { AreSorted units.now }
    ensures { OnOk result (AddsWanted units.now names.now set.old set.new) }
{
    for name in names {
        add_name(units, set, name.copy(alloc)?)?;
    }
    Ok(())
}

/// Adds the unit that a word names, where it can be wanted.
fn add_word(alloc: Global, units: &[Unit], set: &mut UnitSet, word: &str) -> Result<(), AllocError>
    requires { AreSorted units.now }
    ensures { OnOk result (AddsName units.now word.now set.old set.new) }
{
    match UnitName::of_text(alloc, word)? {
        Some(name) => add_name(units, set, name),
        None => Ok(()),
    }
}

/// The texts between the separators in a text, which are of ASCII.
fn parts_of(alloc: Global, text: &str, separator: char) -> Result<Vec<&str>, AllocError>
    requires { separator < 128 }
    ensures { IfOk result (λ parts. map (λ part. part.now) parts.items ≡ slice_split (λ byte. byte == separator) text.now) }
{
    text.split(separator).collect(alloc)
}

/// Adds the units that the parts of a text between its tabs name, where they can be wanted.
fn add_tab_parts(
    alloc: Global,
    units: &[Unit],
    set: &mut UnitSet,
    text: &str,
) -> Result<(), AllocError>
    requires { AreSorted units.now }
    ensures { OnOk result (AddsWanted units.now (slice_split (λ byte. byte == 9) text.now) set.old set.new) }
{
    let parts = parts_of(alloc, text, '\t')?;
    for part in parts.as_slice() {
        add_word(alloc, units, set, part)?;
    }
    Ok(())
}

/// Adds the units that the words of a text name, where they can be wanted.
fn add_words(alloc: Global, units: &[Unit], set: &mut UnitSet, text: &str) -> Result<(), AllocError>
    requires { AreSorted units.now }
    ensures { OnOk result (AddsWanted units.now (words_of text.now) set.old set.new) }
{
    let parts = parts_of(alloc, text, ' ')?;
    for part in parts.as_slice() {
        add_tab_parts(alloc, units, set, part)?;
    }
    Ok(())
}

/// Adds the units that the words of some values name, where they can be wanted.
fn add_values(
    alloc: Global,
    units: &[Unit],
    set: &mut UnitSet,
    values: &[Text],
) -> Result<(), AllocError>
    requires { AreSorted units.now }
    ensures { OnOk result (AddsWanted units.now (flat_map words_of values.now) set.old set.new) }
{
    for value in values {
        add_words(alloc, units, set, value.as_str())?;
    }
    Ok(())
}

/// Adds the units that a text wants, where they can be wanted.
fn add_text(
    alloc: Global,
    units: &[Unit],
    set: &mut UnitSet,
    text: Option<&UnitText>,
) -> Result<(), AllocError>
    requires { AreSorted units.now }
    ensures { OnOk result (AddsWanted units.now (words_in (option_copied text.entry)) set.old set.new) }
{
    let Some(text) = text else {
        return Ok(());
    };
    add_values(alloc, units, set, text.values("Unit", "Wants"))?;
    add_values(alloc, units, set, text.values("Unit", "Requires"))
}

/// What a unit wants, by its text and the names in its folders of units that it wants.
fn wanted(
    alloc: Global,
    units: &[Unit],
    names: &[UnitName],
    text: Option<&UnitText>,
) -> Result<Listed<UnitName>, AllocError>
    requires { AreSorted units.now }
    ensures { IfOk result (λ list. list ≡ wanted (own_in units.now) names.now (option_copied text.entry)) }
{
    let mut set = UnitSet::new(alloc);
    add_names(alloc, units, &mut set, names)?;
    add_text(alloc, units, &mut set, text)?;
    set.into_names(alloc)
}

/// What a unit wants in all, where it wants these units by its own text alone.
///
/// Those are all where it has a text of its own, and no names of units that it wants beside.
fn all_wanted(
    alloc: Global,
    units: &[Unit],
    unit: &Unit,
    by_text: &[UnitName],
) -> Result<Listed<UnitName>, AllocError>
    requires sorted { AreSorted units.now }
    requires stands { unit_in units.now unit.now.name ≡ Some unit.now }
    requires by_text { by_text.now ≡ (wants_for units.now unit.now).by_text }
    ensures { IfOk result (λ list. list ≡ (wants_for units.now unit.now).whole) }
{
    let _name = unit.name.as_str();
    let names = unit.wants.as_slice();
    if unit.part.is_some() && names.is_empty() {
        return copies(alloc, by_text);
    }
    wanted(alloc, units, names, find_text(units, &unit.name))
}

/// What a unit wants in all, and what by its own text alone.
fn wants_for(alloc: Global, units: &[Unit], unit: &Unit) -> Result<Wants, AllocError>
    requires sorted { AreSorted units.now }
    requires stands { unit_in units.now unit.now.name ≡ Some unit.now }
    ensures { IfOk result (λ wants. wants ≡ wants_for units.now unit.now) }
{
    let by_text = wanted(alloc, units, &[], unit.text())?;
    Ok(Wants {
        whole: all_wanted(alloc, units, unit, by_text.as_slice())?,
        by_text,
    })
}

/// What each unit wants.
pub fn wants_of(alloc: Global, units: &[Unit]) -> Result<Listed<Wants>, AllocError>
    requires { AreSorted units.now }
    ensures { IfOk result (λ wants. wants ≡ map (wants_for units.now) units.now) }
{
    let mut wants = Listed::new(alloc);
    for unit in units {
        wants.push(wants_for(alloc, units, unit)?)?;
    }
    Ok(wants)
}

/// The names of the units that have a text of their own.
pub fn names_of(alloc: Global, units: &[Unit]) -> Result<Listed<UnitName>, AllocError>
    requires { AreSorted units.now }
    ensures { IfOk result (λ names. AreNamesOf units.now names) }
{
    let mut names = Listed::new(alloc);
    for unit in units {
        if unit.part.is_some() {
            let _name = unit.name.as_str();
            names.push(unit.name.copy(alloc)?)?;
        }
    }
    Ok(names)
}
