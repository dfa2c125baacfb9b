//! What the paths in the folder of a system's units are.
ghost use Rattle.std.specs.Prelude.{◌≡◌, false, true, Some, IfOk, MatchOption, OnOk};
ghost use Rattle.std.specs.List.{list_any, before_first, after_first};
ghost use Rattle.std.specs.Option.{option_copied};
ghost use Rattle.unit_defs.specs.Found.{Takes};
ghost use Rattle.switch_names.specs.Path.{is_slash};
ghost use Rattle.switch_names.specs.Texts.{after_front, before_end};
ghost use Rattle.unit_defs.specs.Place.{drop_in, is_drop_in_name, is_want, place_below, place_after, place_in, want};

use crate::part::FilePart;
use crate::reading::found::FoundUnits;
use std::alloc::{AllocError, Global};
use switch_names::{Path, Text, UnitName};

/// What a leaf in the folder of units is.
pub enum UnitPlace {
    /// The file of a unit.
    File(UnitName),
    /// A drop-in of a unit, and its name before `.conf`.
    DropIn(UnitName, Text),
    /// A unit, and another one that it wants.
    Want(UnitName, UnitName),
}

/// One call: a derived drop is proved anew in each function that lets one go.
impl Drop for UnitPlace {
    fn drop(self) {
        match self {
            UnitPlace::File(_) => {}
            UnitPlace::DropIn(_, _) => {}
            UnitPlace::Want(_, _) => {}
        }
    }
}

impl UnitPlace {
    /// Whether a unit stands here that another one wants.
    pub fn is_want(&self) -> bool
        ensures { result ≡ is_want self.now }
    {
        matches!(self, UnitPlace::Want(_, _))
    }

    /// Puts what stands here, with what its leaf says, to what is found.
    pub fn put(
        self,
        alloc: Global,
        part: Option<FilePart>,
        found: &mut FoundUnits,
    ) -> Result<(), AllocError>
        ensures { OnOk result (Takes (Some self) part found.old found.new) }
    {
        match self {
            UnitPlace::File(unit) => found.add_file(alloc, unit, part),
            UnitPlace::DropIn(unit, name) => found.add_drop_in(alloc, unit, name, part),
            UnitPlace::Want(unit, name) => found.add_want(alloc, unit, name),
        }
    }
}

/// What a text has before an ending.
fn before_end<'a>(text: &'a str, end: &str) -> Option<&'a str>
    ensures { option_copied result ≡ before_end end.now text.now }
{
    text.strip_suffix(end)
}

/// What a text has after a front.
fn after_front<'a>(text: &'a str, front: &str) -> Option<&'a str>
    ensures { option_copied result ≡ after_front front.now text.now }
{
    text.strip_prefix(front)
}

/// What a text has before and after its first slash.
fn split_at_slash(text: &str) -> Option<(&str, &str)>
    ensures { MatchOption result
        (list_any is_slash text.now ≡ false)
        (λ parts. (list_any is_slash text.now ≡ true)
        × (parts.0.now ≡ before_first is_slash text.now)
        × (parts.1.now ≡ after_first is_slash text.now)) }
{
    text.split_once('/')
}

/// Whether a text can be the name of a drop-in.
fn is_drop_in_name(name: &str) -> bool
    ensures { result ≡ is_drop_in_name name.now }
{
    match split_at_slash(name) {
        None => !name.is_empty(),
        Some(_) => false,
    }
}

/// A drop-in of the unit whose folder this is.
fn drop_in(alloc: Global, folder: &str, name: &str) -> Result<Option<UnitPlace>, AllocError>
    ensures { IfOk result (λ place. place ≡ drop_in folder.now name.now) }
{
    let Some(unit) = before_end(folder, ".d") else {
        return Ok(None);
    };
    let Some(stem) = before_end(name, ".conf") else {
        return Ok(None);
    };
    if !is_drop_in_name(stem) {
        return Ok(None);
    }
    let Some(unit) = UnitName::of_text(alloc, unit)? else {
        return Ok(None);
    };
    Ok(Some(UnitPlace::DropIn(unit, Text::from_str(alloc, stem)?)))
}

/// A unit that is wanted by the unit whose folder this is.
fn want(alloc: Global, folder: &str, end: &str, name: &str) -> Result<Option<UnitPlace>, AllocError>
    ensures { IfOk result (λ place. place ≡ want end.now folder.now name.now) }
{
    let Some(unit) = before_end(folder, end) else {
        return Ok(None);
    };
    let Some(unit) = UnitName::of_text(alloc, unit)? else {
        return Ok(None);
    };
    let Some(name) = UnitName::of_text(alloc, name)? else {
        return Ok(None);
    };
    Ok(Some(UnitPlace::Want(unit, name)))
}

/// What a leaf of this name in a folder of this name is.
fn place_below(alloc: Global, folder: &str, name: &str) -> Result<Option<UnitPlace>, AllocError>
    ensures { IfOk result (λ place. place ≡ place_below folder.now name.now) }
{
    if let Some(place) = drop_in(alloc, folder, name)? {
        return Ok(Some(place));
    }
    if let Some(place) = want(alloc, folder, ".wants", name)? {
        return Ok(Some(place));
    }
    want(alloc, folder, ".requires", name)
}

/// What a leaf in the folder of units is.
fn place_in(alloc: Global, rest: &str) -> Result<Option<UnitPlace>, AllocError>
    ensures { IfOk result (λ place. place ≡ place_in rest.now) }
{
    if let Some(unit) = UnitName::of_text(alloc, rest)? {
        return Ok(Some(UnitPlace::File(unit)));
    }
    match split_at_slash(rest) {
        None => Ok(None),
        Some((folder, name)) => place_below(alloc, folder, name),
    }
}

/// What the leaf at a path is, where the folder of units and a slash are its front.
pub fn place_after(alloc: Global, front: &str, path: &Path) -> Result<Option<UnitPlace>, AllocError>
    ensures { IfOk result (λ place. place ≡ place_after front.now path.now) }
{
    match after_front(path.as_str(), front) {
        None => Ok(None),
        Some(rest) => place_in(alloc, rest),
    }
}
