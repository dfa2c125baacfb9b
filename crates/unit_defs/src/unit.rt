//! The units of a system, each with what its files say.
ghost use Rattle.std.specs.Prelude.{◌≡◌, IfOk, option_map};
ghost use Rattle.std.specs.Option.{option_copied};

use crate::part::FilePart;
use std::alloc::{AllocError, Global};
use switch_names::{Listed, UnitName};
use unit_text::UnitText;

/// What the folder of units and the fstab say of a unit.
pub struct Unit {
    pub name: UnitName,
    /// What its files say, or else its line in the fstab, where it has a text of its own.
    pub part: Option<FilePart>,
    /// The names in its folders of units that it wants, and those that the fstab makes it want.
    pub wants: Listed<UnitName>,
}

/// One call: a derived drop is proved anew in each function that lets one go.
impl Drop for Unit {
    fn drop(self) {
        let Unit {
            name: _,
            part: _,
            wants: _,
        } = self;
    }
}

/// The units that a unit wants.
pub struct Wants {
    /// All of them.
    pub whole: Listed<UnitName>,
    /// Those that its own text wants.
    pub by_text: Listed<UnitName>,
}

/// One call: a derived drop is proved anew in each function that lets one go.
impl Drop for Wants {
    fn drop(self) {
        let Wants {
            whole: _,
            by_text: _,
        } = self;
    }
}

impl Unit {
    /// The text that the unit has of its own.
    pub fn text(&self) -> Option<&UnitText>
        ensures { option_copied result ≡ option_map (λ part. part.text) self.now.part }
    {
        match &self.part {
            Some(part) => Some(&part.text),
            None => None,
        }
    }
}

/// Copies of names.
pub fn copies(alloc: Global, names: &[UnitName]) -> Result<Listed<UnitName>, AllocError>
    ensures { IfOk result (λ copied. copied ≡ names.now) }
{
    let mut copied = Listed::new(alloc);
    for name in names {
        copied.push(name.copy(alloc)?)?;
    }
    Ok(copied)
}
