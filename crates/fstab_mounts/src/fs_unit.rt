//! The unit of one line.
ghost use Rattle.std.specs.Prelude.{◌≡◌, ◌≢◌, [], IfOk};
ghost use Rattle.fstab_mounts.specs.Fields.{unescaped};
ghost use Rattle.fstab_mounts.specs.FsUnit.{mount_of, mount_text, swap_of, swap_text};

use crate::escape::short_unit;
use crate::fields::{is_auto, unescaped};
use std::alloc::{AllocError, Global};
use switch_names::{UnitKind, UnitName};
use unit_text::UnitText;

/// A mount or a swap of an fstab.
pub struct FsUnit {
    pub unit: UnitName,
    /// What its unit file would say.
    pub text: UnitText,
    /// Whether it is to be started with the system.
    pub auto: bool,
}

/// One call: a derived drop is proved anew in each function that lets one go.
impl Drop for FsUnit {
    fn drop(self) {
        let FsUnit {
            unit: _,
            text: _,
            auto: _,
        } = self;
    }
}

fn swap_text(alloc: Global, what: &str, options: &str) -> Result<UnitText, AllocError>
    requires what { what.now ≢ [] }
    requires options { options.now ≢ [] }
    ensures { IfOk result (λ text. text ≡ swap_text what.now options.now) }
{
    let mut text = UnitText::empty(alloc);
    text.assign(alloc, "Swap", "What", what)?;
    text.assign(alloc, "Swap", "Options", options)?;
    Ok(text)
}

fn mount_text(
    alloc: Global,
    what: &str,
    place: &str,
    kind: &str,
    options: &str,
) -> Result<UnitText, AllocError>
    requires what { what.now ≢ [] }
    requires place { place.now ≢ [] }
    requires kind { kind.now ≢ [] }
    requires options { options.now ≢ [] }
    ensures { IfOk result (λ text. text ≡ mount_text what.now place.now kind.now options.now) }
{
    let mut text = UnitText::empty(alloc);
    text.assign(alloc, "Mount", "What", what)?;
    text.assign(alloc, "Mount", "Where", place)?;
    text.assign(alloc, "Mount", "Type", kind)?;
    text.assign(alloc, "Mount", "Options", options)?;
    Ok(text)
}

/// The swap of a line, unless its name is too long.
pub fn swap_of(alloc: Global, what: &str, options: &str) -> Result<Option<FsUnit>, AllocError>
    requires what { what.now ≢ [] }
    requires options { options.now ≢ [] }
    ensures { IfOk result (λ unit. unit ≡ swap_of what.now options.now) }
{
    let Some(unit) = short_unit(alloc, what, UnitKind::Swap)? else {
        return Ok(None);
    };
    let text = swap_text(alloc, what, options)?;
    let auto = is_auto(options);
    Ok(Some(FsUnit { unit, text, auto }))
}

/// The mount of a line, unless its name is too long.
pub fn mount_of(
    alloc: Global,
    what: &str,
    place: &str,
    kind: &str,
    options: &str,
) -> Result<Option<FsUnit>, AllocError>
    requires what { what.now ≢ [] }
    requires place { place.now ≢ [] }
    requires kind { kind.now ≢ [] }
    requires options { options.now ≢ [] }
    ensures { IfOk result (λ unit. unit ≡ mount_of what.now place.now kind.now options.now) }
{
    let Some(unit) = short_unit(alloc, place, UnitKind::Mount)? else {
        return Ok(None);
    };
    let text = mount_text(alloc, what, place, kind, options)?;
    let auto = is_auto(options);
    Ok(Some(FsUnit { unit, text, auto }))
}
