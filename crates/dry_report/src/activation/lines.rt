//! Lines of a report.
ghost use Rattle.std.specs.Prelude.{◌≡◌, ◌++◌, OnOk};
ghost use Rattle.dry_report.specs.Lines.{told, told_each};

use std::alloc::AllocError;
use switch_names::{Path, Text};

/// Writes a line that begins so.
pub fn write_told(out: &mut Vec<u8>, front: &str, rest: &str) -> Result<(), AllocError>
    ensures { OnOk result (out.new.items ≡ out.old.items ++ told front.now rest.now) }
{
    out.extend_from_slice(front.as_bytes())?;
    out.extend_from_slice(rest.as_bytes())?;
    out.push(b'\n')?;
    Ok(())
}

/// Writes a line for each of these names.
pub fn write_names(out: &mut Vec<u8>, front: &str, names: &[Text]) -> Result<(), AllocError>
    ensures { OnOk result (out.new.items ≡ out.old.items ++ told_each front.now names.now) }
{
    for name in names {
        write_told(out, front, name.as_str())?;
    }
    Ok(())
}

/// Writes a line for each of these paths.
pub fn write_paths(out: &mut Vec<u8>, front: &str, paths: &[Path]) -> Result<(), AllocError>
    ensures { OnOk result (out.new.items ≡ out.old.items ++ told_each front.now paths.now) }
{
    for path in paths {
        write_told(out, front, path.as_str())?;
    }
    Ok(())
}
