//! Reads the three lists.
ghost use Rattle.std.specs.Prelude.{◌≡◌, ◌==◌, ◌++◌, ◌∷◌, [], Some, None, IfOk, OnOk, filter, if◌then◌else◌};
ghost use Rattle.std.specs.List.{slice_split};
ghost use Rattle.host_trait.specs.Host.{Told};
ghost use Rattle.host_trait.specs.Reading.{IsReading};
ghost use Rattle.host_trait.specs.World.{content_of};
ghost use Rattle.switch_names.specs.UnitName.{is_unit};
ghost use Rattle.tree_put.specs.Found.{AreFound};
ghost use Rattle.owed_lists.specs.Lists.{AreListsOf, IsListOf, place_of};

use crate::lists::list_path;
use host_trait::{HostFault, Tree, UnitSet};
use log_text::{Lists, Which};
use std::alloc::{AllocError, Global};
use std::collections::BTreeMap;
use switch_names::{Bytes, Listed, Path, UnitName};
use tree_put::{Found, find_content};

/// Adds the unit that a line names, if it does.
fn add_line(alloc: Global, names: &mut Listed<UnitName>, line: &[u8]) -> Result<(), AllocError>
    ensures { OnOk result (names.new ≡ names.old ++ filter is_unit (line.now ∷ [])) }
{
    match UnitName::of_bytes(alloc, line)? {
        Some(name) => names.push(name),
        None => Ok(()),
    }
}

/// The unit names among the lines of some bytes, in their order and with repeats.
fn read_names(alloc: Global, bytes: &[u8]) -> Result<Listed<UnitName>, AllocError>
    ensures { IfOk result (λ names. names ≡ filter is_unit (slice_split (λ byte. byte == 10) bytes.now)) }
{
    let mut names = Listed::new(alloc);
    for line in bytes.split(|byte| *byte == b'\n') {
        add_line(alloc, &mut names, line)?;
    }
    Ok(names)
}

/// The list that a content says.
fn list_of(alloc: Global, content: Option<Bytes>) -> Result<Listed<UnitName>, AllocError>
    ensures { IfOk result (IsListOf content) }
{
    let Some(bytes) = content else {
        return Ok(Listed::new(alloc));
    };
    let names = read_names(alloc, bytes.as_slice())?;
    let set = UnitSet::of(alloc, names.as_slice())?;
    set.into_names(alloc)
}

/// Reads one of the lists, or takes what was found at its place.
fn read_list<T: Tree>(
    alloc: Global,
    host: &mut T,
    findings: &mut BTreeMap<Path, Found>,
    which: Which,
) -> Result<Listed<UnitName>, HostFault>
    requires found { Told (T.host host.old) (λ w. AreFound w.leaves findings.old) }
    ensures list { IfOk result (λ list. Told (T.host host.old) (λ w. IsListOf (content_of w.leaves (place_of which)) list)) }
    ensures others { OnOk result (Told (T.host host.old) (λ w. AreFound w.leaves findings.new)) }
    ensures reads { IsReading (T.host host.old) (T.host host.new) result }
{
    let at = list_path(alloc, which)?;
    let bytes = find_content(alloc, host, findings, &at)?;
    Ok(list_of(alloc, bytes)?)
}

/// Reads the three lists.
///
/// A list without a leaf is empty, and a line that is no unit name is passed over. A place at which something was found isn't
/// read again.
pub fn load<T: Tree>(
    alloc: Global,
    host: &mut T,
    findings: &mut BTreeMap<Path, Found>,
) -> Result<Lists, HostFault>
    requires found { Told (T.host host.old) (λ w. AreFound w.leaves findings.old) }
    ensures lists { IfOk result (λ lists. Told (T.host host.old) (λ w. AreListsOf w.leaves lists)) }
    ensures others { OnOk result (Told (T.host host.old) (λ w. AreFound w.leaves findings.new)) }
    ensures reads { IsReading (T.host host.old) (T.host host.new) result }
{
    let starts = read_list(alloc, host, findings, Which::Starts)?;
    let restarts = read_list(alloc, host, findings, Which::Restarts)?;
    let reloads = read_list(alloc, host, findings, Which::Reloads)?;
    Ok(Lists {
        starts,
        restarts,
        reloads,
    })
}
