//! Places that a run writes, and whether a leaf stands in the way of one.
ghost use Rattle.std.specs.Prelude.{◌≡◌, ◌++◌, ◌∷◌, [], false, true, IfOk, OnOk};
ghost use Rattle.host_trait.specs.Host.{Told};
ghost use Rattle.host_trait.specs.Reading.{IsReading};
ghost use Rattle.host_trait.specs.World.{is_in_line, stage};
ghost use Rattle.tree_put.specs.Found.{AreFound};
ghost use Rattle.tree_put.specs.WrittenPlace.{is_in_the_way, lacks_content, written};

use crate::blocked::is_blocked;
use crate::found::{Found, look, note};
use host_trait::{HostFault, Tree, stage_path};
use std::alloc::{AllocError, Global};
use std::collections::BTreeMap;
use switch_names::{Listed, Path};

/// A place that a run writes.
pub struct WrittenPlace {
    pub at: Path,
    /// Whether its content is read before.
    pub is_read: bool,
}

/// One call: a derived drop is proved anew in each function that lets one go.
impl Drop for WrittenPlace {
    fn drop(self) {
        let WrittenPlace { at: _, is_read: _ } = self;
    }
}

/// A place whose content isn't read before it is written.
pub fn unread(at: Path) -> WrittenPlace
    ensures { result ≡ written false at }
{
    WrittenPlace { at, is_read: false }
}

/// A place whose content is read before it is written.
pub fn read_before(at: Path) -> WrittenPlace
    ensures { result ≡ written true at }
{
    WrittenPlace { at, is_read: true }
}

/// Adds the stage, by way of which leaves are put.
pub fn add_stage(alloc: Global, places: &mut Listed<WrittenPlace>) -> Result<(), AllocError>
    ensures { OnOk result (places.new ≡ places.old ++ written false stage ∷ []) }
{
    places.push(unread(stage_path(alloc)?))
}

/// Whether a leaf without content stands at a place. What is found there is noted.
fn lacks_content<T: Tree>(
    alloc: Global,
    host: &mut T,
    findings: &mut BTreeMap<Path, Found>,
    at: &Path,
) -> Result<bool, HostFault>
    requires { Told (T.host host.old) (λ w. AreFound w.leaves findings.old) }
    ensures lacks { IfOk result (λ lacks. Told (T.host host.old) (λ w. lacks ≡ lacks_content w.leaves at.now)) }
    ensures found { OnOk result (Told (T.host host.old) (λ w. AreFound w.leaves findings.new)) }
    ensures reads { IsReading (T.host host.old) (T.host host.new) result }
{
    let found = look(alloc, host, at)?;
    let lacks = found.lacks_content();
    note(alloc, findings, at, found)?;
    Ok(lacks)
}

/// Whether a leaf stands in the way of a place: one strictly above or below it, or one without
/// content where a content is read. What is found where a content is read is noted.
pub fn is_in_the_way<T: Tree>(
    alloc: Global,
    host: &mut T,
    findings: &mut BTreeMap<Path, Found>,
    place: &WrittenPlace,
) -> Result<bool, HostFault>
    requires apart { is_in_line stage place.now.at ≡ false }
    requires found { Told (T.host host.old) (λ w. AreFound w.leaves findings.old) }
    ensures in_the_way { IfOk result (λ is. Told (T.host host.old) (λ w. is ≡ is_in_the_way w.leaves place.now)) }
    ensures found { OnOk result (Told (T.host host.old) (λ w. AreFound w.leaves findings.new)) }
    ensures reads { IsReading (T.host host.old) (T.host host.new) result }
{
    if is_blocked(alloc, host, &place.at)? {
        return Ok(true);
    }
    if !place.is_read {
        return Ok(false);
    }
    lacks_content(alloc, host, findings, &place.at)
}
