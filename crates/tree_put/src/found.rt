//! What was found at places that a run has looked at.
ghost use Rattle.std.specs.Prelude.{◌≡◌, IfOk, IfSome, OnOk};
ghost use Rattle.host_trait.specs.Host.{Told};
ghost use Rattle.host_trait.specs.Reading.{IsReading};
ghost use Rattle.host_trait.specs.World.{Leaves, content_of};
ghost use Rattle.tree_put.specs.Found.{AreFound, IsFound, lacks};

use host_trait::{HostFault, LeafKind, Tree, content};
use std::alloc::{AllocError, Global};
use std::collections::BTreeMap;
use switch_names::{Bytes, Path};

/// What stands at a place.
#[derive(Clone, Copy, Debug, PartialEq, Eq)]
pub enum Standing {
    Nothing,
    File,
    Link,
}

/// What was found at a place.
pub struct Found {
    pub standing: Standing,
    /// The bytes of the file that stands there, or of the file in the store that a link there leads to.
    pub content: Option<Bytes>,
}

/// One call: a derived drop is proved anew in each function that lets one go.
impl Drop for Found {
    fn drop(self) {
        let Found {
            standing: _,
            content: _,
        } = self;
    }
}

impl Found {
    /// Whether a leaf without content was found.
    pub fn lacks_content(&self) -> bool
        ensures { result ≡ lacks self.now }
    {
        match self.standing {
            Standing::Nothing => false,
            Standing::File | Standing::Link => self.content.is_none(),
        }
    }

    /// Its content.
    pub fn into_content(self) -> Option<Bytes>
        ensures { result ≡ self.content }
    {
        let mut found = self;
        found.content.take()
    }
}

/// No place has been looked at.
pub fn nothing_found(alloc: Global) -> BTreeMap<Path, Found>
    ensures { (leaves : Leaves) → AreFound leaves result }
{
    BTreeMap::new(alloc)
}

/// Notes what was found at a place.
pub(crate) fn note(
    alloc: Global,
    findings: &mut BTreeMap<Path, Found>,
    at: &Path,
    found: Found,
) -> Result<(), AllocError>
    ensures { (leaves : Leaves) → AreFound leaves findings.old → IsFound leaves at.now found → OnOk result (AreFound leaves findings.new) }
{
    findings.insert(at.copy(alloc)?, found)?;
    Ok(())
}

/// Looks at a place: it is read once, or twice where a link stands there.
pub fn look<T: Tree>(alloc: Global, host: &mut T, at: &Path) -> Result<Found, HostFault>
    ensures found { IfOk result (λ found. Told (T.host host.old) (λ w. IsFound w.leaves at.now found)) }
    ensures reads { IsReading (T.host host.old) (T.host host.new) result }
{
    let Some(leaf) = host.read(alloc, at)? else {
        return Ok(Found {
            standing: Standing::Nothing,
            content: None,
        });
    };
    match leaf.into_kind() {
        LeafKind::File { bytes, .. } => Ok(Found {
            standing: Standing::File,
            content: Some(bytes),
        }),
        LeafKind::Link { .. } => {
            let content = content(alloc, host, at)?;
            Ok(Found {
                standing: Standing::Link,
                content,
            })
        }
    }
}

/// Takes what was found at a place out of the notes.
fn take(findings: &mut BTreeMap<Path, Found>, at: &Path) -> Option<Found>
    ensures found { (leaves : Leaves) → AreFound leaves findings.old → IfSome result (IsFound leaves at.now) }
    ensures others { (leaves : Leaves) → AreFound leaves findings.old → AreFound leaves findings.new }
{
    findings.remove(at)
}

/// What stands at a place: what was found there is taken out of the notes, and else it is looked at.
pub fn find<T: Tree>(
    alloc: Global,
    host: &mut T,
    findings: &mut BTreeMap<Path, Found>,
    at: &Path,
) -> Result<Found, HostFault>
    requires { Told (T.host host.old) (λ w. AreFound w.leaves findings.old) }
    ensures found { IfOk result (λ found. Told (T.host host.old) (λ w. IsFound w.leaves at.now found)) }
    ensures others { OnOk result (Told (T.host host.old) (λ w. AreFound w.leaves findings.new)) }
    ensures reads { IsReading (T.host host.old) (T.host host.new) result }
{
    match take(findings, at) {
        Some(found) => Ok(found),
        None => look(alloc, host, at),
    }
}

/// The content at a place, as `find` finds it.
pub fn find_content<T: Tree>(
    alloc: Global,
    host: &mut T,
    findings: &mut BTreeMap<Path, Found>,
    at: &Path,
) -> Result<Option<Bytes>, HostFault>
    requires { Told (T.host host.old) (λ w. AreFound w.leaves findings.old) }
    ensures content { IfOk result (λ bytes. Told (T.host host.old) (λ w. bytes ≡ content_of w.leaves at.now)) }
    ensures others { OnOk result (Told (T.host host.old) (λ w. AreFound w.leaves findings.new)) }
    ensures reads { IsReading (T.host host.old) (T.host host.new) result }
{
    let found = find(alloc, host, findings, at)?;
    Ok(found.into_content())
}

/// What was found at a place, as long as it isn't taken.
pub fn noted<'a>(findings: &'a BTreeMap<Path, Found>, at: &Path) -> Option<&'a Found>
    ensures { (leaves : Leaves) → AreFound leaves findings.now → IfSome result (λ found. IsFound leaves at.now found.now) }
{
    findings.get(at)
}
