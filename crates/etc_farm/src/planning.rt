//! Plans what is done to `/etc`.
ghost use Rattle.std.specs.Prelude.{◌≡◌, None, Some, Ok, IfOk, IsErrOf, OnOk};
ghost use Rattle.host_trait.specs.declared.tree.HostFault.TheVariants.{Device};
ghost use Rattle.host_trait.specs.Host.{Told};
ghost use Rattle.host_trait.specs.Reading.{IsReading, IsReadingOf};
ghost use Rattle.tree_put.specs.Found.{AreFound};
ghost use Rattle.switch_parts.specs.declared.plan_fault.PlanFault.TheVariants.{Host, Refused};
ghost use Rattle.switch_parts.specs.declared.refusal.Refusal.{Refusal};
ghost use Rattle.etc_manifest.specs.declared.manifest_fault.ManifestFault.TheVariants as faults;
ghost use Rattle.etc_manifest.specs.Count.{entries_past};
ghost use Rattle.etc_manifest.specs.Entries.{manifest_of};
ghost use Rattle.etc_manifest.specs.Manifest.{AreApart, places};
ghost use Rattle.etc_clean.specs.Obsolete.{IsSortedOf};
ghost use Rattle.etc_farm.specs.EtcPart.{IsEtcPlanOf, entries_too_many, etc_refusal, manifest_refusal};

use crate::etc_plan::EtcPlan;
use crate::places::static_path;
use crate::prepared::prepare;
use etc_clean::{Sorted, obsolete};
use etc_manifest::{Manifest, ManifestFault, Owners, count};
use host_trait::{HostFault, Tree};
use leaf_limits::{ENTRIES_MAX, past};
use std::alloc::Global;
use std::collections::BTreeMap;
use switch_names::{Path, SystemName};
use switch_parts::{PlanFault, Refusal, What, refuse, too_many};
use tree_put::Found;

/// A fault of a manifest as one of a plan.
fn plan_fault(fault: ManifestFault) -> PlanFault
    ensures refused { (why : Refusal) → result ≡ Refused why → manifest_refusal fault ≡ Some why }
    ensures device { result ≡ Host Device → fault ≡ faults.Host Device }
{
    match fault {
        ManifestFault::Many(count) => PlanFault::Refused(Refusal::TooMany {
            what: What::Entries,
            count,
        }),
        ManifestFault::Reserved(place) => PlanFault::Refused(Refusal::Reserved(place)),
        ManifestFault::Entry(place) => PlanFault::Refused(Refusal::EtcEntry(place)),
        ManifestFault::Owner(place) => PlanFault::Refused(Refusal::Owner(place)),
        ManifestFault::Host(fault) => PlanFault::Host(fault),
    }
}

/// Reads what a system wants below `/etc`.
fn read_manifest<T: Tree>(
    alloc: Global,
    host: &mut T,
    system: &SystemName,
    owners: &Owners,
) -> Result<Manifest, PlanFault>
    ensures manifest { IfOk result (λ manifest. Told (T.host host.old) (λ w. manifest_of w.leaves system.now owners.now ≡ Ok manifest)) }
    ensures apart { IfOk result (λ manifest. Told (T.host host.old) (λ w. AreApart (places manifest))) }
    ensures few { OnOk result (Told (T.host host.old) (λ w. entries_past w.leaves system.now ≡ None)) }
    ensures refused { (why : Refusal) → IsErrOf result (Refused why) → Told (T.host host.old) (λ w. etc_refusal system.now owners.now w.leaves ≡ Some why) }
    ensures reads { IsReadingOf (T.host host.old) (T.host host.new) (IsErrOf result (Host Device)) }
{
    match Manifest::read(alloc, host, system, owners) {
        Ok(manifest) => Ok(manifest),
        Err(fault) => Err(plan_fault(fault)),
    }
}

/// What stands in `/etc`, given what a system wants there. It looks at the link at `static` too, of which nothing is noted,
/// so that one that can't be read is found before anything is changed.
fn look<T: Tree>(
    alloc: Global,
    host: &mut T,
    findings: &mut BTreeMap<Path, Found>,
    manifest: &Manifest,
) -> Result<Sorted, HostFault>
    requires found { Told (T.host host.old) (λ w. AreFound w.leaves findings.old) }
    ensures sorted { IfOk result (λ sorted. Told (T.host host.old) (λ w. IsSortedOf manifest.now w.leaves sorted)) }
    ensures others { OnOk result (Told (T.host host.old) (λ w. AreFound w.leaves findings.new)) }
    ensures reads { IsReading (T.host host.old) (T.host host.new) result }
{
    let at = static_path(alloc)?;
    let _link = host.read(alloc, &at)?;
    obsolete(alloc, host, findings, manifest)
}

/// The refusal of a system whose etc has too many entries, where it has. It lists the folder once, and reads no leaf.
pub fn too_many_entries<T: Tree>(
    alloc: Global,
    host: &mut T,
    system: &SystemName,
) -> Result<Option<Refusal>, HostFault>
    ensures refusal { IfOk result (λ why. Told (T.host host.old) (λ w. why ≡ entries_too_many w.leaves system.now)) }
    ensures reads { IsReading (T.host host.old) (T.host host.new) result }
{
    let count = count(alloc, host, system)?;
    Ok(too_many(What::Entries, past(ENTRIES_MAX, count)))
}

/// Plans what is done to `/etc` for a system, and changes nothing. Each leaf that is replaced or removed has been read then.
///
/// That there are too many entries is sought before any of them is read. They are read in byte order,
/// and the first that is refused is named. Of an entry that it is reserved is sought first, then that it
/// can't be placed, and then that an owner is unknown. Last of all it is refused where the clean list that
/// stands has more than 16 MiB. That it would be put so long is for `EtcPlan::long` to say.
/// Source: setup-etc.pl of nixpkgs.
pub fn plan_etc<T: Tree>(
    alloc: Global,
    host: &mut T,
    findings: &mut BTreeMap<Path, Found>,
    system: &SystemName,
    owners: Owners,
) -> Result<EtcPlan, PlanFault>
    requires found { Told (T.host host.old) (λ w. AreFound w.leaves findings.old) }
    ensures plan { IfOk result (λ plan. Told (T.host host.old) (λ w. IsEtcPlanOf system.now w.leaves plan)) }
    ensures owners { IfOk result (λ plan. plan.owners ≡ owners) }
    ensures not_refused { OnOk result (Told (T.host host.old) (λ w. etc_refusal system.now owners w.leaves ≡ None)) }
    ensures refused { (why : Refusal) → IsErrOf result (Refused why) → Told (T.host host.old) (λ w. etc_refusal system.now owners w.leaves ≡ Some why) }
    ensures others { OnOk result (Told (T.host host.old) (λ w. AreFound w.leaves findings.new)) }
    ensures reads { IsReadingOf (T.host host.old) (T.host host.new) (IsErrOf result (Host Device)) }
{
    let manifest = read_manifest(alloc, host, system, &owners)?;
    let sorted = look(alloc, host, findings, &manifest)?;
    refuse(too_many(What::LeafBytes, sorted.past))?;
    let prepared = prepare(alloc, system, &manifest, &sorted)?;
    Ok(EtcPlan {
        owners,
        manifest,
        sorted,
        prepared,
    })
}
