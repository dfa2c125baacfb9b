//! Reboots a machine in memory, and starts it up.
ghost use Rattle.std.specs.Prelude.{◌≡◌, ◌≤◌, ◌+◌, IfOk, IsTrue, length, OnErr};
ghost use Rattle.generations.specs.Boot.{boot_system};
ghost use Rattle.host_memory.specs.MemoryHost.{host_of};
ghost use Rattle.host_trait.specs.Host.{Leads, Told};
ghost use Rattle.host_trait.specs.Reading.{IsReading};
ghost use Rattle.reboot_model.specs.Rebooting.{HasStartedAtOnce, HasStartedUp, IsStartingUp};

use generations::all;
use host_memory::MemoryHost;
use host_trait::{HostFault, Tree};
use rehearse::{Cut, Summary, through};
use std::alloc::{AllocError, Global};
use switch_engine::Command;
use switch_names::SystemName;

/// What came of a reboot.
#[derive(Drop)]
pub struct Rebooting {
    /// The system that the machine booted into, where its profile names one.
    pub booted: Option<SystemName>,
    /// In how many runs the start-up ended, and how.
    pub summary: Summary,
}

/// The system that a machine boots into: the one that its profile names, or none.
///
/// Source: Nix manual, "Profiles".
pub fn boot_system<T: Tree>(alloc: Global, host: &mut T) -> Result<Option<SystemName>, HostFault>
    ensures system { IfOk result (λ system. Told (T.host host.old) (λ w. system ≡ boot_system w.leaves)) }
    ensures reads { IsReading (T.host host.old) (T.host host.new) result }
{
    let gens = all(alloc, host)?;
    match generations::boot_system(&gens) {
        Some(system) => Ok(Some(system.copy(alloc)?)),
        None => Ok(None),
    }
}

/// Reboots a machine, as a cut left it, and starts it up: a start-up under each of these cuts, one after the other, until one
/// comes to its end or is refused; where each of them is cut, a last one follows that isn't.
///
/// An odd `pick` leaves an empty file at the stage, where nothing stands above or below it, as a write that the loss of
/// power has cut. Want of memory ends it at once: the machine stands as before, or is rebooted and its start-up underway.
/// Source: NixOS manual, "What happens during a system switch?"; bootup(7).
pub fn after_reboot(
    alloc: Global,
    host: &mut MemoryHost,
    pick: u64,
    cuts: &[Cut],
) -> Result<Rebooting, AllocError>
    ensures booted { IfOk result (λ its. Told (host_of host.old) (λ w. its.booted ≡ boot_system w.leaves)) }
    ensures started { IfOk result (λ its. Leads (host_of host.old) (host_of host.new) (HasStartedUp pick its.summary.end)) }
    ensures at_once { IfOk result (λ its. its.summary.runs ≡ 1 → Leads (host_of host.old) (host_of host.new) (HasStartedAtOnce pick its.summary.end)) }
    ensures runs { IfOk result (λ its. its.summary.runs ≤ length cuts.now + 1) }
    ensures err { OnErr result (Leads (host_of host.old) (host_of host.new) (IsStartingUp pick)) }
    ensures sure { IfOk result (λ its. IsTrue (host_of host.new).is_sure) }
{
    host.reboot(alloc, pick)?;
    let booted = booted(alloc, host)?;
    let summary = through(alloc, host, &Command::StartUp, cuts)?;
    Ok(Rebooting { booted, summary })
}

/// The system that a machine in memory boots into, on which nothing fails.
fn booted(alloc: Global, host: &mut MemoryHost) -> Result<Option<SystemName>, AllocError>
    ensures system { IfOk result (λ system. Told (host_of host.old) (λ w. system ≡ boot_system w.leaves)) }
    ensures same { Leads (host_of host.old) (host_of host.new) (λ w v. v ≡ w) }
{
    match boot_system(alloc, host) {
        Ok(system) => Ok(system),
        // nothing fails on the host now, so this is want of memory
        Err(_) => Err(AllocError),
    }
}
