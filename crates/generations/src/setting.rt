//! Sets of the profile: a generation for a system, and the profile's link to it.
ghost use Rattle.std.specs.Prelude.{◌≡◌, IfOk, OnOk, IsErrOf, IsNone, Some};
ghost use Rattle.host_trait.specs.declared.tree.HostFault.TheVariants.{Memory, Device};
ghost use Rattle.host_trait.specs.declared.leaf.LeafKind.TheVariants.{Link};
ghost use Rattle.host_trait.specs.Host.{Told, Leads, Comes, Passes, HasCause, HasCauseOf};
ghost use Rattle.host_trait.specs.World.{seen};
ghost use Rattle.tree_put.specs.Put.{CanPut, IsOldOrNew};
ghost use Rattle.tree_put.specs.Written.{WritesOnly};
ghost use Rattle.generations.specs.declared.setting.SetFault.TheVariants.{Full, Host};
ghost use Rattle.generations.specs.Gens.{IsGensOf, number_for_in};
ghost use Rattle.generations.specs.Places.{is_of, link_name, link_path, link_target, number_after, profile, set_end, with_profile};
ghost use Rattle.generations.specs.ProfilePart.{owns_profile};
ghost use Rattle.generations.specs.Set.{CanSet, IsLinkMoment, IsSetMoment, link_end};

use crate::gens::{Gens, is_highest_of, number_for};
use host_trait::{HostFault, Leaf, Tree, fixed_path};
use std::alloc::{AllocError, Global};
use switch_names::{NameFault, Path, SystemName};
use thiserror::Error;
use tree_put::put;

/// Why a set of the profile has failed.
#[derive(Clone, Copy, Debug, PartialEq, Eq, Error)]
pub enum SetFault {
    /// The highest generation has the last number and names another system.
    #[error("no further generation")]
    Full,
    /// A call on the host has failed.
    #[error("the host has failed")]
    Host(HostFault),
}

impl From<HostFault> for SetFault {
    ghost from_gives = { λ fault given. given ≡ Host fault };

    fn from(fault: HostFault) -> SetFault {
        SetFault::Host(fault)
    }
}

/// The path of a generation's link.
#[tactic(auto, unfolding(crate::specs::Places::link_path))]
pub fn generation_path(alloc: Global, number: u32) -> Result<Path, AllocError>
    ensures { IfOk result (λ path. path ≡ link_path number) }
{
    let text = format!(in alloc; "nix/var/nix/profiles/system-{number}-link")?;
    Path::parse(alloc, text.as_str()).map_err(|_fault: NameFault| AllocError)
}

/// The path of the profile's link.
#[tactic(auto, unfolding(crate::specs::Places::profile))]
pub fn profile_path(alloc: Global) -> Result<Path, AllocError>
    ensures { IfOk result (λ path. path ≡ profile) }
{
    fixed_path(alloc, "nix/var/nix/profiles/system")
}

/// The profile's link to a generation.
fn profile_link(alloc: Global, number: u32) -> Result<Leaf, AllocError>
    ensures { IfOk result (λ leaf. leaf ≡ Link (link_name number)) }
{
    let target = format!(in alloc; "system-{number}-link")?;
    Leaf::short_link(alloc, target.as_str())
}

/// The link to a system: a generation's, and that to the system in use.
pub fn system_link(alloc: Global, system: &SystemName) -> Result<Leaf, AllocError>
    ensures { IfOk result (λ leaf. leaf ≡ Link (link_target system.now)) }
{
    let target = system.link_text(alloc)?;
    Leaf::short_link(alloc, target.as_str())
}

/// Points the profile's link to a generation.
///
/// A cut leaves the old link or the new one.
pub fn point<T: Tree>(alloc: Global, host: &mut T, number: u32) -> Result<(), HostFault>
    requires { Told (T.host host.old) (CanPut profile) }
    ensures ok { OnOk result (Comes (T.host host.old) (T.host host.new) (with_profile number)) }
    ensures written { OnOk result (Leads (T.host host.old) (T.host host.new) (WritesOnly owns_profile)) }
    ensures moments { Passes (T.host host.old) (T.host host.new) (IsOldOrNew profile (Link (link_name number))) }
    ensures cause { HasCause (T.host host.old) (T.host host.new) result }
{
    let at = profile_path(alloc)?;
    let link = profile_link(alloc, number)?;
    put(alloc, host, &at, &link)
}

/// Puts the link of the generation that a set gives a system, where that is new.
fn put_generation<T: Tree>(
    alloc: Global,
    host: &mut T,
    gens: &Gens,
    system: &SystemName,
    number: u32,
) -> Result<(), HostFault>
    requires gens { Told (T.host host.old) (λ w. IsGensOf w.leaves gens.now) }
    requires number { number_for_in gens.now.list system.now ≡ Some number }
    requires can { Told (T.host host.old) (CanSet system.now) }
    ensures ok { OnOk result (Leads (T.host host.old) (T.host host.new) (λ w v. seen v ≡ link_end system.now w)) }
    ensures written { OnOk result (Leads (T.host host.old) (T.host host.new) (WritesOnly owns_profile)) }
    ensures moments { Passes (T.host host.old) (T.host host.new) (IsLinkMoment system.now) }
    ensures cause { HasCause (T.host host.old) (T.host host.new) result }
{
    if is_highest_of(gens, system) {
        return Ok(());
    }
    let at = generation_path(alloc, number)?;
    let link = system_link(alloc, system)?;
    put(alloc, host, &at, &link)
}

/// Puts both links of a set with the number that it gives: first the generation's, then the profile's.
///
/// A cut leaves neither link put, the generation's alone, or both.
pub fn set_number<T: Tree>(
    alloc: Global,
    host: &mut T,
    gens: &Gens,
    system: &SystemName,
    number: u32,
) -> Result<(), HostFault>
    requires gens { Told (T.host host.old) (λ w. IsGensOf w.leaves gens.now) }
    requires number { number_for_in gens.now.list system.now ≡ Some number }
    requires can { Told (T.host host.old) (CanSet system.now) }
    ensures ok { OnOk result (Leads (T.host host.old) (T.host host.new) (λ w v. seen v ≡ set_end system.now w)) }
    ensures written { OnOk result (Leads (T.host host.old) (T.host host.new) (WritesOnly owns_profile)) }
    ensures moments { Passes (T.host host.old) (T.host host.new) (IsSetMoment system.now) }
    ensures cause { HasCause (T.host host.old) (T.host host.new) result }
{
    put_generation(alloc, host, gens, system, number)?;
    point(alloc, host, number)?;
    Ok(())
}

/// Makes a generation for a system, where the highest one doesn't name it, and points the profile's
/// link to it. Answers its number.
///
/// A cut leaves neither link put, the generation's alone, or both.
pub fn set<T: Tree>(
    alloc: Global,
    host: &mut T,
    gens: &Gens,
    system: &SystemName,
) -> Result<u32, SetFault>
    requires gens { Told (T.host host.old) (λ w. IsGensOf w.leaves gens.now) }
    requires can { Told (T.host host.old) (CanSet system.now) }
    ensures number { IfOk result (λ number. number_for_in gens.now.list system.now ≡ Some number) }
    ensures world_number { IfOk result (λ number. Told (T.host host.old) (λ w. number ≡ number_after w.leaves system.now)) }
    ensures full { IsErrOf result Full → IsNone (number_for_in gens.now.list system.now) }
    ensures none { IsNone (number_for_in gens.now.list system.now) → IsErrOf result Full }
    ensures ok { OnOk result (Leads (T.host host.old) (T.host host.new) (λ w v. seen v ≡ set_end system.now w)) }
    ensures written { OnOk result (Leads (T.host host.old) (T.host host.new) (WritesOnly owns_profile)) }
    ensures moments { Passes (T.host host.old) (T.host host.new) (IsSetMoment system.now) }
    ensures cause { HasCauseOf (T.host host.old) (T.host host.new) (IsErrOf result (Host Device)) }
{
    let Some(number) = number_for(gens, system) else {
        return Err(SetFault::Full);
    };
    set_number(alloc, host, gens, system, number)?;
    Ok(number)
}
