//! Generations of the system profile, and the numbers that they give.
ghost use Rattle.std.specs.Prelude.{◌≡◌, ◌&&◌, ◌++◌, ◌∷◌, [], Some, IfOk, nat_lt, is_some, option_and_then, if◌then◌else◌};
ghost use Rattle.std.specs.Option.{option_copied};
ghost use Rattle.host_trait.specs.World.{Leaves};
ghost use Rattle.generations.specs.After.{gens_after};
ghost use Rattle.generations.specs.Boot.{boot_system};
ghost use Rattle.generations.specs.Gens.{IsGensOf, is_highest_of, listed_at, number_for_in, previous_in};
ghost use Rattle.generations.specs.Places.{is_of};

use std::alloc::{AllocError, Global};
use switch_names::{Listed, SystemName};

/// A generation of the profile.
#[derive(Drop)]
pub struct Gen {
    /// Its number, from 1 on.
    pub number: u32,
    /// The system that its link names, where it names one.
    pub target: Option<SystemName>,
}

/// The generations of the profile in ascending order, and the number of the current one.
#[derive(Drop)]
pub struct Gens {
    /// The generations, ascending.
    pub list: Listed<Gen>,
    /// The number of the one that the profile's link names, where that stands.
    pub current: Option<u32>,
}

/// Whether a generation names a system.
fn is_of(generation: &Gen, system: &SystemName) -> bool
    ensures { result ≡ is_of (Some generation.now.target) system.now }
{
    match &generation.target {
        Some(target) => target == system,
        None => false,
    }
}

/// The number that a set gives a system: the highest generation's where that names it, else the
/// next, and 1 where there is none. `None` where there is no further number.
pub fn number_for(gens: &Gens, system: &SystemName) -> Option<u32>
    ensures { result ≡ number_for_in gens.now.list system.now }
{
    let Some(highest) = gens.list.as_slice().last() else {
        return Some(1);
    };
    if is_of(highest, system) {
        return Some(highest.number);
    }
    highest.number.checked_add(1)
}

/// Whether the highest generation names a system.
pub fn is_highest_of(gens: &Gens, system: &SystemName) -> bool
    ensures { result ≡ is_highest_of gens.now.list system.now }
{
    match gens.list.as_slice().last() {
        Some(highest) => is_of(highest, system),
        None => false,
    }
}

/// The system of the generation of a number, where it stands and names one.
pub fn system_of(gens: &Gens, number: u32) -> Option<&SystemName>
    ensures { option_copied result ≡ option_and_then (λ target. target) (listed_at gens.now.list number) }
{
    for generation in gens.list.as_slice() {
        if generation.number == number {
            return generation.target.as_ref();
        }
    }
    None
}

/// The system that a machine boots into: that of the current generation, where it names one.
pub fn boot_system(gens: &Gens) -> Option<&SystemName>
    ensures { (leaves : Leaves) → IsGensOf leaves gens.now → option_copied result ≡ boot_system leaves }
{
    let number = gens.current?;
    system_of(gens, number)
}

/// Whether a generation lies below a number and names a system.
fn is_earlier(generation: &Gen, current: u32) -> bool
    ensures { result ≡ (nat_lt generation.now.number current && is_some generation.now.target) }
{
    generation.number < current && generation.target.is_some()
}

/// The greatest number below the current one whose generation names a system.
pub fn previous(gens: &Gens) -> Option<u32>
    ensures { result ≡ previous_in gens.now.list gens.now.current }
{
    let current = gens.current?;
    let mut latest = None;
    for generation in gens.list.as_slice() {
        if is_earlier(generation, current) {
            latest = Some(generation.number);
        }
    }
    latest
}

/// An equal generation.
fn copy_of(alloc: Global, generation: &Gen) -> Result<Gen, AllocError>
    ensures { IfOk result (λ copied. copied ≡ generation.now) }
{
    let target = match &generation.target {
        Some(target) => Some(target.copy(alloc)?),
        None => None,
    };
    Ok(Gen {
        number: generation.number,
        target,
    })
}

/// Equal generations, in their order.
pub fn copy_list(alloc: Global, list: &[Gen]) -> Result<Listed<Gen>, AllocError>
    ensures { IfOk result (λ copied. copied ≡ list.now) }
{
    let mut copied = Listed::new(alloc);
    for generation in list {
        copied.push(copy_of(alloc, generation)?)?;
    }
    Ok(copied)
}

/// The generations with one of a number for a system, where the highest one doesn't name it already.
fn list_with(
    alloc: Global,
    gens: &Gens,
    system: &SystemName,
    number: u32,
) -> Result<Listed<Gen>, AllocError>
    ensures { IfOk result (λ list. list ≡ (if is_highest_of gens.now.list system.now then gens.now.list else gens.now.list ++ record { number = number; target = Some system.now } ∷ [])) }
{
    let mut list = copy_list(alloc, gens.list.as_slice())?;
    if !is_highest_of(gens, system) {
        let target = Some(system.copy(alloc)?);
        list.push(Gen { number, target })?;
    }
    Ok(list)
}

/// The generations that stand after a set of the profile to a system: those that stand, and the one
/// that the system gets where that is new, which is then the current one. Where there is no further
/// number, those that stand, and none is the current one.
pub fn after_set(alloc: Global, gens: &Gens, system: &SystemName) -> Result<Gens, AllocError>
    ensures { IfOk result (λ after. (leaves : Leaves) → IsGensOf leaves gens.now → after ≡ gens_after system.now leaves) }
{
    let Some(number) = number_for(gens, system) else {
        let list = copy_list(alloc, gens.list.as_slice())?;
        return Ok(Gens {
            list,
            current: None,
        });
    };
    let list = list_with(alloc, gens, system, number)?;
    Ok(Gens {
        list,
        current: Some(number),
    })
}
