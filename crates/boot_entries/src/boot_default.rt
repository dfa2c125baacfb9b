//! Makes a system the boot default: moves the profile to it, and makes the boot menu.
ghost use Rattle.std.specs.Prelude.{◌≡◌, ◌++◌, None, Some, IfOk, IsErrOf, OnOk};
ghost use Rattle.host_trait.specs.declared.tree.HostFault.TheVariants.{Device};
ghost use Rattle.host_trait.specs.Host.{HasCause, Leads, Passes, Told};
ghost use Rattle.host_trait.specs.Reading.{IsReadingOf};
ghost use Rattle.host_trait.specs.World.{Leaves, seen};
ghost use Rattle.generations.specs.Gens.{IsGensOf};
ghost use Rattle.generations.specs.Move.{gens_moved};
ghost use Rattle.switch_parts.specs.declared.plan_fault.PlanFault.TheVariants.{Host, Refused};
ghost use Rattle.switch_parts.specs.declared.refusal.Refusal.{Refusal};
ghost use Rattle.tree_put.specs.Written.{WritesOnly};
ghost use Rattle.tree_put.specs.WrittenPlace.{AreApartFromStage};
ghost use Rattle.boot_entries.specs.BootDefault.{CanMakeDefault, IsDefaultFor, IsDefaultPlanOf, IsMakingDefault, boot_default_in, default_end, menu_places, owns_default};

use crate::applying::apply;
use crate::boot_texts::BootTexts;
use crate::menu_places::add_places_of;
use crate::planning::texts_noted;
use generations::{Gens, Move, after_move, move_profile, number_to};
use host_trait::{HostFault, Tree};
use leaf_limits::count_noted;
use std::alloc::{AllocError, Global};
use switch_names::{Listed, SystemName};
use switch_parts::{PlanFault, Refusal, What, too_many};
use tree_put::WrittenPlace;

/// What is planned to make a system the boot default.
pub struct BootDefaultPlan {
    /// How the profile is moved.
    pub to: Move,
    /// The generations that stand.
    pub gens: Gens,
    /// The number of the generation that is current then.
    pub number: u32,
    /// The boot menu of the generations that stand then.
    pub menu: BootTexts,
}

/// One call: a derived drop is proved anew in each function that lets one go.
impl Drop for BootDefaultPlan {
    fn drop(self) {
        let BootDefaultPlan {
            to: _,
            gens: _,
            number: _,
            menu: _,
        } = self;
    }
}

/// Adds the places of the boot menu after a move of the profile to a system, in byte order, given the
/// generations that stand.
pub fn add_menu_places(
    alloc: Global,
    places: &mut Listed<WrittenPlace>,
    gens: &Gens,
    system: &SystemName,
    to: Move,
) -> Result<(), AllocError>
    ensures places { OnOk result ((leaves : Leaves) → IsGensOf leaves gens.now → places.new ≡ places.old ++ menu_places (gens_moved to system.now leaves).list) }
    ensures apart { AreApartFromStage places.old → OnOk result (AreApartFromStage places.new) }
{
    let after = after_move(alloc, gens, system, to)?;
    add_places_of(alloc, places, after.list.as_slice())
}

/// Plans to make a system the boot default by a move of the profile, given the generations that stand, and
/// changes nothing.
///
/// It is refused where a set finds no further number, and then with the length of the first of the
/// files in byte order that is too long. It reads two files of each generation's system once, and lists
/// the folder of the entries once.
///
/// Source: NixOS manual, "Changing the configuration"; Boot Loader Specification, "Type #1 Boot
/// Loader Specification Entries".
pub fn plan_boot_default<T: Tree>(
    alloc: Global,
    host: &mut T,
    system: &SystemName,
    to: Move,
    gens: Gens,
) -> Result<BootDefaultPlan, PlanFault>
    requires gens { Told (T.host host.old) (λ w. IsGensOf w.leaves gens) }
    ensures plan { IfOk result (λ plan. Told (T.host host.old) (λ w. IsDefaultPlanOf to system.now w.leaves plan)) }
    ensures sound { IfOk result (IsDefaultFor system.now) }
    ensures not_refused { OnOk result (Told (T.host host.old) (λ w. (boot_default_in to system.now w.leaves).refusal w.leaves ≡ None)) }
    ensures refused { (why : Refusal) → IsErrOf result (Refused why)
        → Told (T.host host.old) (λ w. (boot_default_in to system.now w.leaves).refusal w.leaves ≡ Some why) }
    ensures reads { IsReadingOf (T.host host.old) (T.host host.new) (IsErrOf result (Host Device)) }
{
    let Some(number) = number_to(&gens, system, to) else {
        return Err(PlanFault::Refused(Refusal::GenerationsFull));
    };
    let after = after_move(alloc, &gens, system, to)?;
    let mut long = None;
    let menu = texts_noted(alloc, host, &after, &mut long)?;
    if let Some(why) = too_many(What::LeafBytes, count_noted(&long)) {
        return Err(PlanFault::Refused(why));
    }
    Ok(BootDefaultPlan {
        to,
        gens,
        number,
        menu,
    })
}

/// Makes a system the boot default, as planned: moves the profile to it, with a link of its generation where
/// that is new, and makes the boot menu.
///
/// A cut leaves the profile as it was or moved, and the boot menu between the old and the new one.
/// Source: NixOS manual, "Changing the configuration"; Boot Loader Specification, "Type #1 Boot
/// Loader Specification Entries".
pub fn make_boot_default<T: Tree>(
    alloc: Global,
    host: &mut T,
    system: &SystemName,
    plan: &BootDefaultPlan,
) -> Result<(), HostFault>
    requires sound { IsDefaultFor system.now plan.now }
    requires can { Told (T.host host.old) (CanMakeDefault system.now plan.now) }
    ensures ok { OnOk result (Leads (T.host host.old) (T.host host.new) (λ w v. seen v ≡ default_end plan.now.to system.now w)) }
    ensures written { OnOk result (Leads (T.host host.old) (T.host host.new) (WritesOnly owns_default)) }
    ensures moments { Passes (T.host host.old) (T.host host.new) (IsMakingDefault plan.now.to system.now) }
    ensures cause { HasCause (T.host host.old) (T.host host.new) result }
{
    move_profile(alloc, host, &plan.gens, system, plan.to, plan.number)?;
    apply(alloc, host, &plan.menu)?;
    Ok(())
}
