//! The places that a row writes, as its parts tell them, and a look for what is in the way.
ghost use Rattle.std.specs.Prelude.{◌≡◌, ◌++◌, None, Some, IfOk, IsErrOf, OnOk, option_map};
ghost use Rattle.std.specs.Option.{option_copied};
ghost use Rattle.accounts_stage.specs.Places.{account_places};
ghost use Rattle.boot_entries.specs.BootPart.{boot_places};
ghost use Rattle.etc_farm.specs.FarmPart.{fixed_places};
ghost use Rattle.etc_manifest.specs.Owners.{OwnerIds};
ghost use Rattle.generations.specs.Gens.{IsGensOf};
ghost use Rattle.generations.specs.Move.{gens_moved, move_places};
ghost use Rattle.host_trait.specs.declared.tree.HostFault.TheVariants.{Device};
ghost use Rattle.host_trait.specs.Host.{Told};
ghost use Rattle.host_trait.specs.Reading.{IsReadingOf};
ghost use Rattle.host_trait.specs.World.{Leaves};
ghost use Rattle.tree_put.specs.First.{first_in_the_way};
ghost use Rattle.tree_put.specs.Found.{AreFound};
ghost use Rattle.switch_parts.specs.declared.plan_fault.PlanFault.TheVariants.{Host, Refused};
ghost use Rattle.switch_parts.specs.declared.refusal.Refusal.{Refusal};
ghost use Rattle.switch_parts.specs.declared.refusal.Refusal.TheVariants.{InTheWay};
ghost use Rattle.switch_engine.specs.Plan.{AreGensBy};
ghost use Rattle.switch_engine.specs.Rows.{default_if, default_part, gens_to, part_if, parts, switch_part};
ghost use Rattle.unit_stage.specs.Owned.{unit_places};
ghost use Rattle.tree_put.specs.WrittenPlace.{AreApartFromStage};

use crate::row::Row;
use accounts_stage::add_account_places;
use boot_entries::add_menu_places;
use etc_farm::add_farm_places;
use generations::{Gens, Move, add_goal_place, add_move_places};
use host_trait::Tree;
use std::alloc::{AllocError, Global};
use std::collections::BTreeMap;
use switch_names::{Listed, Path, SystemName};
use switch_parts::{PlanFault, Refusal, refuse};
use tree_put::{Found, WrittenPlace, add_stage, first_in_the_way};
use unit_stage::add_unit_places;

/// Adds the places of a switch of the units.
fn add_switch(alloc: Global, places: &mut Listed<WrittenPlace>) -> Result<(), AllocError>
    ensures places { OnOk result (places.new ≡ places.old ++ (unit_places ++ (account_places ++ fixed_places))) }
    ensures apart { AreApartFromStage places.old → OnOk result (AreApartFromStage places.new) }
{
    add_unit_places(alloc, places)?;
    add_account_places(alloc, places)?;
    add_farm_places(alloc, places)
}

/// Adds the places of a boot default to which the profile is moved.
fn add_boot_default(
    alloc: Global,
    places: &mut Listed<WrittenPlace>,
    gens: &Gens,
    system: &SystemName,
    to: Move,
) -> Result<(), AllocError>
    ensures places { OnOk result ((leaves : Leaves) → IsGensOf leaves gens.now → places.new ≡ places.old ++ (move_places to system.now leaves ++ boot_places (gens_moved to system.now leaves).list)) }
    ensures apart { AreApartFromStage places.old → OnOk result (AreApartFromStage places.new) }
{
    add_move_places(alloc, places, gens, system, to)?;
    add_menu_places(alloc, places, gens, system, to)?;
    add_stage(alloc, places)
}

/// Adds the places of a boot default, and that of the goal of a rollback.
fn add_default(
    alloc: Global,
    places: &mut Listed<WrittenPlace>,
    gens: &Gens,
    system: &SystemName,
    to: Move,
) -> Result<(), AllocError>
    ensures places { OnOk result ((leaves : Leaves) → IsGensOf leaves gens.now → places.new ≡ places.old ++ (default_part to system.now (gens_moved to system.now leaves)).places leaves) }
    ensures apart { AreApartFromStage places.old → OnOk result (AreApartFromStage places.new) }
{
    add_boot_default(alloc, places, gens, system, to)?;
    add_goal_place(alloc, places)
}

/// Adds the places of a boot default, where the profile is moved.
fn add_default_if(
    alloc: Global,
    places: &mut Listed<WrittenPlace>,
    gens: Option<&Gens>,
    row: &Row,
) -> Result<(), AllocError>
    ensures places { OnOk result ((leaves : Leaves) → AreGensBy row.now.moves leaves (option_copied gens.entry)
        → places.new ≡ places.old ++ (default_if row.now.moves row.now.system (gens_to row.now.moves row.now.system leaves)).places leaves) }
    ensures apart { AreApartFromStage places.old → OnOk result (AreApartFromStage places.new) }
{
    let Some(to) = row.moves else {
        return Ok(());
    };
    let Some(gens) = gens else {
        return Ok(());
    };
    add_default(alloc, places, gens, &row.system, to)
}

/// Adds the places of a switch of the units, where they are switched.
fn add_switch_if(
    alloc: Global,
    places: &mut Listed<WrittenPlace>,
    row: &Row,
) -> Result<(), AllocError>
    ensures places { OnOk result ((leaves : Leaves) (owners : OwnerIds) → places.new ≡ places.old ++ (part_if row.now.switches (switch_part row.now.start_up row.now.system owners)).places leaves) }
    ensures apart { AreApartFromStage places.old → OnOk result (AreApartFromStage places.new) }
{
    if !row.switches {
        return Ok(());
    }
    add_switch(alloc, places)
}

/// The places that a row writes, as its parts tell them.
pub fn places_of(
    alloc: Global,
    row: &Row,
    gens: Option<&Gens>,
) -> Result<Listed<WrittenPlace>, AllocError>
    ensures places { IfOk result (λ list. (leaves : Leaves) (owners : OwnerIds) → AreGensBy row.now.moves leaves (option_copied gens.entry)
        → list ≡ (parts row.now.start_up row.now.switches row.now.moves row.now.system owners (gens_to row.now.moves row.now.system leaves)).places leaves) }
    ensures apart { IfOk result (λ list. AreApartFromStage list) }
{
    let mut list = Listed::new(alloc);
    add_switch_if(alloc, &mut list, row)?;
    add_default_if(alloc, &mut list, gens, row)?;
    Ok(list)
}

/// Refuses where a leaf stands in the way of one of these places, and notes what is found at those whose content is read.
pub fn check_way<T: Tree>(
    alloc: Global,
    host: &mut T,
    findings: &mut BTreeMap<Path, Found>,
    places: &[WrittenPlace],
) -> Result<(), PlanFault>
    requires apart { AreApartFromStage places.now }
    requires found { Told (T.host host.old) (λ w. AreFound w.leaves findings.old) }
    ensures free { OnOk result (Told (T.host host.old) (λ w. first_in_the_way places.now w.leaves ≡ None)) }
    ensures refused { (why : Refusal) → IsErrOf result (Refused why) → Told (T.host host.old) (λ w. option_map InTheWay (first_in_the_way places.now w.leaves) ≡ Some why) }
    ensures others { OnOk result (Told (T.host host.old) (λ w. AreFound w.leaves findings.new)) }
    ensures reads { IsReadingOf (T.host host.old) (T.host host.new) (IsErrOf result (Host Device)) }
{
    let first = first_in_the_way(alloc, host, findings, places)?;
    refuse(first.map(|at| Refusal::InTheWay(at)))
}
