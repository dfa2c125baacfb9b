//! The parts of a switch on a host on which a cut has fallen.
ghost use Rattle.etc_manifest.specs.Manifest.{AreApart, places};

use accounts_stage::{read_all, read_tables};
use boot_entries::texts;
use etc_clean::obsolete;
use etc_manifest::Manifest;
use generations::{Gens, GoalFault, SetFault, all, clear_goal, goal, point, record_goal, set};
use host_trait::{HostFault, Manager};
use std::alloc::Global;
use std::test::Fail;
use switch_engine::{Command, Plan, PlanFault, plan_all};
use switch_names::{Bytes, SystemName};
use tree_put::nothing_found;
use users_merge::Merged;
use world_text::{Lines, empty_host, fallen_host, host_of, text_of};

/// The word for what a call answered.
fn word_of(fault: &Option<HostFault>) -> &'static str {
    match fault {
        None => "ok",
        Some(HostFault::Memory) => "memory",
        Some(HostFault::Device) => "device",
    }
}

/// Shows what a call answered.
fn show(lines: &mut Lines, call: &str, fault: &Option<HostFault>) {
    lines.add_word(call);
    lines.add_word(word_of(fault));
    lines.end_line();
}

/// The fault of the host in that of a plan.
fn of_plan(fault: PlanFault) -> Option<HostFault> {
    match fault {
        PlanFault::Host(why) => Some(why),
        PlanFault::Refused(_) => None,
    }
}

/// The fault of the host in that of a goal.
fn of_goal(fault: GoalFault) -> Option<HostFault> {
    match fault {
        GoalFault::Host(why) => Some(why),
        GoalFault::NoPrevious => None,
    }
}

/// The fault of the host in that of a set.
fn of_set(fault: SetFault) -> Option<HostFault> {
    match fault {
        SetFault::Host(why) => Some(why),
        SetFault::Full => None,
    }
}

/// Shows what the calls on accounts answer, for accounts that were merged.
fn show_accounts(alloc: Global, lines: &mut Lines, merged: &Merged) {
    let fault = accounts_stage::apply(alloc, &mut fallen_host(alloc), merged).err();
    show(lines, "accounts_stage::apply", &fault);
    let fault = read_all(alloc, &mut fallen_host(alloc)).err();
    show(lines, "read_all", &fault.and_then(of_plan));
    let fault = read_tables(alloc, &mut fallen_host(alloc)).err();
    show(lines, "read_tables", &fault.and_then(of_plan));
}

/// Shows what the calls on /etc answer, for what a system wants there.
fn show_etc(
    alloc: Global,
    lines: &mut Lines,
    system: &SystemName,
    manifest: &Manifest,
) -> Result<(), Fail>
    requires { AreApart (places manifest.now) }
{
    let mut findings = nothing_found(alloc);
    let fault = obsolete(alloc, &mut fallen_host(alloc), &mut findings, manifest).err();
    show(lines, "obsolete", &fault);
    let mut findings = nothing_found(alloc);
    let sorted = obsolete(alloc, &mut empty_host(alloc), &mut findings, manifest)?;
    let fault = etc_farm::apply(alloc, &mut fallen_host(alloc), system, manifest, &sorted).err();
    show(lines, "etc_farm::apply", &fault);
    Ok(())
}

/// Shows what the calls on the profile answer.
fn show_profile(alloc: Global, lines: &mut Lines, system: &SystemName) -> Result<(), Fail> {
    let gens = all(alloc, &mut empty_host(alloc))?;
    show(lines, "all", &all(alloc, &mut fallen_host(alloc)).err());
    let fault = set(alloc, &mut fallen_host(alloc), &gens, system).err();
    show(lines, "set", &fault.and_then(of_set));
    let fault = point(alloc, &mut fallen_host(alloc), 1).err();
    show(lines, "point", &fault);
    let fault = goal(alloc, &mut fallen_host(alloc), &gens).err();
    show(lines, "goal", &fault.and_then(of_goal));
    let fault = record_goal(alloc, &mut fallen_host(alloc), 1).err();
    show(lines, "record_goal", &fault);
    let fault = clear_goal(alloc, &mut fallen_host(alloc)).err();
    show(lines, "clear_goal", &fault);
    Ok(())
}

/// Shows what the calls on the boot menu answer, for these generations.
fn show_menu(alloc: Global, lines: &mut Lines, gens: &Gens) -> Result<(), Fail> {
    let menu = texts(alloc, &mut empty_host(alloc), gens)?;
    let fault = texts(alloc, &mut fallen_host(alloc), gens).err();
    show(lines, "texts", &fault);
    let fault = boot_entries::apply(alloc, &mut fallen_host(alloc), &menu).err();
    show(lines, "boot_entries::apply", &fault);
    Ok(())
}

/// The plan of a switch.
fn plan_of<T: Manager>(alloc: Global, from: &mut T, system: &SystemName) -> Result<Plan, Fail> {
    let command = Command::Switch(system.copy(alloc)?);
    match plan_all(alloc, from, &command) {
        Ok(plan) => Ok(plan),
        Err(_) => Err(Fail::new("no plan is made")),
    }
}

/// Shows what each part of a switch to this system answers on a host on which a cut has fallen. What is set and put is what
/// the world of these places gives.
pub fn show_fallen(
    alloc: Global,
    lines: &mut Lines,
    system: &Bytes,
    places: &[Bytes],
) -> Result<(), Fail> {
    let system = SystemName::parse(alloc, text_of(system)?)?;
    let mut from = host_of(alloc, places)?;
    let plan = plan_of(alloc, &mut from, &system)?;
    if let Some(activation) = plan.activation() {
        if let Some(merged) = &activation.accounts.merged {
            show_accounts(alloc, lines, merged);
        }
        if let Ok(manifest) = Manifest::read(alloc, &mut from, &system, &activation.etc.owners) {
            show_etc(alloc, lines, &system, &manifest)?;
        }
    }
    show_profile(alloc, lines, &system)?;
    let gens = all(alloc, &mut from)?;
    show_menu(alloc, lines, &gens)
}
