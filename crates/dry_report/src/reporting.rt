//! Writes the report of a command.
ghost use Rattle.std.specs.Prelude.{◌≡◌, ◌++◌, ◌∷◌, ℕ, List, [], Some, codes, IfOk, OnOk};
ghost use Rattle.std.specs.List.{flat_map};
ghost use Rattle.std.specs.Option.{option_copied};
ghost use Rattle.activation_stage.specs.ActivationPart.{IsActivationPlanOf};
ghost use Rattle.activation_stage.specs.declared.activation_plan.ActivationPlan.{ActivationPlan};
ghost use Rattle.host_trait.specs.World.{Leaves, WorldState};
ghost use Rattle.switch_engine.specs.Plan.{IsPlanOf, activation_of, units_of};
ghost use Rattle.switch_names.specs.Names.{Name};
ghost use Rattle.unit_stage.specs.Owes.{is_stop};
ghost use Rattle.dry_report.specs.Activation.{IsActivationReport};
ghost use Rattle.dry_report.specs.Report.{IsReport, cycle_line, generation_line, line, number_of, other_lines, profile_report, report_front, report_of, stop_lines, system_text};

use crate::activation::write_activation;
use activation_stage::ActivationPlan;
use host_trait::Act;
use owed_plan::Duty;
use start_order::Cycle;
use std::alloc::{AllocError, Global};
use switch_engine::Plan;
use switch_names::{Bytes, SystemName, UnitName};

/// Whether a call stops a unit.
fn is_stop(act: Act) -> bool
    ensures { result ≡ is_stop act }
{
    matches!(act, Act::Stop)
}

/// Writes a line of two words.
fn write_line(out: &mut Vec<u8>, word: &str, rest: &str) -> Result<(), AllocError>
    ensures { OnOk result (out.new.items ≡ out.old.items ++ line word.now rest.now) }
{
    out.extend_from_slice(word.as_bytes())?;
    out.push(b' ')?;
    out.extend_from_slice(rest.as_bytes())?;
    out.push(b'\n')?;
    Ok(())
}

/// Writes the line of a call, where that is a stop.
fn write_stop(out: &mut Vec<u8>, duty: &Duty) -> Result<(), AllocError>
    ensures { OnOk result (out.new.items ≡ out.old.items ++ stop_lines (duty.now ∷ [])) }
{
    if is_stop(duty.act) {
        write_line(out, duty.act.word(), duty.unit.as_str())?;
    }
    Ok(())
}

/// Writes the line of a call, where that is no stop.
fn write_other(out: &mut Vec<u8>, duty: &Duty) -> Result<(), AllocError>
    ensures { OnOk result (out.new.items ≡ out.old.items ++ other_lines (duty.now ∷ [])) }
{
    if !is_stop(duty.act) {
        write_line(out, duty.act.word(), duty.unit.as_str())?;
    }
    Ok(())
}

/// Writes the lines of the stops.
fn write_stops(out: &mut Vec<u8>, duties: &[Duty]) -> Result<(), AllocError>
    ensures { OnOk result (out.new.items ≡ out.old.items ++ stop_lines duties.now) }
{
    for duty in duties {
        write_stop(out, duty)?;
    }
    Ok(())
}

/// Writes the lines of the other calls.
fn write_others(out: &mut Vec<u8>, duties: &[Duty]) -> Result<(), AllocError>
    ensures { OnOk result (out.new.items ≡ out.old.items ++ other_lines duties.now) }
{
    for duty in duties {
        write_other(out, duty)?;
    }
    Ok(())
}

/// Writes the lines of the changed units that get nothing.
fn write_left(out: &mut Vec<u8>, left: &[UnitName]) -> Result<(), AllocError>
    ensures { OnOk result (out.new.items ≡ out.old.items ++ flat_map (line (codes "leave")) left.now) }
{
    for unit in left {
        write_line(out, "leave", unit.as_str())?;
    }
    Ok(())
}

/// Writes units, each after a blank.
fn write_units(out: &mut Vec<u8>, units: &[UnitName]) -> Result<(), AllocError>
    ensures { OnOk result (out.new.items ≡ out.old.items ++ flat_map (λ unit. 32 ∷ unit) units.now) }
{
    for unit in units {
        out.push(b' ')?;
        out.extend_from_slice(unit.as_str().as_bytes())?;
    }
    Ok(())
}

/// Writes the line of a cycle.
fn write_cycle(out: &mut Vec<u8>, cycle: &Cycle) -> Result<(), AllocError>
    ensures { OnOk result (out.new.items ≡ out.old.items ++ cycle_line cycle.now) }
{
    out.extend_from_slice(b"cycle")?;
    write_units(out, cycle.units.as_slice())?;
    out.push(b'\n')?;
    Ok(())
}

/// Writes the lines of the cycles.
fn write_cycles(out: &mut Vec<u8>, cycles: &[Cycle]) -> Result<(), AllocError>
    ensures { OnOk result (out.new.items ≡ out.old.items ++ flat_map cycle_line cycles.now) }
{
    for cycle in cycles {
        write_cycle(out, cycle)?;
    }
    Ok(())
}

/// The system in use in words, or that there is none.
fn system_text(system: Option<&SystemName>) -> &str
    ensures { result.now ≡ system_text (option_copied system.entry) }
{
    match system {
        Some(system) => system.as_str(),
        None => "none",
    }
}

/// Writes the line of the generation that the profile names then, where it is moved.
fn write_generation(alloc: Global, out: &mut Vec<u8>, number: Option<u32>) -> Result<(), AllocError>
    ensures { OnOk result (out.new.items ≡ out.old.items ++ generation_line number) }
{
    if let Some(number) = number {
        let digits = format!(in alloc; "{number}")?;
        write_line(out, "generation", digits.as_str())?;
    }
    Ok(())
}

/// Writes the two systems, the generation where the profile is moved, the stops, and the changed units
/// that get nothing.
fn write_front(alloc: Global, out: &mut Vec<u8>, plan: &Plan) -> Result<(), AllocError>
    ensures { OnOk result (out.new.items ≡ out.old.items ++ report_front (units_of plan.now).from plan.now.row.system (number_of plan.now) (units_of plan.now).duties (units_of plan.now).owed.left) }
{
    write_line(out, "from", system_text(plan.from()))?;
    write_line(out, "to", plan.to().as_str())?;
    write_generation(alloc, out, plan.number())?;
    write_stops(out, plan.duties().as_slice())?;
    write_left(out, plan.left().as_slice())
}

/// Writes what is told of the accounts and of /etc, where they are planned.
fn write_activated(
    alloc: Global,
    out: &mut Vec<u8>,
    plan: Option<&ActivationPlan>,
) -> Result<(), AllocError>
    ensures { OnOk result ((system : Name) (leaves : Leaves) (planned : ActivationPlan) → option_copied plan.entry ≡ Some planned → IsActivationPlanOf system leaves planned
        → (text : List ℕ) × (out.new.items ≡ out.old.items ++ text) × IsActivationReport system leaves text) }
{
    match plan {
        Some(plan) => write_activation(alloc, out, plan),
        None => Ok(()),
    }
}

/// The report of a switch of the units: the two systems, the generation where the profile is moved, the
/// stops, the changed units that get nothing, the accounts and /etc, the cycles among the starts, and the
/// other calls, a line each.
fn unit_report(alloc: Global, plan: &Plan) -> Result<Bytes, AllocError>
    ensures { IfOk result (λ text. (leaves : Leaves) (planned : ActivationPlan) → activation_of plan.now ≡ Some planned → IsActivationPlanOf plan.now.row.system leaves planned
        → (told : List ℕ) × IsActivationReport plan.now.row.system leaves told
        × (text ≡ report_of (units_of plan.now).from plan.now.row.system (number_of plan.now) (units_of plan.now).duties (units_of plan.now).owed.left told (units_of plan.now).ordered.cycles)) }
{
    let mut out = Vec::new(alloc);
    write_front(alloc, &mut out, plan)?;
    write_activated(alloc, &mut out, plan.activation())?;
    write_cycles(&mut out, plan.ordered().cycles.as_slice())?;
    write_others(&mut out, plan.duties().as_slice())?;
    Ok(Bytes::from_vec(out))
}

/// The report of a move of the profile alone: the system, and the number of its generation.
fn profile_report(alloc: Global, plan: &Plan) -> Result<Bytes, AllocError>
    ensures { IfOk result (λ text. text ≡ profile_report plan.now.row.system (number_of plan.now)) }
{
    let mut out = Vec::new(alloc);
    write_line(&mut out, "to", plan.to().as_str())?;
    write_generation(alloc, &mut out, plan.number())?;
    Ok(Bytes::from_vec(out))
}

/// The report of a planned command: what it does to the units, to the accounts and to `/etc`, and the
/// generation that it makes or goes back to.
///
/// Source: the lines of switch-to-configuration, NixOS manual, "Unit handling".
pub fn report(alloc: Global, plan: &Plan) -> Result<Bytes, AllocError>
    ensures { IfOk result (λ text. (w : WorldState) → IsPlanOf w plan.now → IsReport plan.now.command w text) }
{
    if plan.boot_only() {
        return profile_report(alloc, plan);
    }
    unit_report(alloc, plan)
}
