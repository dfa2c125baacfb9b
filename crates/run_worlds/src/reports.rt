//! The report of a switch from one system to another.
use dry_report::report;
use std::alloc::Global;
use std::test::Fail;
use switch_engine::{Command, Plan, PlanFault, Refusal, plan_all};
use switch_names::{Bytes, SystemName};
use world_text::{Lines, host_of_systems, show_fault};

/// Shows the report of a plan.
fn show_report(alloc: Global, lines: &mut Lines, plan: &Plan) -> Result<(), Fail> {
    let text = report(alloc, plan)?;
    lines.add_text(std::str::from_utf8(text.as_slice())?);
    Ok(())
}

/// Shows the report of a switch to the second system over the world of these places, or the unit and the line by
/// which it is refused.
pub fn show_switch(alloc: Global, lines: &mut Lines, places: &[Bytes]) -> Result<(), Fail> {
    let mut host = host_of_systems(alloc, places)?;
    let command = Command::DryActivate(SystemName::parse(alloc, "nix/store/b-sys")?);
    match plan_all(alloc, &mut host, &command) {
        Ok(plan) => show_report(alloc, lines, &plan),
        Err(PlanFault::Refused(Refusal::UnitText { unit, line })) => {
            show_fault(lines, &unit, line);
            Ok(())
        }
        Err(_) => Err(Fail::new("no plan is made")),
    }
}
