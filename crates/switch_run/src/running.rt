//! Does what words ask for: a command, from its plan to its closing text, a list, a rehearsal or a collection.
ghost use Rattle.std.specs.Prelude.{◌≡◌, Some, IsErrOf};
ghost use Rattle.host_trait.specs.Host.{Told};
ghost use Rattle.switch_engine.specs.Plan.{IsPlanOf, IsSound};
ghost use Rattle.switch_run.specs.declared.run_fault.RunFault.TheVariants.{Sink};
ghost use Rattle.switch_run.specs.Asked.{IsRun};
ghost use Rattle.switch_run.specs.Ending.{HasReported, IsEnding, IsSinkCaused};
ghost use Rattle.switch_run.specs.Listing.{IsListing};
ghost use Rattle.switch_run.specs.Rehearsing.{IsRehearsing};

use crate::asked::Asked;
use crate::collecting::run_collection;
use crate::run_fault::RunFault;
use dry_report::{close, generation_list, report};
use generations::all;
use host_trait::{Manager, Sink};
use rehearse::{rehearsal, rehearsal_with_jobs};
use std::alloc::Global;
use switch_engine::{Command, Plan, carry_out, plan_all};
use switch_names::Text;

/// Puts the report of a plan.
fn put_report<S: Sink>(alloc: Global, out: &mut S, plan: &Plan) -> Result<(), RunFault>
    ensures output { HasReported plan.now (S.sink out.old) (S.sink out.new) result }
    ensures cause { IsSinkCaused (S.sink out.old) (S.sink out.new) (IsErrOf result Sink) }
{
    let text = report(alloc, plan)?;
    out.put(text.as_slice())?;
    Ok(())
}

/// Puts the report of a planned command, carries it out, and puts its closing text. One that changes
/// nothing has put its report alone. Answers whether a unit failed that the system defines.
fn run_planned<H: Manager, S: Sink>(
    alloc: Global,
    host: &mut H,
    out: &mut S,
    plan: &Plan,
) -> Result<bool, RunFault>
    requires planned { Told (H.host host.old) (λ w. IsPlanOf w plan.now) }
    requires sound { IsSound plan.now }
    ensures { IsEnding (Some plan.now.command) (H.host host.old) (H.host host.new) (S.sink out.old) (S.sink out.new) result }
{
    put_report(alloc, out, plan)?;
    if plan.command().is_query() {
        return Ok(false);
    }
    let outcome = carry_out(alloc, host, plan)?;
    close(out, plan, &outcome)?;
    Ok(outcome.failed)
}

/// Plans a command and runs it.
fn run_command<H: Manager, S: Sink>(
    alloc: Global,
    host: &mut H,
    out: &mut S,
    command: &Command,
) -> Result<bool, RunFault>
    ensures { IsEnding (Some command.now) (H.host host.old) (H.host host.new) (S.sink out.old) (S.sink out.new) result }
{
    let plan = plan_all(alloc, host, command)?;
    run_planned(alloc, host, out, &plan)
}

/// Puts the list of the generations that stand, and changes nothing.
///
/// Source: nix-env(1), "--list-generations".
fn run_list<H: Manager, S: Sink>(alloc: Global, host: &mut H, out: &mut S) -> Result<bool, RunFault>
    ensures { IsListing (H.host host.old) (H.host host.new) (S.sink out.old) (S.sink out.new) result }
{
    let gens = all(alloc, host)?;
    let text = generation_list(alloc, &gens)?;
    out.put(text.as_slice())?;
    Ok(false)
}

/// Rehearses a switch of the machine that is made from a number, and puts what came of it. It makes a host of its own, with a
/// manager that does at once what it is asked.
fn run_rehearsal<S: Sink>(alloc: Global, number: u64, out: &mut S) -> Result<bool, RunFault>
    ensures { IsRehearsing number (S.sink out.old) (S.sink out.new) result }
{
    let text = rehearsal(alloc, number)?;
    out.put(text.as_str().as_bytes())?;
    Ok(false)
}

/// Rehearses the same on a manager whose jobs end later.
fn run_rehearsal_with_jobs<S: Sink>(
    alloc: Global,
    number: u64,
    out: &mut S,
) -> Result<bool, RunFault>
    ensures { IsRehearsing number (S.sink out.old) (S.sink out.new) result }
{
    let text = rehearsal_with_jobs(alloc, number)?;
    out.put(text.as_str().as_bytes())?;
    Ok(false)
}

/// Does what words ask for. Answers whether a unit failed that the system defines.
pub fn run_words<H: Manager, S: Sink>(
    alloc: Global,
    words: &[Text],
    host: &mut H,
    out: &mut S,
) -> Result<bool, RunFault>
    ensures { IsRun words.now (H.host host.old) (H.host host.new) (S.sink out.old) (S.sink out.new) result }
{
    match Asked::read(alloc, words)? {
        Asked::Command(command) => run_command(alloc, host, out, &command),
        Asked::Generations => run_list(alloc, host, out),
        Asked::Rehearsal(number) => run_rehearsal(alloc, number, out),
        Asked::RehearsalWithJobs(number) => run_rehearsal_with_jobs(alloc, number, out),
        Asked::Collection(keep) => run_collection(alloc, host, out, keep),
        Asked::Nothing => Err(RunFault::Usage),
    }
}
