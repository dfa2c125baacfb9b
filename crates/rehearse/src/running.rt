//! Runs a command again until it comes to its end.
ghost use Rattle.std.specs.Prelude.{◌≡◌, ◌≤◌, ◌+◌, IfOk, IfSome, IsErrOf, IsTrue, length, None};
ghost use Rattle.host_trait.specs.declared.tree.HostFault.TheVariants.{Device};
ghost use Rattle.host_trait.specs.Change.{IsSame};
ghost use Rattle.host_trait.specs.Host.{Leads, Passes, Rose};
ghost use Rattle.rehearse.specs.Ends.{HasEnded, IsHeld, IsRepeatable};
ghost use Rattle.rehearse.specs.Through.{IsBounded, IsRunThrough, IsRunThroughAll};
ghost use Rattle.rehearse.specs.Troubles.{allowed_by, as_troubles, IsCut};

use crate::attempt::attempt;
use crate::cut::Cut;
use crate::summary::{End, Summary};
use crate::trouble::Trouble;
use crate::troubled::Troubled;
use host_trait::HostFault;
use std::alloc::{AllocError, Global};
use switch_engine::Command;
use switch_names::Listed;

/// Runs a command once, under a cut.
fn run_cut<H: Troubled>(
    alloc: Global,
    host: &mut H,
    command: &Command,
    cut: &Cut,
) -> Result<End, HostFault>
    requires repeatable { IsRepeatable command.now }
    ensures ended { IfOk result (λ end. Leads (H.host host.old) (H.host host.new) (HasEnded command.now end)) }
    ensures moments { Passes (H.host host.old) (H.host host.new) (IsHeld command.now) }
    ensures later { (H.host host.old).faults ≤ (H.host host.new).faults }
    ensures rose { IsErrOf result Device → Rose (H.host host.old).faults (H.host host.new).faults }
    ensures clock { (H.host host.new).clock ≤ (H.host host.old).clock + (cut.now.after + 1) }
    ensures sure { IsTrue (H.host host.new).is_sure }
{
    host.arm(cut.after, cut.pick);
    let ending = attempt(alloc, host, command);
    host.revive();
    ending
}

/// Runs a command once, and the call of the host with this number fails.
fn run_fail<H: Troubled>(
    alloc: Global,
    host: &mut H,
    command: &Command,
    call: u64,
) -> Result<End, HostFault>
    requires repeatable { IsRepeatable command.now }
    requires sure { IsTrue (H.host host.old).is_sure }
    ensures ended { IfOk result (λ end. Leads (H.host host.old) (H.host host.new) (HasEnded command.now end)) }
    ensures moments { Passes (H.host host.old) (H.host host.new) (IsHeld command.now) }
    ensures later { (H.host host.old).faults ≤ (H.host host.new).faults }
    ensures rose { IsErrOf result Device → Rose (H.host host.old).faults (H.host host.new).faults }
    ensures sure { IsTrue (H.host host.new).is_sure }
{
    let mut calls = Listed::new(alloc);
    calls.push(call)?;
    host.fail(calls);
    let ending = attempt(alloc, host, command);
    host.revive();
    ending
}

/// Runs a command once, under a trouble.
fn run_trouble<H: Troubled>(
    alloc: Global,
    host: &mut H,
    command: &Command,
    trouble: &Trouble,
) -> Result<End, HostFault>
    requires repeatable { IsRepeatable command.now }
    requires sure { IsTrue (H.host host.old).is_sure }
    ensures ended { IfOk result (λ end. Leads (H.host host.old) (H.host host.new) (HasEnded command.now end)) }
    ensures moments { Passes (H.host host.old) (H.host host.new) (IsHeld command.now) }
    ensures later { (H.host host.old).faults ≤ (H.host host.new).faults }
    ensures rose { IsErrOf result Device → Rose (H.host host.old).faults (H.host host.new).faults }
    ensures clock { IsCut trouble.now → (H.host host.new).clock ≤ (H.host host.old).clock + allowed_by trouble.now }
    ensures sure { IsTrue (H.host host.new).is_sure }
{
    match trouble {
        Trouble::Cut(cut) => run_cut(alloc, host, command, cut),
        Trouble::Fail(call) => run_fail(alloc, host, command, *call),
    }
}

/// Runs a command once under each of these troubles, one after the other, until a run comes to its end or is
/// refused. Where each run fails, there is no summary.
fn run_troubles<H: Troubled>(
    alloc: Global,
    host: &mut H,
    command: &Command,
    troubles: &[Trouble],
) -> Result<Option<Summary>, AllocError>
    requires repeatable { IsRepeatable command.now }
    requires sure { IsTrue (H.host host.old).is_sure }
    ensures some { IfOk result (λ ended. IfSome ended (IsRunThroughAll command.now (H.host host.old) (H.host host.new) troubles.now)) }
    ensures none { IfOk result (λ ended. ended ≡ None → IsBounded (H.host host.old) (H.host host.new) troubles.now (length troubles.now)) }
    ensures still { IfOk result (λ ended. ended ≡ None → length troubles.now ≡ 0 → Leads (H.host host.old) (H.host host.new) IsSame) }
    ensures moments { Passes (H.host host.old) (H.host host.new) (IsHeld command.now) }
    ensures sure { IsTrue (H.host host.new).is_sure }
{
    let mut runs: u64 = 0;
    for trouble in troubles {
        runs += 1;
        match run_trouble(alloc, host, command, trouble) {
            Ok(end) => return Ok(Some(Summary { runs, end })),
            Err(HostFault::Memory) => return Err(AllocError),
            Err(HostFault::Device) => {}
        }
    }
    Ok(None)
}

/// Runs a command once under each of these troubles, one after the other, until a run comes to its end or is
/// refused. Where each of them fails, a last run follows on which nothing fails.
///
/// What was armed on the host before is taken back first, and nothing is armed on it in the end. Want of memory
/// ends it at once, and leaves a world in which the command is underway.
pub fn through_all<H: Troubled>(
    alloc: Global,
    host: &mut H,
    command: &Command,
    troubles: &[Trouble],
) -> Result<Summary, AllocError>
    requires repeatable { IsRepeatable command.now }
    ensures through { IfOk result (IsRunThroughAll command.now (H.host host.old) (H.host host.new) troubles.now) }
    ensures moments { Passes (H.host host.old) (H.host host.new) (IsHeld command.now) }
    ensures sure { IsTrue (H.host host.new).is_sure }
{
    host.revive();
    if let Some(summary) = run_troubles(alloc, host, command, troubles)? {
        return Ok(summary);
    }
    match attempt(alloc, host, command) {
        Ok(end) => Ok(Summary {
            runs: troubles.len() as u64 + 1,
            end,
        }),
        // nothing fails on the host now, so this is want of memory
        Err(_) => Err(AllocError),
    }
}

/// Cuts as troubles.
fn as_troubles(alloc: Global, cuts: &[Cut]) -> Result<Listed<Trouble>, AllocError>
    ensures { IfOk result (λ troubles. troubles ≡ as_troubles cuts.now) }
{
    let mut troubles = Listed::new(alloc);
    for cut in cuts {
        troubles.push(Trouble::Cut(*cut))?;
    }
    Ok(troubles)
}

/// Runs a command once under each of these cuts, one after the other, until a run comes to its end or is refused.
/// Where each of them is cut, a last run follows that isn't.
///
/// What was armed on the host before is taken back first, and nothing is armed on it in the end. Want of memory
/// ends it at once, and leaves a world in which the command is underway.
pub fn through<H: Troubled>(
    alloc: Global,
    host: &mut H,
    command: &Command,
    cuts: &[Cut],
) -> Result<Summary, AllocError>
    requires repeatable { IsRepeatable command.now }
    ensures through { IfOk result (IsRunThrough command.now (H.host host.old) (H.host host.new) cuts.now) }
    ensures moments { Passes (H.host host.old) (H.host host.new) (IsHeld command.now) }
    ensures sure { IsTrue (H.host host.new).is_sure }
{
    host.revive();
    let troubles = as_troubles(alloc, cuts)?;
    through_all(alloc, host, command, troubles.as_slice())
}
