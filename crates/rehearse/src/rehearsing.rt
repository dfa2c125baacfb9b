//! Rehearses a switch of a made machine.
ghost use Rattle.std.specs.Prelude.{◌≡◌, ◌≤◌, IfOk, IsTrue, length, None, string_bytes};
ghost use Rattle.host_trait.specs.Change.{IsSame};
ghost use Rattle.host_trait.specs.Host.{Leads, Passes, Told};
ghost use Rattle.rehearse.specs.Rehearsal.{active_units, end_word, failed_units, IsRehearsal, IsRehearsed, left_text, made_text, units_text};
ghost use Rattle.rehearse.specs.Ends.{IsRepeatable};
ghost use Rattle.switch_engine.specs.Final.{is_failed};
ghost use Rattle.switch_engine.specs.Owing.{IsSteadyFor, Refuses};

use crate::cut::Cut;
use crate::generated::generate_of;
use crate::running::through;
use crate::summary::{End, Summary};
use crate::troubled::Troubled;
use host_memory::MemoryHost;
use host_trait::{State, States, World};
use std::alloc::{AllocError, Global};
use switch_engine::{Command, PlanFault, plan_all};
use switch_names::Text;

/// Whether runs of a command may be cut that begin in the world of a host: it isn't refused there, and the world is steady.
pub(crate) fn may_be_cut<H: Troubled>(
    alloc: Global,
    host: &mut H,
    command: &Command,
) -> Result<bool, AllocError>
    ensures none { IfOk result (λ may. IsTrue may → Told (H.host host.old) (λ w. Refuses command.now w None)) }
    ensures steady { IfOk result (λ may. IsTrue may → Told (H.host host.old) (IsSteadyFor command.now)) }
    ensures same { Passes (H.host host.old) (H.host host.new) IsSame }
{
    match plan_all(alloc, host, command) {
        Ok(plan) => Ok(plan.steady()),
        Err(PlanFault::Refused(_)) => Ok(false),
        // nothing fails on the host, so this is want of memory
        Err(PlanFault::Host(_)) => Err(AllocError),
    }
}

/// How many units are active.
fn active_units(states: &States) -> usize
    ensures { result ≡ active_units states.now }
{
    states
        .list()
        .as_slice()
        .iter()
        .filter(|one| one.state.is_active())
        .count()
}

/// Whether a unit has failed.
fn is_failed(state: State) -> bool
    ensures { result ≡ is_failed state }
{
    matches!(state, State::Failed)
}

/// How many units have failed.
fn failed_units(states: &States) -> usize
    ensures { result ≡ failed_units states.now }
{
    states
        .list()
        .as_slice()
        .iter()
        .filter(|one| is_failed(one.state))
        .count()
}

/// The word for an end.
fn end_word(end: &End) -> &'static str
    ensures { result.now ≡ end_word end.now }
{
    match end {
        End::Done => "done",
        End::UnitsFailed => "failed",
        End::Refused(_) => "refused",
    }
}

/// The lines on what was made.
pub(crate) fn made_text(
    alloc: Global,
    units: u32,
    entries: u32,
    users: u32,
) -> Result<String, AllocError>
    ensures { IfOk result (λ text. string_bytes text ≡ made_text units entries users) }
{
    format!(in alloc; "units {units}\nentries {entries}\nusers {users}\n")
}

/// The lines on the units and the journal.
fn units_text(alloc: Global, world: &World) -> Result<String, AllocError>
    ensures { IfOk result (λ text. string_bytes text ≡ units_text world.now) }
{
    let active = active_units(world.states());
    let failed = failed_units(world.states());
    let entered = world.journal().as_slice().len();
    format!(in alloc; "active {active}\nfailed {failed}\nentered {entered}\n")
}

/// The lines on the runs and on what they have left.
pub(crate) fn left_text(
    alloc: Global,
    summary: &Summary,
    world: &World,
) -> Result<String, AllocError>
    ensures { IfOk result (λ text. string_bytes text ≡ left_text summary.now world.now) }
{
    let runs = summary.runs;
    let leaves = world.leaf_count();
    let units = units_text(alloc, world)?;
    let units = units.as_str();
    let end = end_word(&summary.end);
    format!(in alloc; "runs {runs}\nleaves {leaves}\n{units}end {end}\n")
}

/// Runs a command on a host under these cuts, or without a cut where its runs may not be cut there.
fn rehearse_on<H: Troubled>(
    alloc: Global,
    host: &mut H,
    command: &Command,
    cuts: &[Cut],
) -> Result<Summary, AllocError>
    requires repeatable { IsRepeatable command.now }
    requires few { length cuts.now ≤ 64 }
    ensures { IfOk result (λ summary. Leads (H.host host.old) (H.host host.new) (λ w v. IsRehearsed command.now w v summary)) }
{
    if may_be_cut(alloc, host, command)? {
        return through(alloc, host, command, cuts);
    }
    through(alloc, host, command, &[])
}

/// Rehearses a switch of the machine of a number to its new system, and tells of it.
///
/// The switch is made on a host in memory under the cuts of the machine, or without a cut where it is refused there or the world
/// isn't steady. The lines are what was made, how many runs there were, and what they have left: how many leaves, how many
/// units that are active and that have failed, how many entries in the journal, and how the last run ended.
pub fn rehearsal_of(
    alloc: Global,
    number: u64,
    units: u32,
    entries: u32,
    users: u32,
) -> Result<Text, AllocError>
    ensures { IfOk result (IsRehearsal number units entries users) }
{
    let made = generate_of(alloc, number, units, entries, users)?;
    let (world, system, cuts) = made.into_parts();
    let mut host = MemoryHost::new(alloc, world);
    let command = Command::Switch(system);
    let summary = rehearse_on(alloc, &mut host, &command, cuts.as_slice())?;
    let mut text = made_text(alloc, units, entries, users)?;
    let left = left_text(alloc, &summary, host.world())?;
    text.push_str(left.as_str())?;
    Ok(Text::from_string(text))
}

/// Rehearses a switch of the machine of a number with 2,000 units, 5,000 entries of `/etc` and 200 users, and tells of it.
pub fn rehearsal(alloc: Global, number: u64) -> Result<Text, AllocError>
    ensures { IfOk result (IsRehearsal number 2000 5000 200) }
{
    rehearsal_of(alloc, number, 2000, 5000, 200)
}
