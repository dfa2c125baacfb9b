//! A command on a host whose jobs end later.
ghost use Rattle.std.specs.Prelude.{◌≡◌, ◌≤◌, [], IfOk, IsTrue, OnOk, Some, length};
ghost use Rattle.host_trait.specs.Host.{Leads, Passes};
ghost use Rattle.job_host.specs.MemoryJobs.{host_of, raw_of, waiting_of};
ghost use Rattle.rehearse.specs.Ends.{IsHeld, IsRepeatable};
ghost use Rattle.rehearse.specs.Rehearsal.{IsRehearsal, IsRehearsed};
ghost use Rattle.rehearse.specs.Through.{IsRunThrough};

use crate::cut::Cut;
use crate::generated::{draws_of, generate_of, schedule_of};
use crate::rehearsing::{left_text, made_text, may_be_cut};
use crate::running::through;
use crate::summary::Summary;
use job_host::{JobHost, MemoryJobs};
use std::alloc::{AllocError, Global};
use switch_engine::Command;
use switch_names::Text;

/// Runs a command as `through` does on a host whose jobs end later, and waits for the end of each job.
///
/// What holds of the world is said of that in which each job has ended, which in the end is the world as it is.
pub fn through_jobs(
    alloc: Global,
    host: &mut JobHost<MemoryJobs>,
    command: &Command,
    cuts: &[Cut],
) -> Result<Summary, AllocError>
    requires repeatable { IsRepeatable command.now }
    ensures through { IfOk result (IsRunThrough command.now (host_of host.old.device) (host_of host.new.device) cuts.now) }
    ensures moments { Passes (host_of host.old.device) (host_of host.new.device) (IsHeld command.now) }
    ensures sure { IsTrue (host_of host.new.device).is_sure }
    ensures none { OnOk result (waiting_of host.new.device ≡ []) }
    ensures raw { OnOk result ((host_of host.new.device).world ≡ Some (raw_of host.new.device)) }
{
    let summary = through(alloc, host, command, cuts)?;
    match host.finish(alloc) {
        Ok(()) => Ok(summary),
        // nothing fails on the host now, so this is want of memory
        Err(_) => Err(AllocError),
    }
}

/// Runs a command on a host under these cuts, or without a cut where its runs may not be cut there.
fn rehearse_jobs_on(
    alloc: Global,
    host: &mut JobHost<MemoryJobs>,
    command: &Command,
    cuts: &[Cut],
) -> Result<Summary, AllocError>
    requires repeatable { IsRepeatable command.now }
    requires few { length cuts.now ≤ 64 }
    ensures rehearsed { IfOk result (λ summary. Leads (host_of host.old.device) (host_of host.new.device) (λ w v. IsRehearsed command.now w v summary)) }
    ensures raw { OnOk result ((host_of host.new.device).world ≡ Some (raw_of host.new.device)) }
{
    if may_be_cut(alloc, host, command)? {
        return through_jobs(alloc, host, command, cuts);
    }
    through_jobs(alloc, host, command, &[])
}

/// Rehearses a switch as `rehearsal_of` does, on a manager whose jobs end later: by a schedule of further draws.
pub fn rehearsal_of_jobs(
    alloc: Global,
    number: u64,
    units: u32,
    entries: u32,
    users: u32,
) -> Result<Text, AllocError>
    ensures { IfOk result (IsRehearsal number units entries users) }
{
    let made = generate_of(alloc, number, units, entries, users)?;
    let schedule = schedule_of(alloc, number, draws_of(units, entries, users))?;
    let (world, system, cuts) = made.into_parts();
    let mut host = JobHost::new(MemoryJobs::new(alloc, world, schedule));
    let command = Command::Switch(system);
    let summary = rehearse_jobs_on(alloc, &mut host, &command, cuts.as_slice())?;
    let mut text = made_text(alloc, units, entries, users)?;
    let left = left_text(alloc, &summary, host.device().raw())?;
    text.push_str(left.as_str())?;
    Ok(Text::from_string(text))
}

/// Rehearses a switch of the machine of a number with 2,000 units, 5,000 entries of `/etc` and 200 users, on a manager whose
/// jobs end later, and tells of it.
pub fn rehearsal_with_jobs(alloc: Global, number: u64) -> Result<Text, AllocError>
    ensures { IfOk result (IsRehearsal number 2000 5000 200) }
{
    rehearsal_of_jobs(alloc, number, 2000, 5000, 200)
}
