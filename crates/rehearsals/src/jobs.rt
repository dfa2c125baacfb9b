//! Acts on a manager in memory whose jobs end later, by a schedule.
use super::asked::numbers_of;
use host_memory::MemoryHost;
use host_trait::{Act, HostFault, Manager, Tree, World};
use job_host::{JobHost, MemoryJobs};
use std::alloc::{AllocError, Global};
use std::test::Fail;
use switch_names::{Bytes, Listed, Path, UnitName};
use world_text::{Lines, host_of, misread, show_journal, show_states, text_of};

/// An act on a unit.
struct AskedAct {
    act: Act,
    unit: UnitName,
}

impl Drop for AskedAct {
    fn drop(self) {
        let AskedAct { act: _, unit: _ } = self;
    }
}

/// The act of a text: a word and a unit.
fn act_of(alloc: Global, text: &str) -> Result<AskedAct, Fail> {
    let Some((word, unit)) = text.split_once(' ') else {
        return misread();
    };
    let act = match word {
        "start" => Act::Start,
        "stop" => Act::Stop,
        "restart" => Act::Restart,
        _ => return misread(),
    };
    let unit = UnitName::parse(alloc, unit)?;
    Ok(AskedAct { act, unit })
}

/// The acts of a text, with commas between.
fn acts_of(alloc: Global, text: &str) -> Result<Vec<AskedAct>, Fail> {
    let mut acts = Vec::new(alloc);
    for one in text.split(", ") {
        acts.push(act_of(alloc, one)?)?;
    }
    Ok(acts)
}

/// Does an act.
fn perform<H: Manager>(alloc: Global, host: &mut H, one: &AskedAct) -> Result<(), HostFault> {
    match one.act {
        Act::Start => host.start(alloc, &one.unit),
        Act::Stop => host.stop(alloc, &one.unit),
        Act::Restart => host.restart(alloc, &one.unit),
        // no act of a text is a reload, which only an active unit may be asked for
        Act::Reload => Ok(()),
    }
}

/// Does acts one after the other, up to the first that fails.
fn perform_all<H: Manager>(
    alloc: Global,
    host: &mut H,
    acts: &[AskedAct],
) -> Result<(), HostFault> {
    for one in acts {
        perform(alloc, host, one)?;
    }
    Ok(())
}

/// Shows the units of which a job has ended, in the order of the ends.
fn show_ended(lines: &mut Lines, host: &JobHost<MemoryJobs>) {
    lines.add_word("ended");
    for unit in host.device().ended() {
        lines.add_word(unit.as_str());
    }
    lines.end_line();
}

/// Shows what acts leave whose jobs end by a schedule: the order of the ends, the states and the journal.
pub fn show_jobs(
    alloc: Global,
    lines: &mut Lines,
    schedule: &Bytes,
    acts: &Bytes,
    places: &[Bytes],
) -> Result<(), Fail> {
    let schedule = Listed::from_vec(numbers_of(alloc, text_of(schedule)?)?);
    let acts = acts_of(alloc, text_of(acts)?)?;
    let world = host_of(alloc, places)?.into_world();
    let mut host = JobHost::new(MemoryJobs::new(alloc, world, schedule));
    perform_all(alloc, &mut host, acts.as_slice())?;
    host.finish(alloc)?;
    show_ended(lines, &host);
    show_states(lines, host.device().raw());
    show_journal(lines, host.device().raw());
    Ok(())
}

/// How many orders so many jobs have.
fn orders_of(count: u64) -> u64 {
    match count {
        0 | 1 => 1,
        2 => 2,
        3 => 6,
        _ => 24,
    }
}

/// The schedule under which so many jobs end in the order with this number: none ends while they are queued, and then
/// one at each look at the tree.
fn schedule_of(alloc: Global, count: u64, order: u64) -> Result<Listed<u64>, AllocError> {
    let mut numbers = Listed::new(alloc);
    for _call in 0..count.saturating_add(1) {
        numbers.push(0)?;
    }
    let mut rest = order;
    for taken in 0..count {
        let left = (count - taken).max(1);
        numbers.push((rest % left).saturating_add(1))?;
        rest /= left;
    }
    Ok(numbers)
}

/// What is tried: a world, acts on it, and the world that they leave.
struct Tried<'a> {
    world: &'a World,
    acts: &'a [AskedAct],
    left: &'a World,
}

impl Drop for Tried<'_> {
    fn drop(self) {
        let Tried {
            world: _,
            acts: _,
            left: _,
        } = self;
    }
}

/// A host on which acts are done whose jobs end in the order with this number.
fn host_in_order(
    alloc: Global,
    tried: &Tried,
    order: u64,
) -> Result<JobHost<MemoryJobs>, AllocError> {
    let schedule = schedule_of(alloc, tried.acts.len() as u64, order)?;
    let world = tried.world.copy(alloc)?;
    Ok(JobHost::new(MemoryJobs::new(alloc, world, schedule)))
}

/// Looks at the tree so often, and waits then for the end of each job.
fn wait(alloc: Global, host: &mut JobHost<MemoryJobs>, looks: usize) -> Result<(), Fail> {
    let at = Path::parse(alloc, "etc/static")?;
    for _look in 0..looks {
        let _leaf = host.read(alloc, &at)?;
    }
    host.finish(alloc)?;
    Ok(())
}

/// Shows that a host has another world than the acts leave, where it has.
fn show_other(lines: &mut Lines, host: &JobHost<MemoryJobs>, tried: &Tried) {
    if !host.device().raw().same_seen(tried.left) {
        lines.add_word("differs");
        show_ended(lines, host);
    }
}

/// Does the acts under a cut, and all of them again, and shows where they leave another world. Answers whether one was cut.
fn show_cut(
    alloc: Global,
    lines: &mut Lines,
    tried: &Tried,
    order: u64,
    (after, pick): (u64, u64),
) -> Result<bool, Fail> {
    let mut host = host_in_order(alloc, tried, order)?;
    host.arm(after, pick);
    let was_cut = perform_all(alloc, &mut host, tried.acts).is_err();
    host.revive();
    perform_all(alloc, &mut host, tried.acts)?;
    wait(alloc, &mut host, tried.acts.len())?;
    show_other(lines, &host, tried);
    Ok(was_cut)
}

/// Does the acts with the jobs in one order, without a cut and under each, and shows the order. Answers how many were cut.
fn show_order(alloc: Global, lines: &mut Lines, tried: &Tried, order: u64) -> Result<u64, Fail> {
    let mut host = host_in_order(alloc, tried, order)?;
    perform_all(alloc, &mut host, tried.acts)?;
    wait(alloc, &mut host, tried.acts.len())?;
    show_ended(lines, &host);
    show_other(lines, &host, tried);
    let mut cuts: u64 = 0;
    for after in 0..tried.acts.len() as u64 {
        for pick in 0..2 {
            if show_cut(alloc, lines, tried, order, (after, pick))? {
                cuts = cuts.saturating_add(1);
            }
        }
    }
    Ok(cuts)
}

/// Shows each order in which the jobs of acts on distinct units end, how often they were cut, and where they leave another
/// world than the acts do one after the other.
pub fn show_orders(
    alloc: Global,
    lines: &mut Lines,
    acts: &Bytes,
    places: &[Bytes],
) -> Result<(), Fail> {
    let acts = acts_of(alloc, text_of(acts)?)?;
    let mut whole: MemoryHost = host_of(alloc, places)?;
    let world = whole.world().copy(alloc)?;
    perform_all(alloc, &mut whole, acts.as_slice())?;
    let tried = Tried {
        world: &world,
        acts: acts.as_slice(),
        left: whole.world(),
    };
    let mut cuts: u64 = 0;
    for order in 0..orders_of(acts.len() as u64) {
        cuts = cuts.saturating_add(show_order(alloc, lines, &tried, order)?);
    }
    lines.add_value(&cuts);
    lines.add_word("were cut");
    lines.end_line();
    Ok(())
}
