//! Steps of which each call on files fails in turn.
use super::failing::{Failing, Host};
use super::files::manager_of;
use super::steps::{take, take_all, take_anew};
use host_folder::FolderHost;
use host_trait::{HostFault, Manager};
use std::alloc::Global;
use std::fs;
use std::test::Fail;
use switch_names::Bytes;
use world_text::{Lines, misread};

/// More calls than the steps of a case make.
const CALLS_MAX: u64 = 10_000;

/// Whether two hosts tell the same of all units.
fn tell_the_same(alloc: Global, one: &mut Host<'_>, other: &mut Host<'_>) -> Result<bool, Fail> {
    let told = one.units(alloc)?;
    Ok(told.same(&other.units(alloc)?))
}

/// Whether a host tells the same of all units as a new one over its root.
fn tells_what_is_left(rt: &Failing<'_>, root: &str, host: &mut Host<'_>) -> Result<bool, Fail> {
    let mut reader = FolderHost::open(rt, root)?;
    tell_the_same(rt.alloc(), host, &mut reader)
}

/// Makes a root with the manager's file of another one, where there is one.
fn make_twin(rt: &Failing<'_>, root: &str, twin: &str) -> Result<(), Fail> {
    fs::create_dir(rt, twin)?;
    let place = format!(in rt.alloc(); "{root}/manager")?;
    if fs::exists(rt, place.as_str())? {
        fs::copy(rt, place, format!(in rt.alloc(); "{twin}/manager")?)?;
    }
    Ok(())
}

/// Whether the manager's files of two roots have the same text.
fn has_the_same(rt: &Failing<'_>, one: &str, other: &str) -> Result<bool, Fail> {
    Ok(manager_of(rt, one)?.as_str() == manager_of(rt, other)?.as_str())
}

/// Whether a host goes on from what stands in its root: one more step leaves the manager's file that a new host
/// leaves where it begins with the same one.
fn goes_on(
    rt: &Failing<'_>,
    root: &str,
    host: &mut Host<'_>,
    next: &[Bytes],
) -> Result<bool, Fail> {
    let twin = format!(in rt.alloc(); "{root}-twin")?;
    make_twin(rt, root, twin.as_str())?;
    take(rt.alloc(), host, next)??;
    take_anew(rt, twin.as_str(), next)??;
    has_the_same(rt, root, twin.as_str())
}

/// Shows what is wrong where this call has failed.
fn show_wrong(lines: &mut Lines, call: u64, what: &str) {
    lines.add_word("call");
    lines.add_value(&call);
    lines.add_word(what);
    lines.end_line();
}

/// Shows what is wrong in a root where this call has failed: states of units that are others than those in the
/// file, a next step that doesn't go on from the file, steps that can't be taken again.
fn show_left(
    rt: &Failing<'_>,
    lines: &mut Lines,
    (root, call): (&str, u64),
    host: &mut Host<'_>,
    (next, steps): (&[Bytes], &[Bytes]),
) -> Result<(), Fail> {
    if !tells_what_is_left(rt, root, host)? {
        show_wrong(lines, call, "leaves wrong states");
    }
    if !goes_on(rt, root, host, next)? {
        show_wrong(lines, call, "leaves no state to go on from");
    }
    if take_anew(rt, root, steps)?.is_err() {
        show_wrong(lines, call, "leaves steps that can't be taken again");
    }
    Ok(())
}

/// Takes steps in a new root with a call that fails, and shows what is wrong then: a fault that isn't given or
/// counted, or what is left. It answers whether a call has failed.
fn show_trouble(
    rt: &Failing<'_>,
    lines: &mut Lines,
    call: u64,
    (next, steps): (&[Bytes], &[Bytes]),
) -> Result<bool, Fail> {
    let root = format!(in rt.alloc(); "root-{call}")?;
    let mut host = FolderHost::open(rt, root.as_str())?;
    rt.fail_after(call);
    let answer = take_all(rt.alloc(), &mut host, steps)?;
    if rt.is_to_fail() {
        return Ok(false);
    }
    if answer != Err(HostFault::Device) || host.faults() != 1 {
        show_wrong(lines, call, "is no fault");
    }
    show_left(rt, lines, (root.as_str(), call), &mut host, (next, steps))?;
    Ok(true)
}

/// Shows the same of each call of the steps after the first one, which is the next step then.
pub fn show_troubles(rt: &Failing<'_>, lines: &mut Lines, fields: &[Bytes]) -> Result<(), Fail> {
    let Some((next, steps)) = fields.split_at_checked(2) else {
        return misread();
    };
    for call in 0..CALLS_MAX {
        if !show_trouble(rt, lines, call, (next, steps))? {
            lines.add_word("each call has failed, and there are more than fifty:");
            lines.add_value(&(call > 50));
            return Ok(());
        }
    }
    lines.add_word("there is no end of calls");
    Ok(())
}
