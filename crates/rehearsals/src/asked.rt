//! Commands, troubles and made machines, as cases have them.
use host_trait::World;
use rehearse::{Cut, Trouble, generate_of};
use std::alloc::Global;
use std::test::Fail;
use switch_engine::Command;
use switch_names::{SystemName, Text};
use world_text::misread;

/// The command of these words.
pub fn command_of(alloc: Global, words: &str) -> Result<Command, Fail> {
    let Some((word, system)) = words.split_once(' ') else {
        return misread();
    };
    let system = SystemName::parse(alloc, system)?;
    match word {
        "switch" => Ok(Command::Switch(system)),
        "test" => Ok(Command::Test(system)),
        "boot" => Ok(Command::Boot(system)),
        _ => misread(),
    }
}

/// The numbers between the blanks of a text.
pub fn numbers_of(alloc: Global, text: &str) -> Result<Vec<u64>, Fail> {
    let mut numbers = Vec::new(alloc);
    for number in text.split(' ') {
        numbers.push(number.parse::<u64>()?)?;
    }
    Ok(numbers)
}

/// The trouble of a text: how many changing calls finish before a cut and its pick, or the number of the call that fails.
pub fn trouble_of(alloc: Global, text: &str) -> Result<Trouble, Fail> {
    let numbers = numbers_of(alloc, text)?;
    match numbers.as_slice() {
        [after, pick] => Ok(Trouble::Cut(Cut {
            after: *after,
            pick: *pick,
        })),
        [call] => Ok(Trouble::Fail(*call)),
        _ => misread(),
    }
}

/// The troubles of a text, with commas between; `-` is none.
pub fn troubles_of(alloc: Global, text: &str) -> Result<Vec<Trouble>, Fail> {
    let mut troubles = Vec::new(alloc);
    if text != "-" {
        for one in text.split(", ") {
            troubles.push(trouble_of(alloc, one)?)?;
        }
    }
    Ok(troubles)
}

/// A number, and how many units, entries and users its machine has.
fn sizes_of(alloc: Global, text: &str) -> Result<(u64, u32, u32, u32), Fail> {
    let numbers = numbers_of(alloc, text)?;
    match numbers.as_slice() {
        [number, units, entries, users] => Ok((
            *number,
            u32::try_from(*units)?,
            u32::try_from(*entries)?,
            u32::try_from(*users)?,
        )),
        _ => misread(),
    }
}

/// The world of a made machine, and the switch to its new system.
pub fn made_of(alloc: Global, text: &str) -> Result<(World, Command), Fail> {
    let (number, units, entries, users) = sizes_of(alloc, text)?;
    let made = generate_of(alloc, number, units, entries, users)?;
    let (world, system, _cuts) = made.into_parts();
    Ok((world, Command::Switch(system)))
}

/// What a rehearsal on a made machine tells whose jobs end later, where it tells the same again.
pub fn rehearsal_of_jobs(alloc: Global, text: &str) -> Result<Text, Fail> {
    let (number, units, entries, users) = sizes_of(alloc, text)?;
    let told = rehearse::rehearsal_of_jobs(alloc, number, units, entries, users)?;
    let again = rehearse::rehearsal_of_jobs(alloc, number, units, entries, users)?;
    if told != again {
        return misread();
    }
    Ok(told)
}

/// What a rehearsal on a made machine tells.
pub fn rehearsal_of(alloc: Global, text: &str) -> Result<Text, Fail> {
    let (number, units, entries, users) = sizes_of(alloc, text)?;
    Ok(rehearse::rehearsal_of(alloc, number, units, entries, users)?)
}
