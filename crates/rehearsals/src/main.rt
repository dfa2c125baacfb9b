//! Commands that are run again under cuts and failing calls, as the cases on standard input try them: over worlds in memory
//! and over made machines.
#![tactic(auto)]

mod asked;
mod each;
mod ended;
mod jobs;

use self::asked::{command_of, made_of, rehearsal_of, rehearsal_of_jobs, trouble_of, troubles_of};
use self::each::{show_alike, show_each, show_entered};
use self::ended::show_ended;
use self::jobs::{show_jobs, show_orders};
use std::alloc::Global;
use std::io;
use std::test::Fail;
use switch_names::Bytes;
use world_text::{Commands, Lines, host_of, misread, text_of, try_cases};

/// What is tried, with the runtime.
struct Rehearsals<'a> {
    rt: &'a HostRuntime,
}

impl Drop for Rehearsals<'_> {
    fn drop(self) {
        let Rehearsals { rt: _ } = self;
    }
}

/// Shows how a command ends under these troubles, over the world of these places.
fn show_through(
    alloc: Global,
    lines: &mut Lines,
    words: &Bytes,
    troubles: &Bytes,
    places: &[Bytes],
) -> Result<(), Fail> {
    let command = command_of(alloc, text_of(words)?)?;
    let troubles = troubles_of(alloc, text_of(troubles)?)?;
    let mut host = host_of(alloc, places)?;
    show_ended(alloc, lines, &mut host, &command, troubles.as_slice())
}

impl Commands for Rehearsals<'_> {
    fn show(&self, lines: &mut Lines, command: &str, fields: &[Bytes]) -> Result<(), Fail> {
        let alloc = self.rt.alloc();
        match (command, fields) {
            ("through", [words, troubles, places @ ..]) => {
                show_through(alloc, lines, words, troubles, places)
            }
            ("each", [words, places @ ..]) => {
                let command = command_of(alloc, text_of(words)?)?;
                let host = host_of(alloc, places)?;
                show_each(alloc, lines, host.world(), &command)
            }
            ("made", [sizes]) => {
                let (world, command) = made_of(alloc, text_of(sizes)?)?;
                show_entered(alloc, lines, &world, &command)
            }
            ("alike", [sizes, trouble]) => {
                let (world, command) = made_of(alloc, text_of(sizes)?)?;
                let trouble = trouble_of(alloc, text_of(trouble)?)?;
                show_alike(alloc, lines, &world, &command, trouble)
            }
            ("rehearsal", [sizes]) => {
                let text = rehearsal_of(alloc, text_of(sizes)?)?;
                lines.add_text(text.as_str());
                Ok(())
            }
            ("rehearsal-jobs", [sizes]) => {
                let text = rehearsal_of_jobs(alloc, text_of(sizes)?)?;
                lines.add_text(text.as_str());
                Ok(())
            }
            ("jobs", [schedule, acts, places @ ..]) => {
                show_jobs(alloc, lines, schedule, acts, places)
            }
            ("orders", [acts, places @ ..]) => show_orders(alloc, lines, acts, places),
            _ => misread(),
        }
    }
}

fn main(rt: HostRuntime) -> Result<(), Fail> {
    let input = io::read_to_string(rt.alloc(), rt.reader())?;
    try_cases(&rt, &Rehearsals { rt: &rt }, input.as_str())
}
