//! Whole runs, and the reports of plans, as the cases on standard input try them: over worlds in memory and in
//! folders.
#![tactic(auto)]

mod changes;
mod ends;
mod fallen;
mod folders;
mod reboots;
mod reports;
mod statuses;
mod troubles;
mod writes;

use self::ends::{show_changing_run, show_run};
use self::fallen::show_fallen;
use self::folders::show_folder;
use self::reboots::{show_all_reboots, show_reboot};
use self::reports::show_switch;
use self::statuses::show_fault_statuses;
use self::troubles::{show_cut_and_then, show_troubles};
use self::writes::show_writes;
use std::io;
use std::test::Fail;
use switch_names::Bytes;
use world_text::{Commands, Lines, misread, try_cases};

/// What is tried, with the runtime.
struct Runs<'a> {
    rt: &'a HostRuntime,
}

impl Drop for Runs<'_> {
    fn drop(self) {
        let Runs { rt: _ } = self;
    }
}

impl Commands for Runs<'_> {
    fn show(&self, lines: &mut Lines, command: &str, fields: &[Bytes]) -> Result<(), Fail> {
        let alloc = self.rt.alloc();
        match (command, fields) {
            ("run", [put, words, places @ ..]) => show_run(alloc, lines, put, words, places),
            ("change", [put, words, places @ ..]) => {
                show_changing_run(alloc, lines, put, words, places)
            }
            ("fail" | "again" | "cut" | "twice", [words, places @ ..]) => {
                show_troubles(alloc, lines, command, words, places)
            }
            ("then", [number, words, then, places @ ..]) => {
                show_cut_and_then(alloc, lines, (number, words, then), places)
            }
            ("writes", [words, then, places @ ..]) => {
                show_writes(alloc, lines, (words, then), places)
            }
            ("reboot", [number, words, places @ ..]) => {
                show_reboot(alloc, lines, (number, words), places)
            }
            ("reboots", [words, system, places @ ..]) => {
                show_all_reboots(alloc, lines, (words, system), places)
            }
            ("folder", [root, words]) => show_folder(self.rt, lines, root, words),
            ("faults", _) => show_fault_statuses(alloc, lines),
            ("fallen", [system, places @ ..]) => show_fallen(alloc, lines, system, places),
            ("report", places) => show_switch(alloc, lines, places),
            _ => misread(),
        }
    }
}

fn main(rt: HostRuntime) -> Result<(), Fail> {
    let input = io::read_to_string(rt.alloc(), rt.reader())?;
    try_cases(&rt, &Runs { rt: &rt }, input.as_str())
}
