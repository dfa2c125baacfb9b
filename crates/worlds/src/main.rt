//! All crates below the runs from outside, as the cases on standard input try them: their parts, units, what is
//! read of texts and made of them, and hosts over folders.
#![tactic(auto)]

mod fields;
mod folders;
mod outcome;
mod parts;
mod texts;
mod units;
mod writing;

use crate::folders::show_folder_case;
use crate::parts::show_part_case;
use crate::texts::show_text_case;
use crate::units::show_unit_case;
use std::io;
use std::test::Fail;
use switch_names::Bytes;
use world_text::{Commands, Lines, try_cases};

/// What is tried, with the runtime.
struct Worlds<'a> {
    rt: &'a HostRuntime,
}

impl Drop for Worlds<'_> {
    fn drop(self) {
        let Worlds { rt: _ } = self;
    }
}

impl Commands for Worlds<'_> {
    fn show(&self, lines: &mut Lines, command: &str, fields: &[Bytes]) -> Result<(), Fail> {
        let alloc = self.rt.alloc();
        if let Some(shown) = show_part_case(alloc, lines, command, fields) {
            return shown;
        }
        if let Some(shown) = show_unit_case(alloc, lines, command, fields) {
            return shown;
        }
        if let Some(shown) = show_text_case(alloc, lines, command, fields) {
            return shown;
        }
        show_folder_case(self.rt, lines, command, fields)
    }
}

fn main(rt: HostRuntime) -> Result<(), Fail> {
    let input = io::read_to_string(rt.alloc(), rt.reader())?;
    try_cases(&rt, &Worlds { rt: &rt }, input.as_str())
}
