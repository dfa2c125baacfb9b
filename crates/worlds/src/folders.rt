//! The cases of hosts over folders, and of standard output.
mod failing;
mod files;
mod open_file;
mod outputs;
mod readings;
mod starts;
mod steps;
mod troubles;
mod works;

use self::failing::Failing;
use self::outputs::{show_interrupted, show_output};
use self::readings::{show_fault, show_readings};
use self::starts::show_opened;
use self::troubles::show_troubles;
use self::works::{show_second_name, show_steps, show_work};
use std::cell::Cell;
use std::test::Fail;
use switch_names::Bytes;
use world_text::{Lines, misread, text_of};

/// Shows what a command over a root gives.
fn show_root(
    rt: &Failing<'_>,
    lines: &mut Lines,
    command: &str,
    root: &str,
    fields: &[Bytes],
) -> Result<(), Fail> {
    match (command, fields) {
        ("open", [unit]) => show_opened(rt, lines, root, unit),
        ("work", _) => show_work(rt, lines, root, fields),
        ("steps", _) => show_steps(rt, lines, root, fields),
        ("readings", _) => show_readings(rt, lines, root, fields),
        ("fault", _) => show_fault(rt, lines, root, fields),
        ("second name", _) => show_second_name(rt, lines, root, fields),
        _ => misread(),
    }
}

/// Shows what a command over folders gives.
fn show_in_folders(
    rt: &Failing<'_>,
    lines: &mut Lines,
    command: &str,
    fields: &[Bytes],
) -> Result<(), Fail> {
    match (command, fields) {
        ("failing calls", _) => show_troubles(rt, lines, fields),
        (_, [root, fields @ ..]) => show_root(rt, lines, command, text_of(root)?, fields),
        _ => misread(),
    }
}

/// Shows what a command of folders and outputs gives.
pub fn show_folder_case(
    rt: &HostRuntime,
    lines: &mut Lines,
    command: &str,
    fields: &[Bytes],
) -> Result<(), Fail> {
    match (command, fields) {
        ("output", [bytes]) => show_output(rt, lines, bytes.as_slice()),
        ("interrupted output", [bytes]) => show_interrupted(lines, false, bytes.as_slice()),
        ("full output", [bytes]) => show_interrupted(lines, true, bytes.as_slice()),
        _ => {
            let left = Cell::new(None);
            show_in_folders(&Failing::new(rt, &left), lines, command, fields)
        }
    }
}
