//! What a folder's host reads, and what another one's acts have left.
use super::failing::{Failing, Host};
use super::files::show_manager;
use crate::outcome::{show_faults, show_told, word_of};
use host_folder::FolderHost;
use host_trait::{HostFault, Manager};
use std::alloc::Global;
use std::test::Fail;
use switch_names::{Bytes, UnitName};
use world_text::{Lines, text_of};

/// Loads definitions, and starts a unit.
fn load_and_start(alloc: Global, host: &mut Host<'_>, unit: &UnitName) -> Result<(), HostFault> {
    host.daemon_reload(alloc)?;
    host.start(alloc, unit)
}

/// Shows what a new host tells of a unit, how it then starts it, and its faults before and after each.
fn show_start(
    alloc: Global,
    lines: &mut Lines,
    host: &mut Host<'_>,
    unit: &UnitName,
) -> Result<(), Fail> {
    show_faults(lines, host.faults());
    show_told(lines, &host.units(alloc), unit)?;
    show_faults(lines, host.faults());
    lines.add_word("start");
    lines.add_word(word_of(&load_and_start(alloc, host, unit))?);
    show_faults(lines, host.faults());
    Ok(())
}

/// Shows the start of a unit over a root, and the text of the manager's state that is left there.
pub fn show_opened(
    rt: &Failing<'_>,
    lines: &mut Lines,
    root: &str,
    unit: &Bytes,
) -> Result<(), Fail> {
    let unit = UnitName::parse(rt.alloc(), text_of(unit)?)?;
    let mut host = FolderHost::open(rt, root)?;
    show_start(rt.alloc(), lines, &mut host, &unit)?;
    show_manager(rt, lines, root)
}
