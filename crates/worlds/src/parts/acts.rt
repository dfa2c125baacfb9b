//! What each act of the manager leaves, whole and cut.
use crate::fields::number_of;
use crate::outcome::{show_told, word_of};
use host_memory::MemoryHost;
use host_trait::{HostFault, Manager, State};
use std::alloc::Global;
use std::test::Fail;
use switch_names::{Bytes, UnitName};
use world_text::{Lines, misread, show_journal, show_states, text_of};

/// Does the act of a word to a unit, which has to be active for a reload, or loads definitions.
fn act_on(
    alloc: Global,
    host: &mut MemoryHost,
    word: &str,
    unit: &UnitName,
) -> Result<Result<(), HostFault>, Fail> {
    match word {
        "stop" => Ok(host.stop(alloc, unit)),
        "reload" => match host.world().states().of(unit) {
            State::Active => Ok(host.reload(alloc, unit)),
            _ => misread(),
        },
        "restart" => Ok(host.restart(alloc, unit)),
        "start" => Ok(host.start(alloc, unit)),
        "load" => Ok(host.daemon_reload(alloc)),
        _ => misread(),
    }
}

/// Shows how an act ends, the units and their states, what is loaded, the journal, and what is told.
fn show_act_on(
    alloc: Global,
    lines: &mut Lines,
    host: &mut MemoryHost,
    word: &str,
    unit: &UnitName,
) -> Result<(), Fail> {
    let acted = act_on(alloc, host, word, unit)?;
    lines.add_word(word_of(&acted)?);
    lines.end_line();
    show_states(lines, host.world());
    show_journal(lines, host.world());
    show_told(lines, &host.units(alloc), unit)
}

/// Shows the same of a host that is cut after so many calls with a pick, or isn't cut.
pub fn show_act(
    alloc: Global,
    lines: &mut Lines,
    host: &mut MemoryHost,
    fields: &[Bytes],
) -> Result<(), Fail> {
    let [word, unit, after, pick] = fields else {
        return misread();
    };
    if after.as_slice() != b"-".as_slice() {
        host.arm(number_of(after)?, number_of(pick)?);
    }
    let unit = UnitName::parse(alloc, text_of(unit)?)?;
    show_act_on(alloc, lines, host, text_of(word)?, &unit)
}
