//! What counts as a change of a unit, and what is decided: NixOS manual, "Unit handling".
use crate::writing::show_value;
use std::alloc::Global;
use std::test::Fail;
use switch_names::{Bytes, UnitName};
use unit_compare::compare;
use unit_decide::decide;
use unit_text::{TextFault, UnitText, parse};
use world_text::{Lines, misread, text_of};

/// The text of a unit, where there is a file: `-` is none.
fn parsed(alloc: Global, file: &Bytes) -> Result<Option<UnitText>, TextFault> {
    match file.as_slice() {
        [b'-'] => Ok(None),
        bytes => Ok(Some(parse(alloc, bytes)?)),
    }
}

/// Shows the decision on an Active unit where it is told whether one of its sockets is live, and else
/// the comparison of its texts both ways.
fn show_change_of(
    lines: &mut Lines,
    unit: &UnitName,
    (old, new): (Option<&UnitText>, Option<&UnitText>),
    live: &[Bytes],
) -> Result<(), Fail> {
    match (old, new, live) {
        (_, _, [live]) => {
            let live = text_of(live)?.parse::<bool>()?;
            show_value(lines, &decide(old, new, unit, live));
            Ok(())
        }
        (Some(old), Some(new), []) => {
            lines.add_value(&compare(unit.kind(), old, new));
            show_value(lines, &compare(unit.kind(), new, old));
            Ok(())
        }
        _ => misread(),
    }
}

/// Shows the same of the unit that a field names and two define.
pub fn show_change(alloc: Global, lines: &mut Lines, given: &[Bytes]) -> Result<(), Fail> {
    let [unit, old, new, live @ ..] = given else {
        return misread();
    };
    let unit = UnitName::parse(alloc, text_of(unit)?)?;
    let old = parsed(alloc, old)?;
    let new = parsed(alloc, new)?;
    show_change_of(lines, &unit, (old.as_ref(), new.as_ref()), live)
}
