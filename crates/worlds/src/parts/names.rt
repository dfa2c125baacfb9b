//! What names are read, and what keeps others from it.
use crate::fields::no_memory;
use crate::writing::show_value;
use std::alloc::Global;
use std::test::Fail;
use switch_names::{Bytes, NameFault, Path, SystemName, UnitName};
use world_text::{Lines, misread, text_of};

/// Shows what a text is read as: the name of a unit stands with its kind and its stem.
fn show_read(alloc: Global, lines: &mut Lines, form: &str, text: &str) -> Result<(), NameFault> {
    match form {
        "path" => lines.add_word(Path::parse(alloc, text)?.as_str()),
        "system" => lines.add_word(SystemName::parse(alloc, text)?.path().as_str()),
        _ => {
            let unit = UnitName::parse(alloc, text)?;
            lines.add_word(unit.as_str());
            lines.add_value(&unit.kind());
            lines.add_word(unit.stem());
        }
    }
    Ok(())
}

/// Shows the name or the fault of a text.
pub fn show_name(
    alloc: Global,
    lines: &mut Lines,
    form: &str,
    fields: &[Bytes],
) -> Result<(), Fail> {
    let [text] = fields else {
        return misread();
    };
    match show_read(alloc, lines, form, text_of(text)?) {
        Ok(()) => Ok(()),
        Err(NameFault::Memory) => no_memory(),
        Err(fault) => {
            show_value(lines, &fault);
            Ok(())
        }
    }
}
