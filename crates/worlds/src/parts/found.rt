//! Which generations are found in the profiles' folder, and the numbers that they give.
use crate::writing::show_value;
use generations::{Gen, all, number_for, number_of_name, number_of_path, previous};
use host_memory::MemoryHost;
use std::alloc::Global;
use std::test::Fail;
use switch_names::{Bytes, SystemName};
use world_text::{Lines, misread, text_of};

/// Shows a generation with its system.
fn show_generation(lines: &mut Lines, generation: &Gen) {
    lines.add_value(&generation.number);
    match &generation.target {
        Some(target) => lines.add_word(target.as_str()),
        None => lines.add_word("nothing"),
    }
    lines.end_line();
}

/// Shows the current generation, the previous one, the number for a system, and the generations.
pub fn show_generations(
    alloc: Global,
    lines: &mut Lines,
    host: &mut MemoryHost,
    fields: &[Bytes],
) -> Result<(), Fail> {
    let [system] = fields else {
        return misread();
    };
    let system = SystemName::parse(alloc, text_of(system)?)?;
    let gens = all(alloc, host)?;
    lines.add_word("current");
    lines.add_value(&gens.current);
    lines.add_word("previous");
    lines.add_value(&previous(&gens));
    lines.add_word("next");
    show_value(lines, &number_for(&gens, &system));
    for generation in gens.list.as_slice() {
        show_generation(lines, generation);
    }
    Ok(())
}

/// Shows the number of a name, of its path, and of the name as a path.
pub fn show_number(alloc: Global, lines: &mut Lines, fields: &[Bytes]) -> Result<(), Fail> {
    let [name, path] = fields else {
        return misread();
    };
    let (name, path) = (text_of(name)?, text_of(path)?);
    lines.add_value(&number_of_name(alloc, name)?);
    lines.add_value(&number_of_path(alloc, path)?);
    show_value(lines, &number_of_path(alloc, name)?);
    Ok(())
}
