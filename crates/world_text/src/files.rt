//! Files of roots, as lines.
use crate::lines::Lines;
use std::fs;
use std::rt::Files;
use std::test::Fail;

/// Shows a file, with its place on a line before its text.
pub fn show_file<R: Files + AllocGlobal>(
    rt: &R,
    lines: &mut Lines,
    place: &str,
) -> Result<(), Fail> {
    let text = fs::read_to_string(rt, place)?;
    lines.add_text(place);
    lines.end_line();
    lines.add_text(text.as_str());
    lines.end_last_line();
    Ok(())
}
