//! Lists of what was copied into `/etc`, by setup-etc.pl of nixpkgs.
use crate::writing::show_bytes;
use etc_clean::{read_clean, write_clean};
use std::alloc::Global;
use std::test::Fail;
use world_text::Lines;

/// Shows the names of a clean list, and what is written of them.
pub fn show_clean(alloc: Global, lines: &mut Lines, text: &[u8]) -> Result<(), Fail> {
    let names = read_clean(alloc, text)?;
    for name in names.as_slice() {
        lines.add_word(name.as_str());
    }
    lines.end_line();
    show_bytes(lines, &write_clean(alloc, &names)?)
}
