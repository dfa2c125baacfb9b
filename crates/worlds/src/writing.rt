//! Lines of names, values, texts and faults.
use std::fmt::Debug;
use std::test::Fail;
use switch_names::{Bytes, Path, Text, UnitName};
use world_text::{Lines, text_of};

/// Shows a value at the end of a line.
pub fn show_value<T: Debug>(lines: &mut Lines, value: &T) {
    lines.add_value(value);
    lines.end_line();
}

/// Shows a text as one value, at the end of a line.
pub fn show_bytes(lines: &mut Lines, text: &Bytes) -> Result<(), Fail> {
    show_value(lines, &text_of(text)?);
    Ok(())
}

/// Shows a text as it stands, below a word.
pub fn show_text(lines: &mut Lines, word: &str, text: &Bytes) -> Result<(), Fail> {
    lines.add_word(word);
    lines.end_line();
    lines.add_text(text_of(text)?);
    Ok(())
}

/// Shows texts as the words at the end of a line.
pub fn show_words(lines: &mut Lines, texts: &[Text]) {
    for text in texts {
        lines.add_word(text.as_str());
    }
    lines.end_line();
}

/// Shows paths, one a line.
pub fn show_paths(lines: &mut Lines, paths: &[Path]) {
    for path in paths {
        lines.add_word(path.as_str());
        lines.end_line();
    }
}

/// Shows names of units at the end of a line, after the word that says what they are.
pub fn show_names(lines: &mut Lines, word: &str, names: &[UnitName]) {
    lines.add_word(word);
    for name in names {
        lines.add_word(name.as_str());
    }
    lines.end_line();
}

/// Shows the values of a key on a line, a bar after each.
pub fn show_values(lines: &mut Lines, values: &[Text]) {
    for value in values {
        lines.add_text(value.as_str());
        lines.add_text("|");
    }
    lines.end_line();
}
