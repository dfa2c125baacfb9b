//! The manager's file of roots, as lines.
use super::failing::Failing;
use std::fs;
use std::test::Fail;
use world_text::Lines;

/// The text of the manager's state in a root.
pub fn manager_of(rt: &Failing<'_>, root: &str) -> Result<String, Fail> {
    let file = format!(in rt.alloc(); "{root}/manager")?;
    Ok(fs::read_to_string(rt, file)?)
}

/// Shows the text of the manager's state in a root.
pub fn show_manager(rt: &Failing<'_>, lines: &mut Lines, root: &str) -> Result<(), Fail> {
    let text = manager_of(rt, root)?;
    lines.add_text(text.as_str());
    Ok(())
}
