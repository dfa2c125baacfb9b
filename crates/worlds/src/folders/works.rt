//! What steps on a host leave in its folder.
use super::failing::{Failing, Host};
use super::files::show_manager;
use super::steps::{take, take_anew, worked};
use crate::writing::show_paths;
use host_folder::FolderHost;
use host_trait::Tree;
use std::alloc::Global;
use std::fs;
use std::test::Fail;
use switch_names::{Bytes, Path};
use world_text::{Lines, misread, show_file, text_of};

/// Shows the paths of the leaves below one.
fn show_listed(
    alloc: Global,
    lines: &mut Lines,
    host: &mut Host<'_>,
    under: &str,
) -> Result<(), Fail> {
    let under = Path::parse(alloc, under)?;
    show_paths(lines, host.list(alloc, &under)?.as_slice());
    Ok(())
}

/// Takes steps in a root, and shows the paths of the leaves then, and the manager's file.
pub fn show_work(
    rt: &Failing<'_>,
    lines: &mut Lines,
    root: &str,
    steps: &[Bytes],
) -> Result<(), Fail> {
    let mut host = worked(rt, root, steps)?;
    show_listed(rt.alloc(), lines, &mut host, "etc")?;
    show_listed(rt.alloc(), lines, &mut host, "nix")?;
    show_manager(rt, lines, root)
}

/// Takes a step in a root, and shows the manager's file then, below the step.
fn show_step(
    rt: &Failing<'_>,
    lines: &mut Lines,
    root: &str,
    host: &mut Host<'_>,
    step: &[Bytes],
) -> Result<(), Fail> {
    take(rt.alloc(), host, step)??;
    lines.add_word("after");
    for field in step {
        lines.add_word(text_of(field)?);
    }
    lines.end_line();
    show_manager(rt, lines, root)
}

/// Takes steps in a root, and shows the manager's file after each.
pub fn show_steps(
    rt: &Failing<'_>,
    lines: &mut Lines,
    root: &str,
    steps: &[Bytes],
) -> Result<(), Fail> {
    let mut host = FolderHost::open(rt, root)?;
    for step in steps.chunks(2) {
        show_step(rt, lines, root, &mut host, step)?;
    }
    Ok(())
}

/// Gives a file a second name, takes steps in a root, and shows what each name has then.
fn show_both_names(
    rt: &Failing<'_>,
    lines: &mut Lines,
    root: &str,
    (file, name): (&str, &str),
    steps: &[Bytes],
) -> Result<(), Fail> {
    fs::hard_link(rt.runtime(), file, name)?;
    take_anew(rt, root, steps)??;
    show_file(rt, lines, file)?;
    show_file(rt, lines, name)
}

/// Gives a file of the root a second name, takes steps, and shows what each name has then.
pub fn show_second_name(
    rt: &Failing<'_>,
    lines: &mut Lines,
    root: &str,
    fields: &[Bytes],
) -> Result<(), Fail> {
    let [file, name, steps @ ..] = fields else {
        return misread();
    };
    let file = format!(in rt.alloc(); "{root}/{}", text_of(file)?)?;
    show_both_names(rt, lines, root, (file.as_str(), text_of(name)?), steps)
}
