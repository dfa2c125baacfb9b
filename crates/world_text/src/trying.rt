//! Tries the cases of a text.
use crate::cases::{Case, cases_of};
use crate::fields::{misread, text_of};
use crate::lines::Lines;
use crate::tally::Tally;
use std::test::Fail;
use switch_names::Bytes;

/// The commands that a program tries.
pub trait Commands {
    /// Shows what a command gives with these fields.
    ///
    /// Fails where there is no such command.
    fn show(&self, lines: &mut Lines, command: &str, fields: &[Bytes]) -> Result<(), Fail>;
}

/// Shows what a case gives.
///
/// Fails where it has no command, or one that isn't there.
fn show_case<C: Commands>(commands: &C, lines: &mut Lines, case: &Case) -> Result<(), Fail> {
    let [command, _, fields @ ..] = case.fields.as_slice() else {
        return misread();
    };
    commands.show(lines, text_of(command)?, fields)
}

/// Tries a case, and counts it.
fn try_case<R: Print + AllocGlobal, C: Commands>(
    rt: &R,
    commands: &C,
    tally: &mut Tally,
    case: &Case,
) -> Result<(), Fail> {
    let mut lines = Lines::new(rt.alloc());
    show_case(commands, &mut lines, case)?;
    tally.count(rt, case, &mut lines)
}

/// Tries the cases of a text. Each that gives something else than it has to is put out by its name, with both,
/// and at the end how many cases there are.
///
/// Fails where the text can't be read as cases, where a case can't be tried, and where one differs.
pub fn try_cases<R: Print + AllocGlobal, C: Commands>(
    rt: &R,
    commands: &C,
    text: &str,
) -> Result<(), Fail> {
    let cases = cases_of(rt.alloc(), text)?;
    let mut tally = Tally::new();
    for case in cases.as_slice() {
        try_case(rt, commands, &mut tally, case)?;
    }
    tally.tell(rt)
}
