//! The names and texts of units.
ghost use Rattle.std.specs.Prelude.{◌≡◌, ◌%◌, IfOk, string_bytes};
ghost use Rattle.made_world.specs.UnitTexts.{flag_by, kind_by, lines_of, name_of, named_by, text_of};

use std::alloc::{AllocError, Global};
use switch_names::UnitKind;

/// The kind of the unit with this number.
pub(crate) fn kind_of(number: u64) -> UnitKind
    ensures { result ≡ kind_by (number % 10) }
{
    match number % 10 {
        5 => UnitKind::Socket,
        6 => UnitKind::Target,
        7 => UnitKind::Timer,
        8 => UnitKind::Path,
        9 => UnitKind::Mount,
        _ => UnitKind::Service,
    }
}

/// The number in the name of a unit.
fn named_by(kind: UnitKind, number: u64) -> u64
    ensures { result ≡ named_by kind number }
{
    match kind {
        UnitKind::Socket => number.saturating_sub(1),
        _ => number,
    }
}

/// The name of a unit.
pub(crate) fn name_of(alloc: Global, kind: UnitKind, number: u64) -> Result<String, AllocError>
    ensures { IfOk result (λ name. string_bytes name ≡ name_of kind number) }
{
    let named = named_by(kind, number);
    let ending = kind.ending();
    format!(in alloc; "u{named}{ending}")
}

/// A line that a service has by its draw.
fn flag_by(digit: u64) -> &'static str
    ensures { result.now ≡ flag_by digit }
{
    match digit {
        0 => "X-StopIfChanged=false\n",
        1 => "X-ReloadIfChanged=true\n",
        2 => "X-RestartIfChanged=false\n",
        _ => "",
    }
}

/// The lines of a unit that depend on its kind.
fn lines_of(alloc: Global, kind: UnitKind, number: u64, draw: u64) -> Result<String, AllocError>
    ensures { IfOk result (λ lines. string_bytes lines ≡ lines_of kind number draw) }
{
    match kind {
        UnitKind::Service => {
            let flag = flag_by(draw % 8);
            format!(in alloc; "[Service]\nExecStart=/bin/p{number}\n{flag}")
        }
        UnitKind::Socket => format!(in alloc; "[Socket]\nListenStream={number}\n"),
        UnitKind::Target => String::from_str(alloc, "Wants=u0.service\n"),
        UnitKind::Timer => String::from_str(alloc, "[Timer]\nOnCalendar=daily\n"),
        UnitKind::Path => format!(in alloc; "[Path]\nPathExists=/p{number}\n"),
        _ => format!(in alloc; "[Mount]\nWhat=/dev/d{number}\n"),
    }
}

/// The text of a unit, which a change of 1 gives another description, and one of 2 a line more.
pub(crate) fn text_of(
    alloc: Global,
    kind: UnitKind,
    number: u64,
    draw: u64,
    change: u64,
) -> Result<String, AllocError>
    ensures { IfOk result (λ text. string_bytes text ≡ text_of kind number draw change) }
{
    let mark = if change == 1 { " new\n" } else { "\n" };
    let lines = lines_of(alloc, kind, number, draw)?;
    let lines = lines.as_str();
    let more = if change == 2 { "Extra=1\n" } else { "" };
    format!(in alloc; "[Unit]\nDescription=unit {number}{mark}{lines}{more}")
}
