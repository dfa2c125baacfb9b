//! Writes the list of the generations.
ghost use Rattle.std.specs.Prelude.{◌≡◌, ◌++◌, IfOk, OnOk};
ghost use Rattle.std.specs.List.{flat_map};
ghost use Rattle.std.specs.Option.{option_copied};
ghost use Rattle.dry_report.specs.GenerationList.{generation_lines, listed_line, mark, target_text};

use generations::{Gen, Gens};
use std::alloc::{AllocError, Global};
use switch_names::{Bytes, SystemName};

/// The system that a generation names in words, or that it names none.
fn target_text(target: Option<&SystemName>) -> &str
    ensures { result.now ≡ target_text (option_copied target.entry) }
{
    match target {
        Some(system) => system.as_str(),
        None => "-",
    }
}

/// What follows the target of a generation: the mark of the current one, and nothing else.
fn mark(current: Option<u32>, number: u32) -> &'static str
    ensures { result.now ≡ mark current number }
{
    if current == Some(number) {
        " current"
    } else {
        ""
    }
}

/// Writes the line of a generation.
fn write_listed(
    alloc: Global,
    out: &mut Vec<u8>,
    current: Option<u32>,
    generation: &Gen,
) -> Result<(), AllocError>
    ensures { OnOk result (out.new.items ≡ out.old.items ++ listed_line current generation.now) }
{
    let digits = format!(in alloc; "{}", generation.number)?;
    out.extend_from_slice(digits.as_bytes())?;
    out.push(b' ')?;
    out.extend_from_slice(target_text(generation.target.as_ref()).as_bytes())?;
    out.extend_from_slice(mark(current, generation.number).as_bytes())?;
    out.push(b'\n')?;
    Ok(())
}

/// The list of the generations: a line for each in ascending order, with its number and the system
/// that it names, and a mark on the current one.
///
/// Source: nix-env(1), "--list-generations", which tells the time of a generation where this tells
/// its system.
pub fn generation_list(alloc: Global, gens: &Gens) -> Result<Bytes, AllocError>
    ensures { IfOk result (λ text. text ≡ generation_lines gens.now) }
{
    let mut out = Vec::new(alloc);
    for generation in gens.list.as_slice() {
        write_listed(alloc, &mut out, gens.current, generation)?;
    }
    Ok(Bytes::from_vec(out))
}
