//! Writing the text of a manager's state.
ghost use Rattle.std.specs.Prelude.{◌≡◌, ◌++◌, ◌∷◌, [], map, IfOk, OnOk};
ghost use Rattle.std.specs.List.{AllByRecursion};
ghost use Rattle.std.specs.Str.{IsUtf8};
ghost use Rattle.switch_names.specs.UnitName.{IsUnitName};
ghost use Rattle.host_trait.specs.Manager.{HasPlainTexts, IsPlain};
ghost use Rattle.manager_core.specs.StateText.{IsLine, IsReadable, lines_text, state_text};
ghost use Rattle.manager_core.specs.declared.line.Line.TheVariants as line;

use host_trait::{Act, Bad, Entry, ManagerState, State, UnitState};
use std::alloc::{AllocError, Global};
use switch_names::{Bytes, Text, UnitName};

/// Writes a word, and behind a blank a unit.
fn write_unit(out: &mut Vec<u8>, word: &str, unit: &UnitName) -> Result<(), AllocError>
    ensures text { OnOk result (out.new.items ≡ out.old.items ++ word.now ++ 32 ∷ unit.now) }
    ensures name { OnOk result (IsUnitName unit.now) }
{
    out.extend_from_slice(word.as_bytes())?;
    out.push(b' ')?;
    out.extend_from_slice(unit.as_str().as_bytes())
}

/// Writes where definitions lie behind a blank, and ends the line.
fn write_text(out: &mut Vec<u8>, text: &Text) -> Result<(), AllocError>
    ensures text { OnOk result (out.new.items ≡ out.old.items ++ 32 ∷ text.now ++ 10 ∷ []) }
    ensures utf8 { OnOk result (IsUtf8 text.now) }
{
    out.push(b' ')?;
    out.extend_from_slice(text.as_str().as_bytes())?;
    out.push(b'\n')?;
    Ok(())
}

/// Writes what is loaded.
pub fn write_loaded(out: &mut Vec<u8>, text: &Text) -> Result<(), AllocError>
    requires { IsPlain text.now }
    ensures text { OnOk result (out.new.items ≡ out.old.items ++ lines_text (line.Loaded text.now ∷ [])) }
    ensures line { OnOk result (IsLine (line.Loaded text.now)) }
{
    out.extend_from_slice(b"loaded")?;
    write_text(out, text)
}

/// Writes a unit's state.
pub fn write_state_of(out: &mut Vec<u8>, unit: &UnitName, state: State) -> Result<(), AllocError>
    ensures text { OnOk result (out.new.items ≡ out.old.items ++ lines_text (line.State (record { unit = unit.now; state = state }) ∷ [])) }
    ensures name { OnOk result (IsUnitName unit.now) }
{
    write_unit(out, state.word(), unit)?;
    out.push(b'\n')?;
    Ok(())
}

/// Writes a unit that fails.
fn write_bad(out: &mut Vec<u8>, one: &Bad) -> Result<(), AllocError>
    requires { IsPlain one.now.loaded }
    ensures text { OnOk result (out.new.items ≡ out.old.items ++ lines_text (line.Bad one.now ∷ [])) }
    ensures line { OnOk result (IsLine (line.Bad one.now)) }
{
    write_unit(out, "bad", &one.unit)?;
    write_text(out, &one.loaded)
}

/// Writes an act on a unit under these definitions.
pub fn write_act(
    out: &mut Vec<u8>,
    act: Act,
    unit: &UnitName,
    loaded: &Text,
) -> Result<(), AllocError>
    requires { IsPlain loaded.now }
    ensures text { OnOk result (out.new.items ≡ out.old.items ++ lines_text (line.Entry (record { unit = unit.now; act = act; loaded = loaded.now }) ∷ [])) }
    ensures line { OnOk result (IsLine (line.Entry (record { unit = unit.now; act = act; loaded = loaded.now }))) }
{
    write_unit(out, act.word(), unit)?;
    write_text(out, loaded)
}

/// Writes the states of units.
fn write_states(out: &mut Vec<u8>, units: &[UnitState]) -> Result<(), AllocError>
    ensures { OnOk result (out.new.items ≡ out.old.items ++ lines_text (map line.State units.now)) }
{
    for one in units {
        write_state_of(out, &one.unit, one.state)?;
    }
    Ok(())
}

/// Writes the units that fail.
fn write_all_bad(out: &mut Vec<u8>, bad: &[Bad]) -> Result<(), AllocError>
    requires { AllByRecursion (λ one. IsPlain one.loaded) bad.now }
    ensures text { OnOk result (out.new.items ≡ out.old.items ++ lines_text (map line.Bad bad.now)) }
    ensures lines { OnOk result (AllByRecursion IsLine (map line.Bad bad.now)) }
{
    for one in bad {
        write_bad(out, one)?;
    }
    Ok(())
}

/// Writes the journal.
fn write_journal(out: &mut Vec<u8>, journal: &[Entry]) -> Result<(), AllocError>
    requires { AllByRecursion (λ one. IsPlain one.loaded) journal.now }
    ensures text { OnOk result (out.new.items ≡ out.old.items ++ lines_text (map line.Entry journal.now)) }
    ensures lines { OnOk result (AllByRecursion IsLine (map line.Entry journal.now)) }
{
    for one in journal {
        write_act(out, one.act, &one.unit, &one.loaded)?;
    }
    Ok(())
}

/// The text of a manager's state, which `read_state` reads again as that state.
pub fn write_state(alloc: Global, state: &ManagerState) -> Result<Bytes, AllocError>
    requires { HasPlainTexts state.now }
    ensures text { IfOk result (λ bytes. bytes ≡ state_text state.now) }
    ensures readable { OnOk result (IsReadable state.now) }
{
    let mut out = Vec::new(alloc);
    write_loaded(&mut out, &state.loaded)?;
    write_states(&mut out, state.states.list().as_slice())?;
    write_all_bad(&mut out, state.bad.as_slice())?;
    write_journal(&mut out, state.journal.as_slice())?;
    Ok(Bytes::from_vec(out))
}
