//! Puts the closing text of a command out.
ghost use Rattle.std.specs.Prelude.{◌≡◌, [], ◌∷◌, OnOk, codes, filter, map};
ghost use Rattle.std.specs.List.{flat_map};
ghost use Rattle.host_trait.specs.Sink.{HasSinkCause, IsPrefixOf, Puts};
ghost use Rattle.switch_engine.specs.Final.{is_failed_of};
ghost use Rattle.switch_engine.specs.Plan.{units_of};
ghost use Rattle.dry_report.specs.Close.{close_of, closing, failed_in};
ghost use Rattle.dry_report.specs.Report.{line};

use host_trait::{Sink, SinkFault, UnitState};
use switch_engine::{Outcome, Plan, is_failed_of};
use switch_names::UnitName;
use unit_defs::Defs;

/// The last line of a run that has come to its end.
const CLOSING: &str = "done\n";

/// Puts the line of a unit that has failed.
fn put_failed<S: Sink>(out: &mut S, unit: &UnitName) -> Result<(), SinkFault>
    ensures ok { OnOk result (Puts (S.sink out.old) (S.sink out.new) (λ more. more ≡ line (codes "failed") unit.now)) }
    ensures prefix { Puts (S.sink out.old) (S.sink out.new) (IsPrefixOf (line (codes "failed") unit.now)) }
    ensures cause { HasSinkCause (S.sink out.old) (S.sink out.new) result }
{
    out.put(b"failed ")?;
    out.put(unit.as_str().as_bytes())?;
    out.put(b"\n")
}

/// Puts the line of a unit, where that has failed and the system defines it.
fn put_one<S: Sink>(out: &mut S, defs: &Defs, one: &UnitState) -> Result<(), SinkFault>
    ensures ok { OnOk result (Puts (S.sink out.old) (S.sink out.new) (λ more. more ≡ flat_map (line (codes "failed")) (map (λ one. one.unit) (filter (is_failed_of defs.now) (one.now ∷ []))))) }
    ensures prefix { Puts (S.sink out.old) (S.sink out.new) (IsPrefixOf (flat_map (line (codes "failed")) (map (λ one. one.unit) (filter (is_failed_of defs.now) (one.now ∷ []))))) }
    ensures cause { HasSinkCause (S.sink out.old) (S.sink out.new) result }
{
    if is_failed_of(defs, one) {
        put_failed(out, &one.unit)?;
    }
    Ok(())
}

/// Puts the lines of the units that have failed and that the system defines.
fn put_all_failed<S: Sink>(out: &mut S, defs: &Defs, list: &[UnitState]) -> Result<(), SinkFault>
    ensures ok { OnOk result (Puts (S.sink out.old) (S.sink out.new) (λ more. more ≡ flat_map (line (codes "failed")) (map (λ one. one.unit) (filter (is_failed_of defs.now) list.now)))) }
    ensures prefix { Puts (S.sink out.old) (S.sink out.new) (IsPrefixOf (flat_map (line (codes "failed")) (map (λ one. one.unit) (filter (is_failed_of defs.now) list.now)))) }
    ensures cause { HasSinkCause (S.sink out.old) (S.sink out.new) result }
{
    for one in list {
        put_one(out, defs, one)?;
    }
    Ok(())
}

/// Puts the closing text of a command that was carried out: a line for each unit that has failed and
/// that the system defines, in byte order, and the last line. It takes no memory.
///
/// Source: the lines of switch-to-configuration, NixOS manual, "What happens during a system switch?".
pub fn close<S: Sink>(out: &mut S, plan: &Plan, outcome: &Outcome) -> Result<(), SinkFault>
    ensures ok { OnOk result (Puts (S.sink out.old) (S.sink out.new) (λ more. more ≡ close_of (failed_in (units_of plan.now).defs outcome.now.states))) }
    ensures prefix { Puts (S.sink out.old) (S.sink out.new) (IsPrefixOf (close_of (failed_in (units_of plan.now).defs outcome.now.states))) }
    ensures cause { HasSinkCause (S.sink out.old) (S.sink out.new) result }
{
    put_all_failed(out, plan.defs(), outcome.states.list().as_slice())?;
    out.put(CLOSING.as_bytes())?;
    Ok(())
}

/// Puts the last line alone: the closing text of a collection, which touches no unit. It takes no memory.
pub fn put_last_line<S: Sink>(out: &mut S) -> Result<(), SinkFault>
    ensures ok { OnOk result (Puts (S.sink out.old) (S.sink out.new) (λ more. more ≡ closing)) }
    ensures prefix { Puts (S.sink out.old) (S.sink out.new) (IsPrefixOf closing) }
    ensures cause { HasSinkCause (S.sink out.old) (S.sink out.new) result }
{
    out.put(CLOSING.as_bytes())
}
