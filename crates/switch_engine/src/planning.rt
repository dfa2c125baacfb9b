//! Plans what a command does, before anything is put or changed.
ghost use Rattle.std.specs.Prelude.{◌≡◌, ◌↔◌, false, true, None, Option, Some, is_none, IfOk, IfSome, IsErrOf, IsTrue, OnOk, option_map};
ghost use Rattle.std.specs.Option.{option_copied};
ghost use Rattle.boot_entries.specs.BootDefault.{IsDefaultFor};
ghost use Rattle.boot_entries.specs.declared.boot_default.BootDefaultPlan.{BootDefaultPlan};
ghost use Rattle.boot_entries.specs.Entries.{version_path};
ghost use Rattle.generations.specs.Gens.{IsGensOf};
ghost use Rattle.host_trait.specs.declared.tree.HostFault.TheVariants.{Device};
ghost use Rattle.host_trait.specs.Host.{Told};
ghost use Rattle.host_trait.specs.Reading.{IsReading, IsReadingOf};
ghost use Rattle.host_trait.specs.World.{Leaves, WorldState, content_of};
ghost use Rattle.leaf_limits.specs.declared.too_long.TooLong.{TooLong};
ghost use Rattle.leaf_limits.specs.Limits.{is_long};
ghost use Rattle.owed_log.specs.Lengths.{AreOwedShort};
ghost use Rattle.owed_log.specs.Writing.{IsFilled};
ghost use Rattle.switch_engine.specs.declared.row.Row.{Row};
ghost use Rattle.switch_engine.specs.Commands.{switched_by};
ghost use Rattle.switch_engine.specs.Lengths.{too_long_by};
ghost use Rattle.switch_engine.specs.Owing.{IsLongBy, IsSteadyFor, IsSteadyTo, Refuses, RefusesBy};
ghost use Rattle.switch_engine.specs.Plan.{AreGensBy, ArePlanned, IsDefaultPlanned, IsPlanOf, IsSound, IsSwitchPlanned, units_in, units_of};
ghost use Rattle.switch_engine.specs.Resolved.{IsGoalPast};
ghost use Rattle.switch_engine.specs.Rows.{default_if, gens_to, goal_by, part_if, parts_in, refusal_before_length, refusal_by, switch_in, too_many_by, too_much_by, version_refusal};
ghost use Rattle.switch_parts.specs.declared.plan_fault.PlanFault.TheVariants.{Host, Refused};
ghost use Rattle.switch_parts.specs.declared.refusal.Refusal.{Refusal};
ghost use Rattle.switch_parts.specs.declared.refusal.Refusal.TheVariants.{InTheWay};
ghost use Rattle.tree_put.specs.First.{first_in_the_way};
ghost use Rattle.tree_put.specs.Found.{AreFound};
ghost use Rattle.unit_stage.specs.Plan.{no_units};

use crate::command::Command;
use crate::places::{check_way, places_of};
use crate::plan::{Plan, SwitchPlan};
use crate::row::{Resolved, Row, resolve};
use crate::sources::{is_owed_short, too_long};
use crate::system::version_length;
use accounts_stage::too_many_rows;
use activation_stage::plan_activation;
use boot_entries::{BootDefaultPlan, plan_boot_default};
use etc_farm::too_many_entries;
use generations::{Gens, Move, all};
use host_trait::{HostFault, Manager, Tree};
use leaf_limits::{LEAF_MAX, TooLong, first_long};
use std::alloc::{AllocError, Global};
use std::collections::BTreeMap;
use switch_names::Path;
use switch_parts::{PlanFault, Refusal, What, long_refusal, refuse, too_many as too_many_of};
use tree_put::{Found, nothing_found};
use unit_stage::{plan_units, too_many_units};

/// The generations that stand, where a row moves the profile: those that are known, else they are read.
fn gens_for<T: Tree>(
    alloc: Global,
    host: &mut T,
    row: &Row,
    known: Option<Gens>,
) -> Result<Option<Gens>, HostFault>
    requires { Told (T.host host.old) (λ w. IfSome known (IsGensOf w.leaves)) }
    ensures gens { IfOk result (λ gens. Told (T.host host.old) (λ w. AreGensBy row.now.moves w.leaves gens)) }
    ensures reads { IsReading (T.host host.old) (T.host host.new) result }
{
    let Some(_to) = row.moves else {
        return Ok(None);
    };
    match known {
        Some(gens) => Ok(Some(gens)),
        None => {
            let gens = all(alloc, host)?;
            Ok(Some(gens))
        }
    }
}

/// Refuses where something is in the way of a place that a row writes, and notes what is found at those whose content is read.
fn check_places<T: Tree>(
    alloc: Global,
    host: &mut T,
    findings: &mut BTreeMap<Path, Found>,
    row: &Row,
    gens: Option<&Gens>,
) -> Result<(), PlanFault>
    requires gens { Told (T.host host.old) (λ w. AreGensBy row.now.moves w.leaves (option_copied gens)) }
    requires found { Told (T.host host.old) (λ w. AreFound w.leaves findings.old) }
    ensures free { OnOk result (Told (T.host host.old) (λ w. first_in_the_way ((parts_in row.now.start_up row.now.switches row.now.moves row.now.system w.leaves).places w.leaves) w.leaves ≡ None)) }
    ensures refused { (why : Refusal) → IsErrOf result (Refused why)
        → Told (T.host host.old) (λ w. option_map InTheWay (first_in_the_way ((parts_in row.now.start_up row.now.switches row.now.moves row.now.system w.leaves).places w.leaves) w.leaves) ≡ Some why) }
    ensures others { OnOk result (Told (T.host host.old) (λ w. AreFound w.leaves findings.new)) }
    ensures reads { IsReadingOf (T.host host.old) (T.host host.new) (IsErrOf result (Host Device)) }
{
    let places = places_of(alloc, row, gens)?;
    check_way(alloc, host, findings, places.as_slice())?;
    Ok(())
}

/// Plans a switch of the units, with the accounts and `/etc`, or nothing where a command doesn't switch them.
fn plan_switch<H: Manager>(
    alloc: Global,
    host: &mut H,
    findings: &mut BTreeMap<Path, Found>,
    row: &Row,
) -> Result<Option<SwitchPlan>, PlanFault>
    requires found { Told (H.host host.old) (λ w. AreFound w.leaves findings.old) }
    ensures plan { IfOk result (λ plan. Told (H.host host.old) (λ w. IsSwitchPlanned row.now.start_up row.now.switches row.now.system w plan)) }
    ensures filled { IfOk result (λ plan. IsFilled (units_in plan no_units).write) }
    ensures steady { IfOk result (λ plan. Told (H.host host.old) (λ w. IsTrue (units_in plan no_units).steady ↔ IsSteadyTo row.now.start_up (switched_by row.now) w)) }
    ensures not_refused { OnOk result (Told (H.host host.old) (λ w. (part_if row.now.switches (switch_in row.now.start_up row.now.system w.leaves)).refusal w.leaves ≡ None)) }
    ensures refused { (why : Refusal) → IsErrOf result (Refused why)
        → Told (H.host host.old) (λ w. (part_if row.now.switches (switch_in row.now.start_up row.now.system w.leaves)).refusal w.leaves ≡ Some why) }
    ensures reads { IsReadingOf (H.host host.old) (H.host host.new) (IsErrOf result (Host Device)) }
{
    if !row.switches {
        return Ok(None);
    }
    let units = plan_units(alloc, host, findings, &row.system, row.start_up)?;
    let activation = plan_activation(alloc, host, findings, &row.system)?;
    Ok(Some(SwitchPlan { units, activation }))
}

/// Why the goal that is recorded refuses a move of the profile: where that goes back, and the goal is longer than may be read.
fn goal_refusal(to: Move, past: Option<u64>) -> Option<Refusal>
    ensures { (leaves : Leaves) → IsGoalPast (Some to) leaves past → result ≡ (goal_by to).refusal leaves }
{
    match to {
        Move::Point(_number) => too_many_of(What::LeafBytes, past),
        Move::Set => None,
    }
}

/// Plans to make the system of a command the boot default, or nothing where the profile isn't moved.
fn plan_default<T: Tree>(
    alloc: Global,
    host: &mut T,
    row: &Row,
    gens: Option<Gens>,
    past: Option<u64>,
) -> Result<Option<BootDefaultPlan>, PlanFault>
    requires gens { Told (T.host host.old) (λ w. AreGensBy row.now.moves w.leaves gens) }
    requires past { Told (T.host host.old) (λ w. IsGoalPast row.now.moves w.leaves past) }
    ensures plan { IfOk result (λ plan. Told (T.host host.old) (λ w. IsDefaultPlanned row.now.moves row.now.system w plan)) }
    ensures sound { IfOk result (λ plan. (profile : BootDefaultPlan) → plan ≡ Some profile → IsDefaultFor row.now.system profile) }
    ensures not_refused { OnOk result (Told (T.host host.old) (λ w. (default_if row.now.moves row.now.system (gens_to row.now.moves row.now.system w.leaves)).refusal w.leaves ≡ None)) }
    ensures refused { (why : Refusal) → IsErrOf result (Refused why)
        → Told (T.host host.old) (λ w. (default_if row.now.moves row.now.system (gens_to row.now.moves row.now.system w.leaves)).refusal w.leaves ≡ Some why) }
    ensures reads { IsReadingOf (T.host host.old) (T.host host.new) (IsErrOf result (Host Device)) }
{
    let Some(to) = row.moves else {
        return Ok(None);
    };
    let Some(gens) = gens else {
        return Ok(None);
    };
    let plan = plan_boot_default(alloc, host, &row.system, to, gens)?;
    refuse(goal_refusal(to, past))?;
    Ok(Some(plan))
}

/// Plans the parts of a row, however much there is of anything, and however long what they put is, and tells whether it is found
/// that neither the log of what is owed nor a list of an older program is longer than may be read.
fn plan_parts<H: Manager>(
    alloc: Global,
    host: &mut H,
    command: &Command,
    row: &Row,
    known: Option<Gens>,
    past: Option<u64>,
) -> Result<(Plan, bool), PlanFault>
    requires known { Told (H.host host.old) (λ w. IfSome known (IsGensOf w.leaves)) }
    requires past { Told (H.host host.old) (λ w. IsGoalPast row.now.moves w.leaves past) }
    ensures command { IfOk result (λ its. its.0.command ≡ command.now) }
    ensures row { IfOk result (λ its. its.0.row ≡ row.now) }
    ensures plan { IfOk result (λ its. Told (H.host host.old) (λ w. ArePlanned row.now w its.0)) }
    ensures steady { IfOk result (λ its. Told (H.host host.old) (λ w. IsTrue (units_of its.0).steady ↔ IsSteadyTo row.now.start_up (switched_by row.now) w)) }
    ensures sound { IfOk result (λ its. IsSound its.0) }
    ensures short { IfOk result (λ its. Told (H.host host.old) (λ w. IsTrue its.1 → row.now.switches ≡ true → AreOwedShort w.leaves)) }
    ensures not_refused { OnOk result (Told (H.host host.old) (λ w. refusal_before_length row.now.start_up row.now.switches row.now.moves row.now.system w.leaves ≡ None)) }
    ensures refused { (why : Refusal) → IsErrOf result (Refused why)
        → Told (H.host host.old) (λ w. refusal_before_length row.now.start_up row.now.switches row.now.moves row.now.system w.leaves ≡ Some why) }
    ensures reads { IsReadingOf (H.host host.old) (H.host host.new) (IsErrOf result (Host Device)) }
{
    let planned = command.copy(alloc)?;
    let its = row.copy(alloc)?;
    let gens = gens_for(alloc, host, row, known)?;
    let mut findings = nothing_found(alloc);
    check_places(alloc, host, &mut findings, row, gens.as_ref())?;
    let short = is_owed_short(alloc, &findings, row)?;
    let switch = plan_switch(alloc, host, &mut findings, row)?;
    let boot_default = plan_default(alloc, host, row, gens, past)?;
    Ok((Plan::new(alloc, planned, its, switch, boot_default), short))
}

/// What there is too much of for a row that switches the units: units, then entries below `/etc`, and then rows of account
/// tables.
fn too_many<T: Tree>(alloc: Global, host: &mut T, row: &Row) -> Result<Option<Refusal>, HostFault>
    ensures refusal { IfOk result (λ why. Told (T.host host.old) (λ w. why ≡ too_many_by row.now.switches row.now.system w.leaves)) }
    ensures reads { IsReading (T.host host.old) (T.host host.new) result }
{
    if !row.switches {
        return Ok(None);
    }
    if let Some(why) = too_many_units(alloc, host, &row.system)? {
        return Ok(Some(why));
    }
    if let Some(why) = too_many_entries(alloc, host, &row.system)? {
        return Ok(Some(why));
    }
    too_many_rows(alloc, host)
}

/// What there is too much of for a row: bytes of a content that it takes, and then what is counted.
fn too_much<T: Tree>(alloc: Global, host: &mut T, row: &Row) -> Result<Option<Refusal>, HostFault>
    ensures refusal { IfOk result (λ why. Told (T.host host.old) (λ w. why ≡ too_much_by row.now.switches row.now.moves row.now.system w.leaves)) }
    ensures reads { IsReading (T.host host.old) (T.host host.new) result }
{
    if let Some(why) = too_long(alloc, host, row)? {
        return Ok(Some(why));
    }
    too_many(alloc, host, row)
}

/// The refusal of a row whose parts are refused for this: where there is too much of something, that goes before.
fn refused_first<T: Tree>(alloc: Global, host: &mut T, row: &Row, why: Refusal) -> PlanFault
    requires { Told (T.host host.old) (λ w. refusal_before_length row.now.start_up row.now.switches row.now.moves row.now.system w.leaves ≡ Some why) }
    ensures refused { (first : Refusal) (log : Option TooLong) → result ≡ Refused first
        → Told (T.host host.old) (λ w. refusal_by log row.now.start_up row.now.switches row.now.moves row.now.system w.leaves ≡ Some first) }
    ensures reads { IsReadingOf (T.host host.old) (T.host host.new) (result ≡ Host Device) }
{
    match too_much(alloc, host, row) {
        Ok(Some(much)) => PlanFault::Refused(much),
        Ok(None) => PlanFault::Refused(why),
        Err(fault) => PlanFault::Host(fault),
    }
}

/// Refuses where a row switches the units and the log of what is owed, or a list of an older program, is longer than may be read. It looks
/// only where it isn't found that they are short.
fn check_owed<T: Tree>(alloc: Global, host: &mut T, row: &Row, short: bool) -> Result<(), PlanFault>
    requires { Told (T.host host.old) (λ w. IsTrue short → row.now.switches ≡ true → AreOwedShort w.leaves) }
    ensures short { OnOk result (Told (T.host host.old) (λ w. row.now.switches ≡ true → AreOwedShort w.leaves)) }
    ensures refused { (why : Refusal) → IsErrOf result (Refused why)
        → Told (T.host host.old) (λ w. too_long_by row.now.switches row.now.moves row.now.system (gens_to row.now.moves row.now.system w.leaves) w.leaves ≡ Some why) }
    ensures reads { IsReadingOf (T.host host.old) (T.host host.new) (IsErrOf result (Host Device)) }
{
    if short {
        return Ok(());
    }
    refuse(too_long(alloc, host, row)?)
}

/// The first in byte order of the log and of the files that a plan puts, where one would be longer than can be read again.
fn long_of(alloc: Global, plan: &Plan) -> Result<Option<TooLong>, AllocError>
    ensures { IfOk result (λ long. (its : Row) (w : WorldState) → ArePlanned its w plan.now → IsLongBy its w long) }
{
    let Some(switch) = &plan.switch else {
        return Ok(None);
    };
    let log = switch.units.long_log(alloc)?;
    let long = switch.activation.long(alloc)?;
    Ok(first_long(log, long))
}

/// Refuses a plan of a row for lengths: where the log of what is owed, or a list of an older program, is longer than may be read, the
/// first content that the row takes and that is; and then where a file would be put longer than can be read again.
fn check_lengths<T: Tree>(
    alloc: Global,
    host: &mut T,
    row: &Row,
    plan: &Plan,
    short: bool,
) -> Result<(), PlanFault>
    requires planned { Told (T.host host.old) (λ w. ArePlanned row.now w plan.now) }
    requires free { Told (T.host host.old) (λ w. refusal_before_length row.now.start_up row.now.switches row.now.moves row.now.system w.leaves ≡ None) }
    requires short { Told (T.host host.old) (λ w. is_long w.leaves (version_path row.now.system) ≡ false) }
    requires owed { Told (T.host host.old) (λ w. IsTrue short → row.now.switches ≡ true → AreOwedShort w.leaves) }
    ensures not_refused { OnOk result (Told (T.host host.old) (λ w. RefusesBy row.now w None)) }
    ensures refused { (why : Refusal) → IsErrOf result (Refused why) → Told (T.host host.old) (λ w. RefusesBy row.now w (Some why)) }
    ensures reads { IsReadingOf (T.host host.old) (T.host host.new) (IsErrOf result (Host Device)) }
{
    let _path = row.system.path();
    check_owed(alloc, host, row, short)?;
    let long = long_of(alloc, plan)?;
    refuse(long_refusal(&long))
}

/// Plans a row.
///
/// Each part that is planned has been found to have not too much of anything, but for the log of what is owed. So what there is is
/// measured and counted once more only where a part is refused, or where that log is too long, since that would be refused before.
fn plan_row<H: Manager>(
    alloc: Global,
    host: &mut H,
    command: &Command,
    row: &Row,
    known: Option<Gens>,
    past: Option<u64>,
) -> Result<Plan, PlanFault>
    requires known { Told (H.host host.old) (λ w. IfSome known (IsGensOf w.leaves)) }
    requires past { Told (H.host host.old) (λ w. IsGoalPast row.now.moves w.leaves past) }
    requires short { Told (H.host host.old) (λ w. is_long w.leaves (version_path row.now.system) ≡ false) }
    ensures command { IfOk result (λ plan. plan.command ≡ command.now) }
    ensures row { IfOk result (λ plan. plan.row ≡ row.now) }
    ensures plan { IfOk result (λ plan. Told (H.host host.old) (λ w. ArePlanned row.now w plan)) }
    ensures steady { IfOk result (λ plan. Told (H.host host.old) (λ w. IsTrue (units_of plan).steady ↔ IsSteadyTo row.now.start_up (switched_by row.now) w)) }
    ensures sound { IfOk result IsSound }
    ensures not_refused { OnOk result (Told (H.host host.old) (λ w. RefusesBy row.now w None)) }
    ensures refused { (why : Refusal) → IsErrOf result (Refused why) → Told (H.host host.old) (λ w. RefusesBy row.now w (Some why)) }
    ensures reads { IsReadingOf (H.host host.old) (H.host host.new) (IsErrOf result (Host Device)) }
{
    match plan_parts(alloc, host, command, row, known, past) {
        Ok((plan, short)) => {
            check_lengths(alloc, host, row, &plan, short)?;
            Ok(plan)
        }
        Err(PlanFault::Refused(why)) => Err(refused_first(alloc, host, row, why)),
        Err(PlanFault::Host(fault)) => Err(PlanFault::Host(fault)),
    }
}

/// Refuses where a system doesn't have its file, and where that is longer than may be read.
fn check_version<T: Tree>(alloc: Global, host: &mut T, row: &Row) -> Result<(), PlanFault>
    ensures there { OnOk result (Told (T.host host.old) (λ w. is_none (content_of w.leaves (version_path row.now.system)) ≡ false)) }
    ensures short { OnOk result (Told (T.host host.old) (λ w. is_long w.leaves (version_path row.now.system) ≡ false)) }
    ensures refused { (why : Refusal) → IsErrOf result (Refused why)
        → Told (T.host host.old) (λ w. version_refusal row.now.switches row.now.moves row.now.system w.leaves ≡ Some why) }
    ensures reads { IsReadingOf (T.host host.old) (T.host host.new) (IsErrOf result (Host Device)) }
{
    let Some(count) = version_length(alloc, host, &row.system)? else {
        return Err(PlanFault::Refused(Refusal::NoSystem));
    };
    if count <= LEAF_MAX {
        return Ok(());
    }
    refuse(too_long(alloc, host, row)?)
}

/// Plans what a command does, before anything is put or changed, and changes nothing.
///
/// The refusals are sought in this order: `NoPrevious` of a rollback or `NoProfile` of a start-up, `NoSystem`; `TooMany` of
/// bytes of a content that the command takes, the first in byte order; of a switch of the units `TooMany` of units (of its
/// system, then of the one in use), of entries below `/etc` and of rows of account tables; `InTheWay`; of a switch of the units
/// `UnitText`, `UsersSpec`, `Table`, `IdMap`, then the first of `NoFreeId` and `UnknownGroup`, `TooMany` of rows after the
/// merge, and then the first of `Reserved`, `EtcEntry` and `Owner`; of a set of the profile `GenerationsFull`; and of a switch
/// of the units `TooMany` of bytes of the log of what is owed, of a file of accounts or of the clean list, which would be put
/// longer than can be read again, the first in byte order.
/// Source: NixOS manual, "What happens during a system switch?".
pub fn plan_all<H: Manager>(
    alloc: Global,
    host: &mut H,
    command: &Command,
) -> Result<Plan, PlanFault>
    ensures command { IfOk result (λ plan. plan.command ≡ command.now) }
    ensures plan { IfOk result (λ plan. Told (H.host host.old) (λ w. IsPlanOf w plan)) }
    ensures steady { IfOk result (λ plan. Told (H.host host.old) (λ w. IsTrue (units_of plan).steady ↔ IsSteadyFor command.now w)) }
    ensures sound { IfOk result IsSound }
    ensures refused { (why : Refusal) → IsErrOf result (Refused why) → Told (H.host host.old) (λ w. Refuses command.now w (Some why)) }
    ensures reads { IsReadingOf (H.host host.old) (H.host host.new) (IsErrOf result (Host Device)) }
{
    let resolved = resolve(alloc, host, command)?;
    let Resolved { row, gens, past } = resolved;
    let _path = row.system.path();
    check_version(alloc, host, &row)?;
    let plan = plan_row(alloc, host, command, &row, gens, past)?;
    Ok(plan)
}
