//! What is read of a world before a switch is planned.
ghost use Rattle.std.specs.Prelude.{◌≡◌, None, Some, IfOk, OnOk, IsErrOf};
ghost use Rattle.std.specs.Option.{option_copied};
ghost use Rattle.host_trait.specs.declared.tree.HostFault.TheVariants.{Device};
ghost use Rattle.host_trait.specs.Reading.{IsReading, IsReadingOf};
ghost use Rattle.host_trait.specs.Host.{Told};
ghost use Rattle.owed_plan.specs.Systems.{AreOldDefs};
ghost use Rattle.switch_names.specs.Names.{Name};
ghost use Rattle.tree_put.specs.Found.{AreFound};
ghost use Rattle.unit_defs.specs.Defs.{AreDefsOf};
ghost use Rattle.unit_defs.specs.Taken.{NotesLong, takes_units};
ghost use Rattle.switch_parts.specs.declared.plan_fault.PlanFault.TheVariants.{Host, Refused};
ghost use Rattle.switch_parts.specs.declared.refusal.Refusal.{Refusal};
ghost use Rattle.unit_stage.specs.Known.{AreStatesOf, AreTaken, IsKnownOf, IsOldOf};
ghost use Rattle.unit_stage.specs.System.{current_system, defs_refusal, takes_old, unit_refusal};

use crate::counts::old_past;
use crate::lengths::check_lengths;
use crate::system::{current_system, start_up_target};
use host_trait::{HostFault, Manager, States, Tree, UnitSet};
use log_text::Lists;
use owed_log::{LogState, StandingLists};
use std::alloc::{AllocError, Global};
use std::collections::BTreeMap;
use std::mem;
use switch_names::{Path, SystemName};
use switch_parts::{PlanFault, Refusal, What, too_many};
use tree_put::Found;
use unit_defs::{Defs, DefsFault};

/// The system in use, where there is one, with the units that it defines.
#[derive(Drop)]
pub struct OldSystem {
    pub name: Option<SystemName>,
    pub defs: Defs,
}

/// The states of the units, the lists that a switch which was cut has left, and what stands at the place of the log.
pub struct UnitStates {
    pub states: States,
    pub lists: Lists,
    pub log: LogState,
}

/// One call: a derived drop is proved anew in each function that lets one go.
impl Drop for UnitStates {
    fn drop(self) {
        let UnitStates {
            states: _,
            lists: _,
            log: _,
        } = self;
    }
}

/// All that a switch is planned by.
#[derive(Drop)]
pub struct Known {
    pub old: OldSystem,
    pub new: Defs,
    pub units: UnitStates,
}

/// Reads the units of the system in use. Where there is none, it has none.
fn read_old_defs<T: Tree>(
    alloc: Global,
    host: &mut T,
    system: Option<&SystemName>,
    long: &mut bool,
) -> Result<Defs, HostFault>
    ensures defs { IfOk result (λ defs. Told (T.host host.old) (λ w. AreOldDefs w.leaves (option_copied system.entry) defs)) }
    ensures short { OnOk result (Told (T.host host.old) (λ w. NotesLong long.old long.new (takes_old w.leaves (option_copied system.entry)) w.leaves)) }
    ensures reads { IsReading (T.host host.old) (T.host host.new) result }
{
    match system {
        Some(system) => Defs::read_old_noted(alloc, host, system, long),
        None => Ok(Defs::none(alloc)),
    }
}

/// Reads the system in use.
fn read_old<T: Tree>(alloc: Global, host: &mut T, long: &mut bool) -> Result<OldSystem, HostFault>
    ensures old { IfOk result (λ old. Told (T.host host.old) (λ w. IsOldOf w.leaves old)) }
    ensures short { OnOk result (Told (T.host host.old) (λ w. NotesLong long.old long.new (takes_old w.leaves (current_system w.leaves)) w.leaves)) }
    ensures reads { IsReading (T.host host.old) (T.host host.new) result }
{
    let name = current_system(alloc, host)?;
    let defs = read_old_defs(alloc, host, name.as_ref(), long)?;
    Ok(OldSystem { name, defs })
}

/// Reads the units of the system that comes into use, beside those of the system in use.
///
/// Too many units of the system that comes into use are sought first, then those of the one in use. A content that is too long
/// is noted.
pub fn read_new<T: Tree>(
    alloc: Global,
    host: &mut T,
    system: &SystemName,
    old: &Defs,
    long: &mut bool,
) -> Result<Defs, PlanFault>
    ensures defs { IfOk result (λ defs. Told (T.host host.old) (λ w. AreDefsOf w.leaves system.now defs)) }
    ensures not_refused { OnOk result (Told (T.host host.old) (λ w. AreOldDefs w.leaves (current_system w.leaves) old.now → defs_refusal w.leaves system.now ≡ None)) }
    ensures refused { (why : Refusal) → IsErrOf result (Refused why) → Told (T.host host.old) (λ w. AreOldDefs w.leaves (current_system w.leaves) old.now → defs_refusal w.leaves system.now ≡ Some why) }
    ensures short { OnOk result (Told (T.host host.old) (λ w. NotesLong long.old long.new (takes_units w.leaves system.now) w.leaves)) }
    ensures reads { IsReadingOf (T.host host.old) (T.host host.new) (IsErrOf result (Host Device)) }
{
    let in_use = too_many(What::Units, old_past(old));
    match Defs::read_beside(alloc, host, system, old, long) {
        Ok(defs) => match in_use {
            Some(why) => Err(PlanFault::Refused(why)),
            None => Ok(defs),
        },
        Err(DefsFault::Many(count)) => {
            let what = What::Units;
            Err(PlanFault::Refused(Refusal::TooMany { what, count }))
        }
        Err(DefsFault::Text { unit, line }) => {
            let fault = Refusal::UnitText { unit, line };
            Err(PlanFault::Refused(in_use.unwrap_or(fault)))
        }
        Err(DefsFault::Host(fault)) => Err(PlanFault::Host(fault)),
    }
}

/// The lists as a switch to a system with these units takes them.
fn lists_for(alloc: Global, stored: Lists, new: &Defs, start_up: bool) -> Result<Lists, AllocError>
    ensures { IfOk result (AreTaken start_up new.now stored) }
{
    if !start_up {
        return Ok(stored);
    }
    let target = start_up_target(alloc)?;
    if new.find(&target).is_none() {
        return Ok(stored);
    }
    let mut units = UnitSet::of(alloc, stored.starts.as_slice())?;
    units.insert(target)?;
    let mut lists = stored;
    lists.starts = units.into_names(alloc)?;
    Ok(lists)
}

/// The lists that stand.
fn lists_of(alloc: Global, standing: StandingLists) -> Lists
    ensures { result ≡ standing.lists }
{
    let mut standing = standing;
    mem::replace(&mut standing.lists, Lists::new(alloc))
}

/// Reads the states of the units, the lists, and what stands at the place of the log. A place at which something was found isn't
/// read again.
fn read_states<H: Manager>(
    alloc: Global,
    host: &mut H,
    findings: &mut BTreeMap<Path, Found>,
    new: &Defs,
    start_up: bool,
) -> Result<UnitStates, HostFault>
    requires found { Told (H.host host.old) (λ w. AreFound w.leaves findings.old) }
    ensures states { IfOk result (λ units. Told (H.host host.old) (λ w. (system : Name) → AreDefsOf w.leaves system new.now → AreStatesOf start_up system w units)) }
    ensures others { OnOk result (Told (H.host host.old) (λ w. AreFound w.leaves findings.new)) }
    ensures reads { IsReading (H.host host.old) (H.host host.new) result }
{
    let states = host.units(alloc)?;
    let standing = StandingLists::read(alloc, host, findings)?;
    let log = standing.log;
    let lists = lists_for(alloc, lists_of(alloc, standing), new, start_up)?;
    Ok(UnitStates { states, lists, log })
}

/// Reads all that a switch to a system is planned by.
pub fn read_known<H: Manager>(
    alloc: Global,
    host: &mut H,
    findings: &mut BTreeMap<Path, Found>,
    system: &SystemName,
    start_up: bool,
) -> Result<Known, PlanFault>
    requires found { Told (H.host host.old) (λ w. AreFound w.leaves findings.old) }
    ensures known { IfOk result (λ known. Told (H.host host.old) (λ w. IsKnownOf start_up system.now w known)) }
    ensures not_refused { OnOk result (Told (H.host host.old) (λ w. unit_refusal w.leaves system.now ≡ None)) }
    ensures refused { (why : Refusal) → IsErrOf result (Refused why) → Told (H.host host.old) (λ w. unit_refusal w.leaves system.now ≡ Some why) }
    ensures others { OnOk result (Told (H.host host.old) (λ w. AreFound w.leaves findings.new)) }
    ensures reads { IsReadingOf (H.host host.old) (H.host host.new) (IsErrOf result (Host Device)) }
{
    let mut long = false;
    let old = read_old(alloc, host, &mut long)?;
    let new = read_new(alloc, host, system, &old.defs, &mut long)?;
    check_lengths(alloc, host, system, long)?;
    let units = read_states(alloc, host, findings, &new, start_up)?;
    Ok(Known { old, new, units })
}
