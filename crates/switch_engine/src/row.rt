//! What a command does in a world.
ghost use Rattle.std.specs.Prelude.{◌≡◌, false, true, None, Some, IfOk, IfSome, IsErrOf};
ghost use Rattle.generations.specs.Gens.{IsGensOf};
ghost use Rattle.generations.specs.Goal.{goal, goal_place};
ghost use Rattle.host_trait.specs.declared.tree.HostFault.TheVariants.{Device};
ghost use Rattle.host_trait.specs.Host.{Told};
ghost use Rattle.host_trait.specs.Reading.{IsReadingOf};
ghost use Rattle.host_trait.specs.World.{content_of};
ghost use Rattle.leaf_limits.specs.Limits.{content_past};
ghost use Rattle.switch_engine.specs.Commands.{is_back};
ghost use Rattle.switch_engine.specs.declared.command.Command.TheVariants.{Rollback, StartUp};
ghost use Rattle.switch_engine.specs.Resolved.{IsResolved, IsRowOf, Lacks};
ghost use Rattle.switch_engine.specs.Rows.{refusal};
ghost use Rattle.switch_parts.specs.declared.plan_fault.PlanFault.TheVariants.{Host, Refused};
ghost use Rattle.switch_parts.specs.declared.refusal.Refusal.{Refusal};

use crate::command::Command;
use generations::{Gens, Goal, GoalFault, Move, all, boot_system, goal, system_of};
use host_trait::Tree;
use std::alloc::{AllocError, Global};
use switch_names::SystemName;
use switch_parts::{PlanFault, Refusal};

/// What a command does, resolved in the world where it begins.
pub struct Row {
    /// The system that it is about.
    pub system: SystemName,
    /// How the profile is moved to the system, where it is.
    pub moves: Option<Move>,
    /// Whether the units are switched to the system.
    pub switches: bool,
    /// Whether that is done as the machine starts up, so that its target is started too.
    pub start_up: bool,
    /// Whether what is planned is carried out.
    pub changes: bool,
}

/// One call: a derived drop is proved anew in each function that lets one go.
impl Drop for Row {
    fn drop(self) {
        let Row {
            system: _,
            moves: _,
            switches: _,
            start_up: _,
            changes: _,
        } = self;
    }
}

impl Row {
    /// An equal row.
    pub fn copy(&self, alloc: Global) -> Result<Row, AllocError>
        ensures { IfOk result (λ row. row ≡ self.now) }
    {
        Ok(Row {
            system: self.system.copy(alloc)?,
            moves: self.moves,
            switches: self.switches,
            start_up: self.start_up,
            changes: self.changes,
        })
    }
}

/// What a command does, and what was read to know it.
#[derive(Drop)]
pub struct Resolved {
    /// What it does.
    pub row: Row,
    /// The generations that stand, where they were read.
    pub gens: Option<Gens>,
    /// How many bytes the goal of a rollback has, where it has more than 16 MiB.
    pub past: Option<u64>,
}

/// A row over a system, not as the machine starts up.
fn row_over(
    alloc: Global,
    system: &SystemName,
    moves: Option<Move>,
    switches: bool,
    changes: bool,
) -> Result<Row, AllocError>
    ensures { IfOk result (λ row. row ≡ record { system = system.now; moves = moves; switches = switches; start_up = false; changes = changes }) }
{
    Ok(Row {
        system: system.copy(alloc)?,
        moves,
        switches,
        start_up: false,
        changes,
    })
}

/// The generation to which a rollback goes.
fn find_goal<T: Tree>(alloc: Global, host: &mut T, gens: &Gens) -> Result<Goal, PlanFault>
    requires { Told (T.host host.old) (λ w. IsGensOf w.leaves gens.now) }
    ensures goal { IfOk result (λ found. Told (T.host host.old) (λ w. goal w.leaves ≡ Some found.number)) }
    ensures past { IfOk result (λ found. Told (T.host host.old) (λ w. found.past ≡ content_past (content_of w.leaves goal_place))) }
    ensures refused { (why : Refusal) → IsErrOf result (Refused why) → Told (T.host host.old) (λ w. Lacks Rollback w.leaves why) }
    ensures reads { IsReadingOf (T.host host.old) (T.host host.new) (IsErrOf result (Host Device)) }
{
    match goal(alloc, host, gens) {
        Ok(found) => Ok(found),
        Err(GoalFault::NoPrevious) => Err(PlanFault::Refused(Refusal::NoPrevious)),
        Err(GoalFault::Host(fault)) => Err(PlanFault::Host(fault)),
    }
}

/// What a rollback does: it goes back to its goal, whose generation names a system.
fn resolve_back<T: Tree>(alloc: Global, host: &mut T) -> Result<Resolved, PlanFault>
    ensures resolved { IfOk result (λ its. Told (T.host host.old) (λ w. IsResolved Rollback w.leaves its)) }
    ensures refused { (why : Refusal) → IsErrOf result (Refused why) → Told (T.host host.old) (λ w. Lacks Rollback w.leaves why) }
    ensures reads { IsReadingOf (T.host host.old) (T.host host.new) (IsErrOf result (Host Device)) }
{
    let gens = all(alloc, host)?;
    let found = find_goal(alloc, host, &gens)?;
    let Some(system) = system_of(&gens, found.number) else {
        return Err(PlanFault::Refused(Refusal::NoPrevious));
    };
    let row = row_over(alloc, system, Some(Move::Point(found.number)), true, true)?;
    Ok(Resolved {
        row,
        gens: Some(gens),
        past: found.past,
    })
}

/// The row of a start-up, over the system that the machine boots into.
fn start_row(alloc: Global, system: &SystemName) -> Result<Row, AllocError>
    ensures { IfOk result (λ row. row ≡ record { system = system.now; moves = None; switches = true; start_up = true; changes = true }) }
{
    Ok(Row {
        system: system.copy(alloc)?,
        moves: None,
        switches: true,
        start_up: true,
        changes: true,
    })
}

/// What a start-up does: it is about the system that the profile names.
fn resolve_start<T: Tree>(alloc: Global, host: &mut T) -> Result<Resolved, PlanFault>
    ensures resolved { IfOk result (λ its. Told (T.host host.old) (λ w. IsResolved StartUp w.leaves its)) }
    ensures refused { (why : Refusal) → IsErrOf result (Refused why) → Told (T.host host.old) (λ w. Lacks StartUp w.leaves why) }
    ensures reads { IsReadingOf (T.host host.old) (T.host host.new) (IsErrOf result (Host Device)) }
{
    let gens = all(alloc, host)?;
    let Some(system) = boot_system(&gens) else {
        return Err(PlanFault::Refused(Refusal::NoProfile));
    };
    let row = start_row(alloc, system)?;
    Ok(Resolved {
        row,
        gens: Some(gens),
        past: None,
    })
}

/// What a command does wherever it begins, and nothing for one that goes by the generations.
fn row_of(alloc: Global, command: &Command) -> Result<Option<Row>, AllocError>
    ensures row { IfOk result (IsRowOf command.now) }
    ensures forward { IfOk result (λ row. IfSome row (λ row. is_back row.moves ≡ false)) }
{
    match command {
        Command::Switch(system) => {
            let row = row_over(alloc, system, Some(Move::Set), true, true)?;
            Ok(Some(row))
        }
        Command::Test(system) => {
            let row = row_over(alloc, system, None, true, true)?;
            Ok(Some(row))
        }
        Command::Boot(system) => {
            let row = row_over(alloc, system, Some(Move::Set), false, true)?;
            Ok(Some(row))
        }
        Command::DryActivate(system) => {
            let row = row_over(alloc, system, None, true, false)?;
            Ok(Some(row))
        }
        Command::Rollback | Command::StartUp => Ok(None),
    }
}

/// What a command does that goes by the generations.
fn resolve_by_generations<T: Tree>(
    alloc: Global,
    host: &mut T,
    command: &Command,
) -> Result<Resolved, PlanFault>
    requires { IsRowOf command.now None }
    ensures resolved { IfOk result (λ its. Told (T.host host.old) (λ w. IsResolved command.now w.leaves its)) }
    ensures refused { (why : Refusal) → IsErrOf result (Refused why) → Told (T.host host.old) (λ w. Lacks command.now w.leaves why) }
    ensures reads { IsReadingOf (T.host host.old) (T.host host.new) (IsErrOf result (Host Device)) }
{
    match command {
        Command::StartUp => resolve_start(alloc, host),
        _ => resolve_back(alloc, host),
    }
}

/// What a command does in the world where it begins.
///
/// A rollback is refused where it has no goal, and a start-up where the profile names no system; nothing else is read, and no
/// other command is refused.
pub fn resolve<T: Tree>(
    alloc: Global,
    host: &mut T,
    command: &Command,
) -> Result<Resolved, PlanFault>
    ensures resolved { IfOk result (λ its. Told (T.host host.old) (λ w. IsResolved command.now w.leaves its)) }
    ensures refused { (why : Refusal) → IsErrOf result (Refused why) → Told (T.host host.old) (λ w. refusal command.now w.leaves ≡ Some why) }
    ensures lacks { (why : Refusal) → IsErrOf result (Refused why) → Told (T.host host.old) (λ w. Lacks command.now w.leaves why) }
    ensures reads { IsReadingOf (T.host host.old) (T.host host.new) (IsErrOf result (Host Device)) }
{
    match row_of(alloc, command)? {
        Some(row) => Ok(Resolved {
            row,
            gens: None,
            past: None,
        }),
        None => resolve_by_generations(alloc, host, command),
    }
}
