//! A made machine, and cuts for a switch of it.
ghost use Rattle.std.specs.Prelude.{◌≡◌, ◌+◌, IfOk};
ghost use Rattle.host_trait.specs.Manager.{IsPlain};
ghost use Rattle.made_world.specs.Draws.{state_at};
ghost use Rattle.made_world.specs.Putting.{old_system};
ghost use Rattle.rehearse.specs.Generated.{drawn_cuts, drawn_numbers, in_use, IsGenerated, IsSettled};
ghost use Rattle.unit_stage.specs.System.{definitions_of};

use crate::cut::Cut;
use crate::running::through;
use host_memory::MemoryHost;
use host_trait::{ManagerState, States, World};
use made_world::{Draws, make_machine, new_system, old_system};
use std::alloc::{AllocError, Global};
use switch_engine::Command;
use switch_names::{Listed, SystemName, Text};

/// How many cuts a made machine has.
const CUTS: u64 = 64;
/// How many numbers a schedule of its jobs has.
const TURNS: u64 = 4096;

/// A made machine, on which the old one of its two systems is in use, and cuts for a switch to the new one.
pub struct Generated {
    /// The world of the machine.
    pub world: World,
    /// Its new system.
    pub system: SystemName,
    /// Where runs of the switch are to be cut.
    pub cuts: Listed<Cut>,
}

/// One call: a derived drop is proved anew in each function that lets one go.
impl Drop for Generated {
    fn drop(self) {
        let Generated {
            world: _,
            system: _,
            cuts: _,
        } = self;
    }
}

impl Generated {
    /// Its world, its new system, and the cuts.
    pub fn into_parts(self) -> (World, SystemName, Listed<Cut>)
        ensures { result ≡ (self.world, self.system, self.cuts) }
    {
        let Generated {
            world,
            system,
            cuts,
        } = self;
        (world, system, cuts)
    }
}

/// A world after a switch to the old system.
fn settle(alloc: Global, world: World) -> Result<World, AllocError>
    ensures { IfOk result (IsSettled world) }
{
    let mut host = MemoryHost::new(alloc, world);
    let command = Command::Switch(old_system(alloc)?);
    let _summary = through(alloc, &mut host, &command, &[])?;
    Ok(host.into_world())
}

/// Where the definitions of the old system lie.
#[tactic(auto, unfolding(made_world::specs::Putting::old_system))]
fn old_definitions(alloc: Global) -> Result<Text, AllocError>
    ensures text { IfOk result (λ text. text ≡ definitions_of old_system) }
    ensures plain { IfOk result IsPlain }
{
    Text::from_str(alloc, "/nix/store/old-sys/etc")
}

/// A world with the old system in use, its units in these states, and nothing done yet.
fn use_old(alloc: Global, world: World, states: States) -> Result<World, AllocError>
    ensures { IfOk result (λ used. used ≡ in_use states world) }
{
    let mut world = world;
    let loaded = old_definitions(alloc)?;
    let mut manager = world.swap_manager(ManagerState::new(alloc));
    manager.states = states;
    manager.loaded = loaded;
    manager.journal = Listed::new(alloc);
    let _empty = world.swap_manager(manager);
    Ok(world)
}

/// Cuts, which take two draws each.
fn draw_cuts(alloc: Global, draws: &mut Draws) -> Result<Listed<Cut>, AllocError>
    ensures { IfOk result (λ cuts. cuts ≡ drawn_cuts draws.old.state 64) }
{
    let mut cuts = Listed::new(alloc);
    for _number in 0..CUTS {
        let after = draws.draw() % 4096;
        let pick = draws.draw();
        cuts.push(Cut { after, pick })?;
    }
    Ok(cuts)
}

/// Makes the machine of a number with so many units, entries of `/etc` and users, and cuts for a switch of it.
///
/// Its old system is brought into use by a switch that isn't cut, where that isn't refused; then the units get the states that
/// are drawn for them.
pub fn generate_of(
    alloc: Global,
    number: u64,
    units: u32,
    entries: u32,
    users: u32,
) -> Result<Generated, AllocError>
    ensures { IfOk result (IsGenerated number units entries users) }
{
    let system = new_system(alloc)?;
    let mut draws = Draws::new(number);
    let machine = make_machine(alloc, &mut draws, units, entries, users)?;
    let (world, states) = machine.into_parts();
    let settled = settle(alloc, world)?;
    let world = use_old(alloc, settled, states)?;
    let cuts = draw_cuts(alloc, &mut draws)?;
    Ok(Generated {
        world,
        system,
        cuts,
    })
}

/// Makes the machine of a number, with 2,000 units, 5,000 entries of `/etc` and 200 users.
pub fn generate(alloc: Global, number: u64) -> Result<Generated, AllocError>
    ensures { IfOk result (IsGenerated number 2000 5000 200) }
{
    generate_of(alloc, number, 2000, 5000, 200)
}

/// How many draws a made machine and its cuts take.
pub(crate) fn draws_of(units: u32, entries: u32, users: u32) -> u64
    ensures { result ≡ units + entries + users + 128 }
{
    u64::from(units) + u64::from(entries) + u64::from(users) + 2 * CUTS
}

/// Leaves out so many draws.
fn skip(draws: &mut Draws, count: u64)
    ensures { draws.new.state ≡ state_at draws.old.state count }
{
    for _number in 0..count {
        let _draw = draws.draw();
    }
}

/// The next so many draws.
fn draw_numbers(alloc: Global, draws: &mut Draws, count: u64) -> Result<Listed<u64>, AllocError>
    ensures { IfOk result (λ numbers. numbers ≡ drawn_numbers draws.old.state count) }
{
    let mut numbers = Listed::new(alloc);
    for _number in 0..count {
        numbers.push(draws.draw())?;
    }
    Ok(numbers)
}

/// The schedule by which jobs end on the machine of a number, once so many draws were taken for the machine and its cuts.
pub fn schedule_of(alloc: Global, number: u64, taken: u64) -> Result<Listed<u64>, AllocError>
    ensures { IfOk result (λ numbers. numbers ≡ drawn_numbers (state_at number taken) 4096) }
{
    let mut draws = Draws::new(number);
    skip(&mut draws, taken);
    draw_numbers(alloc, &mut draws, TURNS)
}
