//! Calls on the manager of a world.
ghost use Rattle.std.specs.Prelude.{◌≡◌, OnOk, OnErr, IfOk};
ghost use Rattle.std.specs.FinMap.{get};
ghost use Rattle.host_trait.specs.Change.{definitions_place, loaded_from};
ghost use Rattle.host_trait.specs.declared.manager_state.ManagerState.{ManagerState};
ghost use Rattle.host_trait.specs.Manager.{HasPlainTexts, acted, halted, loading};
ghost use Rattle.host_trait.specs.States.{AreStates};
ghost use Rattle.host_trait.specs.World.{with_manager};
ghost use Rattle.manager_core.specs.Call.{IsPlainCall, done, effected, entered};

use host_trait::{Act, ManagerState, World, definitions_path, loaded_text};
use manager_core::{Call, enter, step, take_effect};
use std::alloc::{AllocError, Global};
use switch_names::UnitName;

/// The call that does this to a unit.
pub(crate) fn call_of(alloc: Global, act: Act, unit: &UnitName) -> Result<Call, AllocError>
    ensures does { IfOk result (λ call. (m : ManagerState) → done call m ≡ acted act unit.now m) }
    ensures plain { IfOk result IsPlainCall }
{
    let unit = unit.copy(alloc)?;
    Ok(match act {
        Act::Stop => Call::Stop(unit),
        Act::Reload => Call::Reload(unit),
        Act::Restart => Call::Restart(unit),
        Act::Start => Call::Start(unit),
    })
}

/// The call that goes half way through a restart of a unit.
pub(crate) fn halt_of(alloc: Global, unit: &UnitName) -> Result<Call, AllocError>
    ensures does { IfOk result (λ call. (m : ManagerState) → done call m ≡ halted unit.now m) }
    ensures plain { IfOk result IsPlainCall }
{
    Ok(Call::Halt(unit.copy(alloc)?))
}

/// The call that loads the definitions to which the link at their place leads.
pub(crate) fn load_of(alloc: Global, world: &World) -> Result<Call, AllocError>
    ensures does { IfOk result (λ call. (m : ManagerState) → done call m ≡ loading (loaded_from (get world.now.leaves definitions_place)) m) }
    ensures plain { IfOk result IsPlainCall }
{
    let place = definitions_path(alloc)?;
    Ok(Call::DaemonReload(loaded_text(alloc, world.leaf(&place))?))
}

/// Makes a call on the manager of a world.
pub(crate) fn step_world(world: &mut World, alloc: Global, call: Call) -> Result<(), AllocError>
    requires { IsPlainCall call }
    ensures ok { OnOk result (world.new ≡ with_manager (done call world.old.manager) world.old) }
    ensures err { OnErr result (world.new ≡ world.old) }
    ensures plain { HasPlainTexts world.new.manager }
    ensures are_states { AreStates world.new.manager.states }
{
    let mut manager = world.swap_manager(ManagerState::new(alloc));
    let answer = step(alloc, &mut manager, &call);
    let _empty = world.swap_manager(manager);
    // The states are asked for what they say of the world: that they are in one form.
    let _states = world.states();
    answer
}

/// Enters an act in the journal of the manager of a world.
pub(crate) fn enter_in(
    world: &mut World,
    alloc: Global,
    act: Act,
    unit: &UnitName,
) -> Result<(), AllocError>
    ensures ok { OnOk result (world.new ≡ with_manager (entered act unit.now world.old.manager) world.old) }
    ensures err { OnErr result (world.new ≡ world.old) }
    ensures plain { HasPlainTexts world.new.manager }
    ensures are_states { AreStates world.new.manager.states }
{
    let mut manager = world.swap_manager(ManagerState::new(alloc));
    let answer = enter(alloc, &mut manager, act, unit);
    let _empty = world.swap_manager(manager);
    let _states = world.states();
    answer
}

/// Has an act on a unit of a world take effect.
pub(crate) fn effect_in(
    world: &mut World,
    alloc: Global,
    act: Act,
    unit: &UnitName,
) -> Result<(), AllocError>
    ensures ok { OnOk result (world.new ≡ with_manager (effected act unit.now world.old.manager) world.old) }
    ensures err { OnErr result (world.new ≡ world.old) }
    ensures plain { HasPlainTexts world.new.manager }
    ensures are_states { AreStates world.new.manager.states }
{
    let mut manager = world.swap_manager(ManagerState::new(alloc));
    let answer = take_effect(alloc, &mut manager, act, unit);
    let _empty = world.swap_manager(manager);
    let _states = world.states();
    answer
}
