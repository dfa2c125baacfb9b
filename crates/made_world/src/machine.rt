//! A made machine before its old system was ever switched to.
ghost use Rattle.std.specs.Prelude.{◌≡◌, ◌+◌, IfOk, OnOk};
ghost use Rattle.made_world.specs.Draws.{state_at};
ghost use Rattle.made_world.specs.Putting.{with_leaves};
ghost use Rattle.made_world.specs.Machine.{IsMachine, version_leaves};

use crate::draws::Draws;
use crate::entries::make_entries;
use crate::putting::{new_system, old_system, put_file};
use crate::units::make_units;
use crate::users::make_users;
use host_trait::{States, World};
use std::alloc::{AllocError, Global};

/// A made machine before its old system was ever switched to.
pub struct Machine {
    /// The files of its systems, and the units that fail under the definitions of the new one.
    pub world: World,
    /// The states that its units have once the old system is in use.
    pub states: States,
}

/// One call: a derived drop is proved anew in each function that lets one go.
impl Drop for Machine {
    fn drop(self) {
        let Machine {
            world: _,
            states: _,
        } = self;
    }
}

impl Machine {
    /// Its world and the states of its units.
    pub fn into_parts(self) -> (World, States)
        ensures { result ≡ (self.world, self.states) }
    {
        let Machine { world, states } = self;
        (world, states)
    }
}

/// Puts the versions of both systems.
fn put_versions(alloc: Global, world: &mut World) -> Result<(), AllocError>
    ensures { OnOk result (world.new ≡ with_leaves version_leaves world.old) }
{
    let old = old_system(alloc)?;
    let new = new_system(alloc)?;
    put_file(alloc, world, &old, "nixos-version", "1\n")?;
    put_file(alloc, world, &new, "nixos-version", "1\n")
}

/// Makes a machine of so many units, entries of `/etc` and users, with one draw for each.
///
/// Of ten units five are services, and one each a socket of the service before it, a target that wants the first service, a
/// timer, a path and a mount. A unit is the same in both systems, has another description or one line more in the new one, or
/// is gone from it, each as often. An entry is linked in both, copied in both and changed, or in one of them alone. A user is
/// declared by each system three times in four.
pub fn make_machine(
    alloc: Global,
    draws: &mut Draws,
    units: u32,
    entries: u32,
    users: u32,
) -> Result<Machine, AllocError>
    ensures made { IfOk result (IsMachine draws.old.state units entries users) }
    ensures draws { OnOk result (draws.new.state ≡ state_at draws.old.state (units + entries + users)) }
{
    let mut world = World::new(alloc);
    put_versions(alloc, &mut world)?;
    let states = make_units(alloc, &mut world, draws, units)?;
    make_entries(alloc, &mut world, draws, entries)?;
    make_users(alloc, &mut world, draws, users)?;
    Ok(Machine { world, states })
}
