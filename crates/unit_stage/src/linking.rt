//! Brings a system into use, and loads its definitions.
ghost use Rattle.std.specs.Prelude.{◌≡◌, OnOk};
ghost use Rattle.host_trait.specs.Host.{Told, Leads, Comes, Passes, HasCause};
ghost use Rattle.host_trait.specs.World.{with_leaf};
ghost use Rattle.tree_put.specs.Put.{CanPut, IsOldOrNew};
ghost use Rattle.tree_put.specs.Written.{WritesOnly};
ghost use Rattle.unit_stage.specs.Owned.{owns_units};
ghost use Rattle.unit_stage.specs.Steps.{CanLoad, IsLoadMoment, with_loaded};
ghost use Rattle.unit_stage.specs.System.{current_place, system_leaf};

use crate::system::current_path;
use host_trait::{HostFault, Leaf, Manager, Tree};
use std::alloc::Global;
use switch_names::SystemName;
use tree_put::put;

/// Puts the link to a system, once all that was changed before is kept beyond a loss of power.
fn put_current<T: Tree>(alloc: Global, host: &mut T, leaf: &Leaf) -> Result<(), HostFault>
    requires { Told (T.host host.old) (CanPut current_place) }
    ensures ok { OnOk result (Comes (T.host host.old) (T.host host.new) (with_leaf current_place leaf.now)) }
    ensures written { OnOk result (Leads (T.host host.old) (T.host host.new) (WritesOnly owns_units)) }
    ensures moments { Passes (T.host host.old) (T.host host.new) (IsOldOrNew current_place leaf.now) }
    ensures cause { HasCause (T.host host.old) (T.host host.new) result }
{
    let at = current_path(alloc)?;
    host.sync(alloc)?;
    put(alloc, host, &at, leaf)?;
    Ok(())
}

/// Puts the link to a system, and then loads its definitions. All that was changed before the link is kept beyond a
/// loss of power first.
pub fn load_system<H: Manager>(
    alloc: Global,
    host: &mut H,
    system: &SystemName,
    current: &Leaf,
) -> Result<(), HostFault>
    requires can { Told (H.host host.old) (CanLoad system.now) }
    requires current { current.now ≡ system_leaf system.now }
    ensures ok { OnOk result (Comes (H.host host.old) (H.host host.new) (with_loaded system.now)) }
    ensures written { OnOk result (Leads (H.host host.old) (H.host host.new) (WritesOnly owns_units)) }
    ensures moments { Passes (H.host host.old) (H.host host.new) (IsLoadMoment system.now) }
    ensures cause { HasCause (H.host host.old) (H.host host.new) result }
{
    put_current(alloc, host, current)?;
    host.daemon_reload(alloc)?;
    Ok(())
}
