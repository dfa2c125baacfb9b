//! Clears one of the lists.
ghost use Rattle.std.specs.Prelude.{◌≢◌, [], OnOk};
ghost use Rattle.host_trait.specs.Change.{Change, IsMoment, finished};
ghost use Rattle.host_trait.specs.Host.{Told, Leads, Becomes, Passes, HasCause};
ghost use Rattle.host_trait.specs.World.{IsFileAt};
ghost use Rattle.log_text.specs.declared.lists.Which.TheVariants.{Starts};
ghost use Rattle.log_text.specs.Lists.{block_of};
ghost use Rattle.log_text.specs.Log.{block_text};
ghost use Rattle.tree_put.specs.Written.{WritesOnly};
ghost use Rattle.owed_log.specs.Places.{is_owed_place, log_place};
ghost use Rattle.owed_log.specs.Writing.{clearing};

use crate::places::log_path;
use crate::recording::append_text;
use host_trait::{HostFault, Tree};
use log_text::{Which, cleared_text};
use std::alloc::Global;

/// Appends a block without names.
fn append_block<T: Tree>(alloc: Global, host: &mut T, which: Which) -> Result<(), HostFault>
    requires { Told (T.host host.old) (λ w. IsFileAt w.leaves log_place) }
    ensures ok { OnOk result (Becomes (T.host host.old) (T.host host.new) (finished (Change.Append log_place (block_text (block_of which []))))) }
    ensures written { OnOk result (Leads (T.host host.old) (T.host host.new) (WritesOnly is_owed_place)) }
    ensures moments { Passes (T.host host.old) (T.host host.new) (IsMoment (Change.Append log_place (block_text (block_of which [])))) }
    ensures cause { HasCause (T.host host.old) (T.host host.new) result }
{
    let text = cleared_text(alloc, which)?;
    append_text(alloc, host, text.as_slice())
}

/// Removes the log.
fn remove_log<T: Tree>(alloc: Global, host: &mut T) -> Result<(), HostFault>
    ensures ok { OnOk result (Becomes (T.host host.old) (T.host host.new) (finished (Change.Remove log_place))) }
    ensures written { OnOk result (Leads (T.host host.old) (T.host host.new) (WritesOnly is_owed_place)) }
    ensures moments { Passes (T.host host.old) (T.host host.new) (IsMoment (Change.Remove log_place)) }
    ensures cause { HasCause (T.host host.old) (T.host host.new) result }
{
    let at = log_path(alloc)?;
    host.remove(alloc, &at)
}

/// Clears one of the lists: the units to start, which are the last, go with the log, and another list gets a block without names
/// behind the log's bytes.
///
/// A cut leaves what stood, with any part of the block. What the lists are then is told by the laws.
pub fn clear<T: Tree>(alloc: Global, host: &mut T, which: Which) -> Result<(), HostFault>
    requires file { which ≢ Starts → Told (T.host host.old) (λ w. IsFileAt w.leaves log_place) }
    ensures ok { OnOk result (Becomes (T.host host.old) (T.host host.new) (finished (clearing which))) }
    ensures written { OnOk result (Leads (T.host host.old) (T.host host.new) (WritesOnly is_owed_place)) }
    ensures moments { Passes (T.host host.old) (T.host host.new) (IsMoment (clearing which)) }
    ensures cause { HasCause (T.host host.old) (T.host host.new) result }
{
    match which {
        Which::Starts => remove_log(alloc, host),
        other => append_block(alloc, host, other),
    }
}
