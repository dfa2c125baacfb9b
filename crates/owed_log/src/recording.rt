//! Records lists.
ghost use Rattle.std.specs.Prelude.{◌≡◌, ◌<◌, IfOk, OnOk, length};
ghost use Rattle.host_trait.specs.Change.{Change, IsMoment, finished};
ghost use Rattle.host_trait.specs.Host.{Told, Leads, Becomes, Comes, Passes, HasCause};
ghost use Rattle.host_trait.specs.Leaf.{open_file};
ghost use Rattle.host_trait.specs.World.{IsFileAt, with_leaf};
ghost use Rattle.tree_put.specs.Put.{CanPut, IsOldOrNew};
ghost use Rattle.tree_put.specs.Written.{WritesOnly};
ghost use Rattle.owed_log.specs.Places.{is_owed_place, log_place};
ghost use Rattle.owed_log.specs.Writing.{CanWrite, IsFilled, IsRecordMoment, IsWriting, recorded, with_write};

use crate::log_write::LogWrite;
use crate::places::{log_path, old_paths};
use host_trait::{HostFault, Leaf, Tree};
use std::alloc::{AllocError, Global};
use switch_names::Bytes;
use tree_put::{drop_all, put};

/// Appends bytes to the log.
pub(crate) fn append_text<T: Tree>(
    alloc: Global,
    host: &mut T,
    text: &[u8],
) -> Result<(), HostFault>
    requires file { Told (T.host host.old) (λ w. IsFileAt w.leaves log_place) }
    requires some { 0 < length text.now }
    ensures ok { OnOk result (Becomes (T.host host.old) (T.host host.new) (finished (Change.Append log_place text.now))) }
    ensures written { OnOk result (Leads (T.host host.old) (T.host host.new) (WritesOnly is_owed_place)) }
    ensures moments { Passes (T.host host.old) (T.host host.new) (IsMoment (Change.Append log_place text.now)) }
    ensures cause { HasCause (T.host host.old) (T.host host.new) result }
{
    let at = log_path(alloc)?;
    host.append(alloc, &at, text)
}

/// The leaf of a log.
fn log_leaf(alloc: Global, text: &[u8]) -> Result<Leaf, AllocError>
    ensures { IfOk result (λ leaf. leaf ≡ open_file text.now) }
{
    let bytes = Bytes::from_slice(alloc, text)?;
    Ok(Leaf::open_file(bytes))
}

/// Puts a log of these bytes.
fn put_text<T: Tree>(alloc: Global, host: &mut T, text: &[u8]) -> Result<(), HostFault>
    requires { Told (T.host host.old) (CanPut log_place) }
    ensures ok { OnOk result (Comes (T.host host.old) (T.host host.new) (with_leaf log_place (open_file text.now))) }
    ensures written { OnOk result (Leads (T.host host.old) (T.host host.new) (WritesOnly is_owed_place)) }
    ensures moments { Passes (T.host host.old) (T.host host.new) (IsOldOrNew log_place (open_file text.now)) }
    ensures cause { HasCause (T.host host.old) (T.host host.new) result }
{
    let at = log_path(alloc)?;
    let leaf = log_leaf(alloc, text)?;
    put(alloc, host, &at, &leaf)
}

/// Writes the log.
fn write_log<T: Tree>(alloc: Global, host: &mut T, write: &LogWrite) -> Result<(), HostFault>
    requires can { Told (T.host host.old) (CanWrite write.now) }
    requires filled { IsFilled write.now }
    ensures ok { OnOk result (Comes (T.host host.old) (T.host host.new) (with_write write.now)) }
    ensures written { OnOk result (Leads (T.host host.old) (T.host host.new) (WritesOnly is_owed_place)) }
    ensures moments { Passes (T.host host.old) (T.host host.new) (IsWriting write.now) }
    ensures cause { HasCause (T.host host.old) (T.host host.new) result }
{
    match write {
        LogWrite::Nothing => Ok(()),
        LogWrite::Append(text) => {
            append_text(alloc, host, text.as_slice())?;
            Ok(())
        }
        LogWrite::Put(text) => {
            put_text(alloc, host, text.as_slice())?;
            Ok(())
        }
    }
}

/// Writes the log, and then removes the leaves of an older program's lists.
///
/// A cut leaves what stood, with any part of what is appended; or the log written, and the first of these leaves removed. What the
/// lists are then is told by the laws.
pub fn record<T: Tree>(alloc: Global, host: &mut T, write: &LogWrite) -> Result<(), HostFault>
    requires can { Told (T.host host.old) (CanWrite write.now) }
    requires filled { IsFilled write.now }
    ensures ok { OnOk result (Comes (T.host host.old) (T.host host.new) (recorded write.now)) }
    ensures written { OnOk result (Leads (T.host host.old) (T.host host.new) (WritesOnly is_owed_place)) }
    ensures moments { Passes (T.host host.old) (T.host host.new) (IsRecordMoment write.now) }
    ensures cause { HasCause (T.host host.old) (T.host host.new) result }
{
    let places = old_paths(alloc)?;
    write_log(alloc, host, write)?;
    drop_all(alloc, host, places.as_slice())?;
    Ok(())
}
