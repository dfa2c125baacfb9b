//! Notes where a content that is read is too long.
ghost use Rattle.std.specs.Prelude.{◌≡◌, IfOk, OnOk};
ghost use Rattle.host_trait.specs.Host.{Told};
ghost use Rattle.host_trait.specs.Reading.{IsReading};
ghost use Rattle.host_trait.specs.World.{content_of};
ghost use Rattle.switch_names.specs.Names.{is_name};
ghost use Rattle.unit_defs.specs.Taken.{NotesLong};

use host_trait::{HostFault, Tree, content};
use leaf_limits::is_long;
use std::alloc::Global;
use switch_names::{Bytes, Path};

/// The content at a path, as `host_trait::content` gives it. Where it has more than 16 MiB, that is noted.
pub fn content_measured<T: Tree>(
    alloc: Global,
    host: &mut T,
    at: &Path,
    long: &mut bool,
) -> Result<Option<Bytes>, HostFault>
    ensures content { IfOk result (λ bytes. Told (T.host host.old) (λ w. bytes ≡ content_of w.leaves at.now)) }
    ensures short { OnOk result (Told (T.host host.old) (λ w. NotesLong long.old long.new (λ q. is_name q at.now) w.leaves)) }
    ensures reads { IsReading (T.host host.old) (T.host host.new) result }
{
    let content = content(alloc, host, at)?;
    *long |= is_long(&content);
    Ok(content)
}
