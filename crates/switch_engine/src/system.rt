//! The file that each built system has.
ghost use Rattle.std.specs.Prelude.{◌≡◌, IfOk, length, option_map};
ghost use Rattle.boot_entries.specs.Entries.{version_path};
ghost use Rattle.host_trait.specs.Host.{Told};
ghost use Rattle.host_trait.specs.Reading.{IsReading};
ghost use Rattle.host_trait.specs.World.{content_of};

use boot_entries::version_path;
use host_trait::{HostFault, Tree, content};
use std::alloc::Global;
use switch_names::{Bytes, SystemName};

/// How many bytes a content has, where there is one.
fn length_of(content: &Option<Bytes>) -> Option<u64>
    ensures { result ≡ option_map length content.now }
{
    match content {
        Some(bytes) => Some(bytes.as_slice().len() as u64),
        None => None,
    }
}

/// How many bytes the file of a system has, where it has its file.
pub fn version_length<T: Tree>(
    alloc: Global,
    host: &mut T,
    system: &SystemName,
) -> Result<Option<u64>, HostFault>
    ensures length { IfOk result (λ count. Told (T.host host.old) (λ w. count ≡ option_map length (content_of w.leaves (version_path system.now)))) }
    ensures reads { IsReading (T.host host.old) (T.host host.new) result }
{
    let at = version_path(alloc, system)?;
    let version = content(alloc, host, &at)?;
    Ok(length_of(&version))
}
