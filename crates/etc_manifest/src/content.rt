//! Contents that aren't longer than may be read.
ghost use Rattle.std.specs.Prelude.{◌≡◌, IfOk};
ghost use Rattle.host_trait.specs.Host.{Told};
ghost use Rattle.host_trait.specs.Reading.{IsReading};
ghost use Rattle.host_trait.specs.World.{file_at, store_place};
ghost use Rattle.leaf_limits.specs.Limits.{is_long, is_long_content};
ghost use Rattle.etc_manifest.specs.Companion.{short_content};

use host_trait::{HostFault, Tree, content, store_content};
use leaf_limits::is_long;
use std::alloc::Global;
use switch_names::{Bytes, Path};

/// Whether the content at a path is longer than may be read.
pub fn is_long_at<T: Tree>(alloc: Global, host: &mut T, at: &Path) -> Result<bool, HostFault>
    ensures long { IfOk result (λ long. Told (T.host host.old) (λ w. long ≡ is_long w.leaves at.now)) }
    ensures reads { IsReading (T.host host.old) (T.host host.new) result }
{
    let content = content(alloc, host, at)?;
    Ok(is_long(&content))
}

/// The content at a path, where it isn't longer than may be read.
pub fn short_content<T: Tree>(
    alloc: Global,
    host: &mut T,
    at: &Path,
) -> Result<Option<Bytes>, HostFault>
    ensures content { IfOk result (λ bytes. Told (T.host host.old) (λ w. bytes ≡ short_content w.leaves at.now)) }
    ensures reads { IsReading (T.host host.old) (T.host host.new) result }
{
    let content = content(alloc, host, at)?;
    if is_long(&content) {
        return Ok(None);
    }
    Ok(content)
}

/// Whether the file in the store that a link leads to is longer than may be read.
pub fn is_target_long<T: Tree>(alloc: Global, host: &mut T, target: &str) -> Result<bool, HostFault>
    ensures long { IfOk result (λ long. Told (T.host host.old) (λ w. long ≡ is_long_content (file_at w.leaves (store_place target.now)))) }
    ensures reads { IsReading (T.host host.old) (T.host host.new) result }
{
    let content = store_content(alloc, host, target)?;
    Ok(is_long(&content))
}
