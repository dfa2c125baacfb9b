//! Puts and removes the files of a boot menu that is planned.
ghost use Rattle.std.specs.Prelude.{◌≡◌, IfOk, OnOk, map};
ghost use Rattle.host_trait.specs.Host.{Becomes, Comes, HasCause, Leads, Passes, Told};
ghost use Rattle.tree_put.specs.Sequence.{IsPutting, IsRemoving, with_puts, without_places};
ghost use Rattle.tree_put.specs.Written.{WritesOnly};
ghost use Rattle.boot_entries.specs.Places.{owns_boot};
ghost use Rattle.boot_entries.specs.Steps.{AreEntries, CanApplyBoot, IsBootMoment, IsBootSet, boot_put, boot_puts, loader_files};
ghost use Rattle.boot_entries.specs.Texts.{boot_file};

use crate::boot_texts::{BootFile, BootTexts};
use crate::entry::loader_path;
use host_trait::{HostFault, Leaf, Tree};
use std::alloc::{AllocError, Global};
use switch_names::{Bytes, Listed, Path};
use switch_parts::put_kept;
use tree_put::{LeafPut, drop_all};

/// A file of mode 0644 that root owns, put at a place.
fn file_at(alloc: Global, at: Path, bytes: &Bytes) -> Result<LeafPut, AllocError>
    ensures { IfOk result (λ put. put ≡ boot_put (boot_file at bytes.now)) }
{
    let leaf = Leaf::open_file(bytes.copy(alloc)?);
    Ok(LeafPut { at, leaf })
}

/// The puts of entries, in their order.
fn entry_puts(alloc: Global, entries: &[BootFile]) -> Result<Listed<LeafPut>, AllocError>
    ensures { IfOk result (λ puts. puts ≡ map boot_put entries.now) }
{
    let mut puts = Listed::new(alloc);
    for entry in entries {
        let at = entry.at.copy(alloc)?;
        puts.push(file_at(alloc, at, &entry.bytes)?)?;
    }
    Ok(puts)
}

/// The put of what the boot loader reads first, where there is one.
fn loader_puts(alloc: Global, loader: &Option<Bytes>) -> Result<Listed<LeafPut>, AllocError>
    ensures { IfOk result (λ puts. puts ≡ map boot_put (loader_files loader.now)) }
{
    let mut puts = Listed::new(alloc);
    if let Some(text) = loader {
        let at = loader_path(alloc)?;
        puts.push(file_at(alloc, at, text)?)?;
    }
    Ok(puts)
}

/// Removes the leaves at some places, one after the other, and has that kept beyond a loss of power.
fn drop_kept<T: Tree>(alloc: Global, host: &mut T, places: &[Path]) -> Result<(), HostFault>
    ensures ok { OnOk result (Becomes (T.host host.old) (T.host host.new) (without_places places.now)) }
    ensures moments { Passes (T.host host.old) (T.host host.new) (IsRemoving places.now) }
    ensures cause { HasCause (T.host host.old) (T.host host.new) result }
{
    drop_all(alloc, host, places)?;
    host.sync(alloc)?;
    Ok(())
}

/// Puts the entries by ascending number, and then what the boot loader reads first.
fn put_menu<T: Tree>(alloc: Global, host: &mut T, texts: &BootTexts) -> Result<(), HostFault>
    requires places { AreEntries texts.now.entries }
    requires can { Told (T.host host.old) (CanApplyBoot texts.now) }
    ensures ok { OnOk result (Comes (T.host host.old) (T.host host.new) (with_puts (boot_puts texts.now))) }
    ensures written { OnOk result (Leads (T.host host.old) (T.host host.new) (WritesOnly owns_boot)) }
    ensures moments { Passes (T.host host.old) (T.host host.new) (IsPutting (boot_puts texts.now)) }
    ensures cause { HasCause (T.host host.old) (T.host host.new) result }
{
    let entries = entry_puts(alloc, texts.entries.as_slice())?;
    let loader = loader_puts(alloc, &texts.loader)?;
    put_kept(alloc, host, entries.as_slice())?;
    put_kept(alloc, host, loader.as_slice())?;
    Ok(())
}

/// Makes the boot menu that is planned: puts the entries by ascending number, then what the boot
/// loader reads first, and then removes the entries that go.
///
/// A leaf that stands already is left alone. At each moment the world is, but for the stage, the
/// one after the first so many of these steps. All memory but that of host calls is taken before
/// the first change. The entries are kept beyond a loss of power before what the boot loader reads first
/// is put, and that before an entry goes, so that it names an entry that stands.
///
/// Source: Boot Loader Specification, "Type #1 Boot Loader Specification Entries"; loader.conf(5).
pub fn apply<T: Tree>(alloc: Global, host: &mut T, texts: &BootTexts) -> Result<(), HostFault>
    requires places { AreEntries texts.now.entries }
    requires can { Told (T.host host.old) (CanApplyBoot texts.now) }
    ensures ok { OnOk result (Leads (T.host host.old) (T.host host.new) (IsBootSet texts.now)) }
    ensures written { OnOk result (Leads (T.host host.old) (T.host host.new) (WritesOnly owns_boot)) }
    ensures moments { Passes (T.host host.old) (T.host host.new) (IsBootMoment texts.now) }
    ensures cause { HasCause (T.host host.old) (T.host host.new) result }
{
    put_menu(alloc, host, texts)?;
    drop_kept(alloc, host, texts.gone.as_slice())?;
    Ok(())
}
