//! Puts a farm of links and copies below `/etc`.
ghost use Rattle.std.specs.Prelude.{◌≡◌, ◌++◌, ◌∷◌, [], OnOk};
ghost use Rattle.host_trait.specs.Host.{Told, Comes, Leads, Passes, HasCause};
ghost use Rattle.tree_put.specs.Sequence.{IsPutting, with_puts};
ghost use Rattle.switch_parts.specs.Part.{IsAtEnd, final_leaf};
ghost use Rattle.switch_parts.specs.Quiet.{IsQuiet};
ghost use Rattle.etc_clean.specs.CleanList.{clean_name};
ghost use Rattle.etc_clean.specs.Names.{place};
ghost use Rattle.etc_farm.specs.FarmPart.{CanApply, farm_of, farm_part};
ghost use Rattle.etc_farm.specs.Making.{IsMaking};
ghost use Rattle.etc_farm.specs.Steps.{AreStanding, CanPutEntries, IsPrepared, puts_but};
ghost use Rattle.etc_farm.specs.Written.{WritesEntries, WritesLast, list_first};

use crate::entries::put_entries;
use crate::prepared::{Prepared, prepare};
use etc_clean::Sorted;
use etc_manifest::{Item, Manifest};
use host_trait::{HostFault, Tree};
use std::alloc::Global;
use switch_names::{Path, SystemName};
use tree_put::{LeafPut, drop_all, put_all, put_if_other};

/// Puts the entries that aren't blocked, but for those whose leaf stands already, and has all that was changed kept beyond a
/// loss of power.
fn put_entries_kept<T: Tree>(
    alloc: Global,
    host: &mut T,
    items: &[Item],
    blocked: &[Path],
    standing: &[Path],
) -> Result<(), HostFault>
    requires can { Told (T.host host.old) (CanPutEntries items.now blocked.now) }
    requires standing { Told (T.host host.old) (AreStanding items.now standing.now) }
    ensures ok { OnOk result (Comes (T.host host.old) (T.host host.new) (with_puts (puts_but blocked.now items.now))) }
    ensures written { OnOk result (Leads (T.host host.old) (T.host host.new) (WritesEntries items.now blocked.now standing.now)) }
    ensures moments { Passes (T.host host.old) (T.host host.new) (IsPutting (puts_but blocked.now items.now)) }
    ensures cause { HasCause (T.host host.old) (T.host host.new) result }
{
    put_entries(alloc, host, items, blocked, standing)?;
    host.sync(alloc)?;
    Ok(())
}

/// Puts the entries that aren't blocked, and then the last clean list, once all that was changed before
/// is kept beyond a loss of power.
///
/// A cut leaves the first so many of the entries, or all of them and either clean list.
fn finish<T: Tree>(
    alloc: Global,
    host: &mut T,
    items: &[Item],
    blocked: &[Path],
    standing: &[Path],
    list: &LeafPut,
) -> Result<(), HostFault>
    requires list { list.now.at ≡ place clean_name }
    requires can { Told (T.host host.old) (CanPutEntries items.now blocked.now) }
    requires standing { Told (T.host host.old) (AreStanding items.now standing.now) }
    ensures ok { OnOk result (Comes (T.host host.old) (T.host host.new) (with_puts (puts_but blocked.now items.now ++ list.now ∷ []))) }
    ensures written { OnOk result (Leads (T.host host.old) (T.host host.new) (WritesLast items.now blocked.now standing.now list.now)) }
    ensures moments { Passes (T.host host.old) (T.host host.new) (IsPutting (puts_but blocked.now items.now ++ list.now ∷ [])) }
    ensures cause { HasCause (T.host host.old) (T.host host.new) result }
{
    put_entries_kept(alloc, host, items, blocked, standing)?;
    put_if_other(alloc, host, &list.at, &list.leaf)?;
    Ok(())
}

/// Puts the farm of a system with what is prepared for it.
pub fn apply_prepared<T: Tree>(
    alloc: Global,
    host: &mut T,
    system: &SystemName,
    manifest: &Manifest,
    sorted: &Sorted,
    prepared: &Prepared,
) -> Result<(), HostFault>
    requires prepared { Told (T.host host.old) (λ w. IsPrepared (farm_of system.now manifest.now) sorted.now prepared.now) }
    requires can { Told (T.host host.old) (CanApply (farm_of system.now manifest.now) sorted.now) }
    ensures ok { OnOk result (Leads (T.host host.old) (T.host host.new) (IsAtEnd (farm_part (farm_of system.now manifest.now)))) }
    ensures quiet { OnOk result (Leads (T.host host.old) (T.host host.new) (IsQuiet (list_first manifest.now) (final_leaf (farm_part (farm_of system.now manifest.now))))) }
    ensures steps { Passes (T.host host.old) (T.host host.new) (IsMaking (farm_of system.now manifest.now)) }
    ensures cause { HasCause (T.host host.old) (T.host host.new) result }
{
    let items = manifest.items().as_slice();
    let blocked = sorted.blocked.as_slice();
    let standing = sorted.standing.as_slice();
    put_all(alloc, host, prepared.first())?;
    drop_all(alloc, host, prepared.gone())?;
    finish(alloc, host, items, blocked, standing, prepared.last())
}

/// Puts the farm of a system: the first clean list, the link at `static`, the removal of what is
/// gone, the entries that aren't blocked, and the last clean list.
///
/// A leaf that stands already is left alone, and each place but that of the clean list is written
/// at most once. A cut leaves the first so many of these steps, and no other leaf. By the law
/// `steps_are_moments` the farm's end is at each moment the one at the beginning, and each copied
/// or direct entry whose leaf has changed is on the clean list. All memory but that of leaves and
/// of host calls is taken before the first change. What stands before the last clean list is kept
/// beyond a loss of power before that is put, so that a copy that goes is on the list for as long
/// as it may stand.
///
/// Source: setup-etc.pl of nixpkgs.
pub fn apply<T: Tree>(
    alloc: Global,
    host: &mut T,
    system: &SystemName,
    manifest: &Manifest,
    sorted: &Sorted,
) -> Result<(), HostFault>
    requires { Told (T.host host.old) (CanApply (farm_of system.now manifest.now) sorted.now) }
    ensures ok { OnOk result (Leads (T.host host.old) (T.host host.new) (IsAtEnd (farm_part (farm_of system.now manifest.now)))) }
    ensures quiet { OnOk result (Leads (T.host host.old) (T.host host.new) (IsQuiet (list_first manifest.now) (final_leaf (farm_part (farm_of system.now manifest.now))))) }
    ensures steps { Passes (T.host host.old) (T.host host.new) (IsMaking (farm_of system.now manifest.now)) }
    ensures cause { HasCause (T.host host.old) (T.host host.new) result }
{
    let prepared = prepare(alloc, system, manifest, sorted)?;
    apply_prepared(alloc, host, system, manifest, sorted, &prepared)
}
