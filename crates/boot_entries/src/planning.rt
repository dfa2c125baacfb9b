//! Plans the boot menu of generations.
ghost use Rattle.std.specs.Prelude.{◌≡◌, ◌++◌, ◌∷◌, [], List, IfOk, OnOk, option_map, option_to_list, unwrap_or};
ghost use Rattle.std.specs.List.{flat_map};
ghost use Rattle.host_trait.specs.Host.{Told};
ghost use Rattle.host_trait.specs.Reading.{IsReading};
ghost use Rattle.leaf_limits.specs.Limits.{IsFirstOf};
ghost use Rattle.switch_names.specs.Names.{Name};
ghost use Rattle.boot_entries.specs.Entries.{entry_text, first_line, line_at, loader_text};
ghost use Rattle.boot_entries.specs.Places.{entry_path};
ghost use Rattle.boot_entries.specs.Sources.{files_of, sources_of, taken_of};
ghost use Rattle.boot_entries.specs.Steps.{AreEntries, IsEntryPlace};
ghost use Rattle.boot_entries.specs.Texts.{boot_file, entries_of, entry_if, entry_of, menu_of};

use crate::boot_texts::{BootFile, BootTexts};
use crate::entry::{entry_path, entry_text, first_line, loader_text, params_path, version_path};
use crate::gone::read_gone;
use generations::{Gen, Gens};
use host_trait::{HostFault, Tree};
use leaf_limits::{TooLong, content_noted};
use std::alloc::{AllocError, Global};
use switch_names::{Bytes, Listed, Path, SystemName};

/// The first line of a text, and no bytes where there is none.
fn line_of(alloc: Global, text: Option<Bytes>) -> Result<Bytes, AllocError>
    ensures { IfOk result (λ line. line ≡ first_line (unwrap_or text [])) }
{
    match text {
        Some(text) => Bytes::from_slice(alloc, first_line(text.as_slice())),
        None => Bytes::from_slice(alloc, b""),
    }
}

/// The first line of what stands at a place.
fn read_line<T: Tree>(
    alloc: Global,
    host: &mut T,
    at: &Path,
    long: &mut Option<TooLong>,
) -> Result<Bytes, HostFault>
    ensures line { IfOk result (λ line. Told (T.host host.old) (λ w. line ≡ line_at w.leaves at.now)) }
    ensures noted { (done : List Name) → Told (T.host host.old) (λ w. IsFirstOf done w.leaves long.old → OnOk result (IsFirstOf (done ++ at.now ∷ []) w.leaves long.new)) }
    ensures reads { IsReading (T.host host.old) (T.host host.new) result }
{
    let text = content_noted(alloc, host, at, long)?;
    let line = line_of(alloc, text)?;
    Ok(line)
}

/// The entry of a generation that names a system, given the first lines of two of its files.
fn make_entry(
    alloc: Global,
    number: u32,
    system: &SystemName,
    version: &Bytes,
    params: &Bytes,
) -> Result<BootFile, AllocError>
    ensures place { IfOk result (λ file. IsEntryPlace file.at) }
    ensures file { IfOk result (λ file. file ≡ boot_file (entry_path number) (entry_text number system.now version.now params.now)) }
{
    let at = entry_path(alloc, number)?;
    let bytes = entry_text(alloc, number, system, version.as_slice(), params.as_slice())?;
    Ok(BootFile { at, bytes })
}

/// The entry of a generation that names a system.
fn read_entry<T: Tree>(
    alloc: Global,
    host: &mut T,
    number: u32,
    system: &SystemName,
    long: &mut Option<TooLong>,
) -> Result<BootFile, HostFault>
    ensures place { IfOk result (λ file. IsEntryPlace file.at) }
    ensures entry { IfOk result (λ file. Told (T.host host.old) (λ w. file ≡ entry_of w.leaves number system.now)) }
    ensures noted { (done : List Name) → Told (T.host host.old) (λ w. IsFirstOf done w.leaves long.old → OnOk result (IsFirstOf (done ++ files_of system.now) w.leaves long.new)) }
    ensures reads { IsReading (T.host host.old) (T.host host.new) result }
{
    let version_at = version_path(alloc, system)?;
    let params_at = params_path(alloc, system)?;
    let version = read_line(alloc, host, &version_at, long)?;
    let params = read_line(alloc, host, &params_at, long)?;
    let entry = make_entry(alloc, number, system, &version, &params)?;
    Ok(entry)
}

/// Adds the entry of a generation, where it names a system.
fn add_entry<T: Tree>(
    alloc: Global,
    host: &mut T,
    entries: &mut Listed<BootFile>,
    generation: &Gen,
    long: &mut Option<TooLong>,
) -> Result<(), HostFault>
    ensures places { AreEntries entries.old → OnOk result (AreEntries entries.new) }
    ensures entries { OnOk result (Told (T.host host.old) (λ w. entries.new ≡ entries.old ++ option_to_list (entry_if w.leaves generation.now))) }
    ensures noted { (done : List Name) → Told (T.host host.old) (λ w. IsFirstOf done w.leaves long.old → OnOk result (IsFirstOf (done ++ sources_of generation.now) w.leaves long.new)) }
    ensures reads { IsReading (T.host host.old) (T.host host.new) result }
{
    let Some(system) = &generation.target else {
        return Ok(());
    };
    let entry = read_entry(alloc, host, generation.number, system, long)?;
    entries.push(entry)?;
    Ok(())
}

/// The entries of some generations, in their order.
fn read_entries<T: Tree>(
    alloc: Global,
    host: &mut T,
    list: &[Gen],
    long: &mut Option<TooLong>,
) -> Result<Listed<BootFile>, HostFault>
    ensures places { IfOk result AreEntries }
    ensures entries { IfOk result (λ entries. Told (T.host host.old) (λ w. entries ≡ entries_of w.leaves list.now)) }
    ensures noted { (done : List Name) → Told (T.host host.old) (λ w. IsFirstOf done w.leaves long.old → OnOk result (IsFirstOf (done ++ flat_map sources_of list.now) w.leaves long.new)) }
    ensures reads { IsReading (T.host host.old) (T.host host.new) result }
{
    let mut entries = Listed::new(alloc);
    for generation in list {
        add_entry(alloc, host, &mut entries, generation, long)?;
    }
    Ok(entries)
}

/// The text that names the entry of the current generation, where there is one.
fn loader_of(alloc: Global, current: Option<u32>) -> Result<Option<Bytes>, AllocError>
    ensures { IfOk result (λ loader. loader ≡ option_map loader_text current) }
{
    match current {
        Some(number) => Ok(Some(loader_text(alloc, number)?)),
        None => Ok(None),
    }
}

/// The boot menu of these generations: an entry for each that names a system, the text that boots
/// the current one, where there is one, and the entries that go. Of the files that it is made of it
/// notes the first in byte order that is too long, where that stands before the one that was noted.
///
/// It reads two files of each system once, and lists the folder of the entries once. An entry goes
/// where its name has a number and no generation with that number names a system.
///
/// Source: Boot Loader Specification, "Type #1 Boot Loader Specification Entries"; loader.conf(5).
pub fn texts_noted<T: Tree>(
    alloc: Global,
    host: &mut T,
    gens: &Gens,
    long: &mut Option<TooLong>,
) -> Result<BootTexts, HostFault>
    ensures places { IfOk result (λ texts. AreEntries texts.entries) }
    ensures texts { IfOk result (λ texts. Told (T.host host.old) (λ w. texts ≡ menu_of gens.now w.leaves)) }
    ensures noted { (done : List Name) → Told (T.host host.old) (λ w. IsFirstOf done w.leaves long.old → OnOk result (IsFirstOf (done ++ taken_of gens.now) w.leaves long.new)) }
    ensures reads { IsReading (T.host host.old) (T.host host.new) result }
{
    let entries = read_entries(alloc, host, gens.list.as_slice(), long)?;
    let gone = read_gone(alloc, host, gens.list.as_slice())?;
    let loader = loader_of(alloc, gens.current)?;
    Ok(BootTexts {
        gone,
        entries,
        loader,
    })
}

/// The boot menu of these generations, as `texts_noted` makes it, however long the files are.
pub fn texts<T: Tree>(alloc: Global, host: &mut T, gens: &Gens) -> Result<BootTexts, HostFault>
    ensures places { IfOk result (λ texts. AreEntries texts.entries) }
    ensures texts { IfOk result (λ texts. Told (T.host host.old) (λ w. texts ≡ menu_of gens.now w.leaves)) }
    ensures reads { IsReading (T.host host.old) (T.host host.new) result }
{
    let mut long = None;
    texts_noted(alloc, host, gens, &mut long)
}
