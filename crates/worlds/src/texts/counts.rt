//! How many units, entries below `/etc` and rows of accounts there are.
use accounts_stage::lines;
use host_memory::MemoryHost;
use std::alloc::Global;
use std::test::Fail;
use switch_names::{Bytes, SystemName};
use switch_parts::TableFile;
use world_text::{Lines, host_of};

/// Shows a number after the word for what it counts.
fn show_count(out: &mut Lines, word: &str, count: u64) {
    out.add_word(word);
    out.add_value(&count);
    out.end_line();
}

/// Shows how many lines of each table aren't empty.
fn show_tables(alloc: Global, out: &mut Lines, host: &mut MemoryHost) -> Result<(), Fail> {
    show_count(out, "group", lines(alloc, host, TableFile::Group)?);
    show_count(out, "passwd", lines(alloc, host, TableFile::Passwd)?);
    show_count(out, "shadow", lines(alloc, host, TableFile::Shadow)?);
    Ok(())
}

/// Shows how many units and entries the first system has, and how many rows the tables.
pub fn show_counts(alloc: Global, out: &mut Lines, places: &[Bytes]) -> Result<(), Fail> {
    let mut host = host_of(alloc, places)?;
    let system = SystemName::parse(alloc, "nix/store/a-sys")?;
    show_count(out, "units", unit_defs::count(alloc, &mut host, &system)?);
    show_count(
        out,
        "entries",
        etc_manifest::count(alloc, &mut host, &system)?,
    );
    show_tables(alloc, out, &mut host)
}
