//! Refusals in words.
ghost use Rattle.std.specs.Prelude.{◌≡◌, ◌++◌, codes, IfOk, string_bytes};
ghost use Rattle.switch_run.specs.RefusalTexts.{key_text, keyed_text, map_text, place_text, refusal_text, spec_text, table_text, what_text};

use std::alloc::{AllocError, Global};
use switch_engine::{MapFile, Refusal, TableFile, What};
use users_spec::{Place, SpecFault};

/// A place of an account specification in words.
fn place_text(alloc: Global, place: Place) -> Result<String, AllocError>
    ensures { IfOk result (λ text. string_bytes text ≡ place_text place) }
{
    match place {
        Place::Top => String::from_str(alloc, "top"),
        Place::User(number) => format!(in alloc; "users[{number}]"),
        Place::Group(number) => format!(in alloc; "groups[{number}]"),
    }
}

/// A key of a place behind the place, in words.
fn keyed_text(alloc: Global, place: Place, key: &str) -> Result<String, AllocError>
    ensures { IfOk result (λ text. string_bytes text ≡ keyed_text place key.now) }
{
    match place {
        Place::Top => String::from_str(alloc, key),
        Place::User(_) | Place::Group(_) => {
            let place = place_text(alloc, place)?;
            format!(in alloc; "{}.{key}", place.as_str())
        }
    }
}

/// A key of a place in words, and without a key the place.
fn key_text(alloc: Global, place: Place, key: &str) -> Result<String, AllocError>
    ensures { IfOk result (λ text. string_bytes text ≡ key_text place key.now) }
{
    if key.is_empty() {
        return place_text(alloc, place);
    }
    keyed_text(alloc, place, key)
}

/// What is wrong with an account specification, in words.
fn spec_text(alloc: Global, fault: &SpecFault) -> Result<String, AllocError>
    ensures { IfOk result (λ text. string_bytes text ≡ spec_text fault.now) }
{
    match fault {
        SpecFault::Json => String::from_str(alloc, "not JSON"),
        SpecFault::Field(place, key) => key_text(alloc, *place, key.as_str()),
        SpecFault::Twice(name) => format!(in alloc; "twice {}", name.as_str()),
        SpecFault::Name(place) => {
            let place = place_text(alloc, *place)?;
            format!(in alloc; "name of {}", place.as_str())
        }
        SpecFault::Memory => String::from_str(alloc, "no memory"),
    }
}

/// The name of a table.
fn table_text(file: TableFile) -> &'static str
    ensures { result.now ≡ table_text file }
{
    match file {
        TableFile::Group => "group",
        TableFile::Passwd => "passwd",
        TableFile::Shadow => "shadow",
    }
}

/// The name of a map of ids.
fn map_text(file: MapFile) -> &'static str
    ensures { result.now ≡ map_text file }
{
    match file {
        MapFile::Uid => "uid-map",
        MapFile::Gid => "gid-map",
    }
}

/// What there can be too much of, in words.
fn what_text(what: What) -> &'static str
    ensures { result.now ≡ what_text what }
{
    match what {
        What::Units => "units",
        What::Entries => "entries",
        What::Rows => "rows",
        What::LeafBytes => "bytes",
    }
}

/// A user and its group, which nothing is known of, in words.
fn unknown_group_text(alloc: Global, user: &str, group: &str) -> Result<String, AllocError>
    ensures { IfOk result (λ text. string_bytes text ≡ codes "user " ++ (user.now ++ (codes " has unknown group " ++ group.now))) }
{
    format!(in alloc; "user {user} has unknown group {group}")
}

/// A refusal in words.
pub fn refusal_text(alloc: Global, refusal: &Refusal) -> Result<String, AllocError>
    ensures { IfOk result (λ text. string_bytes text ≡ refusal_text refusal.now) }
{
    match refusal {
        Refusal::NoPrevious => String::from_str(alloc, "no previous generation"),
        Refusal::NoSystem => String::from_str(alloc, "no such system"),
        Refusal::TooMany { what, count } => {
            format!(in alloc; "too many: {} {count}", what_text(*what))
        }
        Refusal::InTheWay(path) => format!(in alloc; "in the way: {}", path.as_str()),
        Refusal::UnitText { unit, line } => format!(in alloc; "unit {} line {line}", unit.as_str()),
        Refusal::UsersSpec(fault) => {
            let why = spec_text(alloc, fault)?;
            format!(in alloc; "users specification: {}", why.as_str())
        }
        Refusal::Table { file, line } => {
            format!(in alloc; "table {} line {line}", table_text(*file))
        }
        Refusal::IdMap(file) => format!(in alloc; "id map {}", map_text(*file)),
        Refusal::NoFreeId(name) => format!(in alloc; "no free id for {}", name.as_str()),
        Refusal::UnknownGroup { user, group } => {
            unknown_group_text(alloc, user.as_str(), group.as_str())
        }
        Refusal::Reserved(path) => format!(in alloc; "reserved {}", path.as_str()),
        Refusal::EtcEntry(path) => format!(in alloc; "etc entry {}", path.as_str()),
        Refusal::Owner(path) => format!(in alloc; "owner of {}", path.as_str()),
        Refusal::GenerationsFull => String::from_str(alloc, "no further generation"),
        Refusal::NoProfile => String::from_str(alloc, "no profile"),
        Refusal::Unfinished => String::from_str(alloc, "a switch is unfinished"),
    }
}
