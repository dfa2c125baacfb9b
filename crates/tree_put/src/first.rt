//! The first place in byte order that a leaf stands in the way of.
ghost use Rattle.std.specs.Prelude.{◌≡◌, IfOk, OnOk};
ghost use Rattle.std.specs.Option.{option_copied};
ghost use Rattle.host_trait.specs.Host.{Told};
ghost use Rattle.host_trait.specs.Reading.{IsReading};
ghost use Rattle.tree_put.specs.Found.{AreFound};
ghost use Rattle.tree_put.specs.WrittenPlace.{AreApartFromStage};
ghost use Rattle.tree_put.specs.First.{first_in_the_way, lesser};

use crate::found::Found;
use crate::written_place::{WrittenPlace, is_in_the_way};
use host_trait::{HostFault, Tree};
use std::alloc::{AllocError, Global};
use std::collections::BTreeMap;
use switch_names::Path;

/// The lesser of a path and of another, where there is one.
fn lesser(alloc: Global, at: &Path, other: Option<Path>) -> Result<Path, AllocError>
    ensures { IfOk result (λ path. path ≡ lesser at.now other) }
{
    match other {
        Some(other) if &other < at => Ok(other),
        _ => at.copy(alloc),
    }
}

/// The first of these places in byte order that a leaf stands in the way of, in whatever order they are told.
///
/// A leaf strictly above or below a place is in its way, and one without content where a content is read. What is found at a place
/// whose content is read is noted.
pub fn first_in_the_way<T: Tree>(
    alloc: Global,
    host: &mut T,
    findings: &mut BTreeMap<Path, Found>,
    places: &[WrittenPlace],
) -> Result<Option<Path>, HostFault>
    requires apart { AreApartFromStage places.now }
    requires found { Told (T.host host.old) (λ w. AreFound w.leaves findings.old) }
    ensures first { IfOk result (λ at. Told (T.host host.old) (λ w. at ≡ first_in_the_way places.now w.leaves)) }
    ensures found { OnOk result (Told (T.host host.old) (λ w. AreFound w.leaves findings.new)) }
    ensures reads { IsReading (T.host host.old) (T.host host.new) result }
{
    let mut first = None;
    for k in (0..places.len()).rev() {
        let place = &places[k];
        if is_in_the_way(alloc, host, findings, place)? {
            first = Some(lesser(alloc, &place.at, first)?);
        }
    }
    Ok(first)
}
