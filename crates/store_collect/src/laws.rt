//! What holds of a collection.
ghost use Rattle.store_collect.specs.Again.{AllowedLaw, CollectedAgainLaw, CutCollectionsLaw, LiveStaysLaw};
ghost use Rattle.store_collect.specs.Laws.{EntryLaw, LiveLaw, NamesLaw, OneCollectionLaw, VersionLaw, WholeLaw};

/// There is one collection of a world, and so one end of it.
///
/// Source: nix-collect-garbage(1).
pub fn there_is_one_collection()
    ensures one { OneCollectionLaw }
{}

/// At each moment of a collection that is planned nothing is lost that is live.
///
/// Source: nix-store(1), "--gc"; Nix manual, "Garbage Collector Roots".
pub fn nothing_live_is_lost()
    ensures live { LiveLaw }
{}

/// At each moment of a collection that is planned each generation that stands and names a system has all leaves of that.
///
/// Source: nix-store(1), "--gc"; Nix manual, "Garbage Collector Roots".
pub fn generations_stand_whole()
    ensures whole { WholeLaw }
{}

/// At each moment of a collection that is planned the profile names the system that it named.
///
/// Source: Nix manual, "Profiles".
pub fn the_profile_names_the_same_system()
    ensures names { NamesLaw }
{}

/// At each moment of a collection that is planned each store path whose version stands has all its leaves.
///
/// Source: nix-store(1), "--gc".
pub fn what_has_its_version_is_whole()
    ensures version { VersionLaw }
{}

/// At each moment of a collection that is planned each number of which a boot entry stands has the link of its generation
/// as it was, so that no entry outlasts its generation's link. (An entry whose number has no link goes before the first link.)
///
/// Source: Boot Loader Specification, "Type #1 Boot Loader Specification Entries"; Nix manual, "Profiles".
pub fn no_entry_outlasts_its_generation()
    ensures entry { EntryLaw }
{}

/// A collection that is cut at any of its moments and run again, to keep as many generations, ends as one that isn't cut.
///
/// Source: nix-collect-garbage(1).
pub fn a_collection_run_again_ends_alike()
    ensures again { CollectedAgainLaw }
{}

/// What is live in a world is so at each moment of its collection, by one of that moment that keeps as many generations, and
/// nothing else is. So `nothing_live_is_lost` holds from the first world on, however often a collection is cut.
///
/// Source: nix-store(1), "--gc"; Nix manual, "Garbage Collector Roots".
pub fn what_is_live_stays_so()
    ensures live { LiveStaysLaw }
{}

/// However often collections that keep as many generations are cut, each at any of its moments, the last leaves what one
/// leaves that isn't cut.
///
/// Source: nix-collect-garbage(1).
pub fn cut_collections_end_alike()
    ensures cuts { CutCollectionsLaw }
{}

/// At each moment of a collection that isn't refused none is refused that keeps as many generations, so that one which is cut
/// can be run again.
///
/// Source: nix-collect-garbage(1).
pub fn a_cut_collection_is_not_refused()
    ensures allowed { AllowedLaw }
{}
