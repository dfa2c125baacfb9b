//! The farm as a part of a switch.
ghost use Rattle.switch_parts.specs.Part.{IsPart};
ghost use Rattle.etc_clean.specs.Etc.{Farm};
ghost use Rattle.etc_clean.specs.Keeps.{AreFree};
ghost use Rattle.etc_farm.specs.EtcPart.{EtcAgainLaw, EtcPartLaw, EtcPlanLaw};
ghost use Rattle.etc_farm.specs.FarmPart.{FarmAgainLaw, farm_part};
ghost use Rattle.etc_farm.specs.Making.{EntryLeafLaw, FixedLinkLaw, LeavesLaw, MakingLaw};
ghost use Rattle.etc_farm.specs.Runs.{EtcRunLaw, ForeignLaw, KnownLaw, ListedLaw};

/// The part that puts a farm of which no entry is reserved is one: what its moments keep is kept
/// whatever else changes, and is enough to put the farm again.
pub fn the_farm_is_a_part()
    ensures { (farm : Farm) → AreFree farm.items → IsPart (farm_part farm) }
{}

/// Making `/etc` what a system wants is a part: what its moments keep is kept whatever else changes,
/// and is enough to make it again. A plan stays one where nothing has changed that the part looks at.
pub fn etc_is_a_part()
    ensures part { EtcPartLaw }
    ensures plans_stay { EtcPlanLaw }
{}

/// Where a farm stands, and nothing else has changed that it looks at, putting it again leaves what
/// stands; and so it is of making `/etc` what a system wants. What is foreign stays foreign, what was gone
/// isn't there any more, and the clean list has the entries alone.
///
/// Source: setup-etc.pl of nixpkgs.
pub fn what_was_made_stays()
    ensures farm { FarmAgainLaw }
    ensures etc { EtcAgainLaw }
{}

/// Each moment at a step of putting a farm is one of its part, wherever the farm can be put.
///
/// Source: setup-etc.pl of nixpkgs.
pub fn steps_are_moments()
    ensures { MakingLaw }
{}

/// However often runs are cut, a copied or direct entry that isn't blocked and whose leaf has
/// changed since the first is on the clean list.
///
/// Source: setup-etc.pl of nixpkgs.
pub fn cut_runs_list_copies()
    ensures { ListedLaw }
{}

/// However often switches of whatever systems are cut, one after another, a leaf below `/etc` that no
/// longer is that of the first world is none, a link into `/etc/static`, or on the clean list. So a
/// later switch of another system takes no copy of ours for a foreign leaf. Each moment of making
/// `/etc` as planned is one of such a switch.
///
/// Source: setup-etc.pl of nixpkgs.
pub fn what_was_put_stays_known()
    ensures runs { EtcRunLaw }
    ensures known { KnownLaw }
    ensures foreign { ForeignLaw }
{}

/// At each moment of putting a farm a name below `/etc` has its leaf of before, or the one that a
/// step puts there, or none where it is gone. So an entry has its leaf of before or its own, and the
/// link at `static` is never away where it stood.
///
/// Source: setup-etc.pl of nixpkgs.
pub fn no_other_leaf_stands()
    ensures leaves { LeavesLaw }
    ensures entries { EntryLeafLaw }
    ensures fixed_link { FixedLinkLaw }
{}
