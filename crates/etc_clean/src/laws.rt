//! What holds of clean lists and of farms.
ghost use Rattle.etc_clean.specs.CleanList.{ReadBackLaw};
ghost use Rattle.etc_clean.specs.Keeps.{AgainLaw, AlikeLaw, EndLaw, FirstListLaw, LastListLaw, PutLaw, RemovalLaw, StaticLaw, StepsLaw, WholeLaw};

/// Names that a clean list can have are read as they were written.
///
/// Source: setup-etc.pl of nixpkgs.
pub fn clean_lists_are_read_as_written()
    ensures { ReadBackLaw }
{}

/// A tree that keeps what a farm looks at has the same end below `etc`, so that a switch which was
/// cut there and is run again leaves what the first would have left.
///
/// What is kept from one tree to the next is kept from the first to the last.
pub fn kept_farms_end_alike()
    ensures end { EndLaw }
    ensures whole { WholeLaw }
    ensures steps { StepsLaw }
{}

/// Each step of putting a farm keeps what it looks at: the first clean list, the link at `static`,
/// the removal of what is gone, an entry, and the last clean list once nothing is gone. So does what
/// changes elsewhere, and so does the farm's end, where no entry has a line feed: what was foreign is
/// so still, what was gone isn't there any more, and the clean list names entries alone.
///
/// Source: setup-etc.pl of nixpkgs.
pub fn farms_are_kept()
    ensures first_list { FirstListLaw }
    ensures fixed_link { StaticLaw }
    ensures removal { RemovalLaw }
    ensures put { PutLaw }
    ensures last_list { LastListLaw }
    ensures elsewhere { AlikeLaw }
    ensures again { AgainLaw }
{}
