//! What holds at each moment of a switch of the units.
ghost use Rattle.unit_stage.specs.Laws.{FreeLaw, OneLengthLaw, SomeLengthLaw, SteadyLogLaw, UnderwayLaw, UnitMomentLaw, UnitsPartLaw};

/// At each moment of a switch nothing is in the way that wasn't at its beginning.
pub fn nothing_gets_in_the_way()
    ensures { FreeLaw }
{}

/// At each moment of a switch from a steady world the switch is underway: it leaves the same, and
/// what is owed is paid or still owed.
///
/// Source: NixOS manual, "Unit handling".
pub fn switch_is_underway()
    ensures { UnderwayLaw }
{}

/// What is about the units is a part of a switch.
pub fn units_are_a_part()
    ensures { UnitsPartLaw }
{}

/// A moment at which nothing else has changed is a moment of the units' part.
pub fn moments_are_of_the_part()
    ensures { UnitMomentLaw }
{}

/// A world has one length of the log that records what is owed.
pub fn one_length_of_the_log()
    ensures { OneLengthLaw }
{}

/// Each world has one.
pub fn each_world_has_a_length_of_the_log()
    ensures { SomeLengthLaw }
{}

/// In a steady world that log can be read again.
pub fn a_steady_log_is_short()
    ensures { SteadyLogLaw }
{}
