//! What holds of everything that a switch owes.
ghost use Rattle.std.specs.Prelude.{◌≡◌, List, Option};
ghost use Rattle.host_trait.specs.declared.unit_state.State.{State};
ghost use Rattle.host_trait.specs.States.{UnitStates, state_of};
ghost use Rattle.host_trait.specs.World.{Leaves};
ghost use Rattle.owed_plan.specs.Called.{AfterLinkLaw};
ghost use Rattle.owed_plan.specs.Law.{IsSound, Law, ListLaw};
ghost use Rattle.owed_plan.specs.Linked.{LinkLaw, StopsFinalLaw};
ghost use Rattle.log_text.specs.declared.lists.Lists.{Lists};
ghost use Rattle.owed_plan.specs.declared.owed.Owed.{Owed};
ghost use Rattle.owed_plan.specs.Owed.{IsPlan};
ghost use Rattle.owed_plan.specs.Steady.{SteadyLaw};
ghost use Rattle.owed_plan.specs.Store.{SystemsLaw};
ghost use Rattle.owed_plan.specs.Systems.{AreOldDefs, Systems, systems_at, systems_in};
ghost use Rattle.switch_names.specs.Names.{Name};
ghost use Rattle.unit_defs.specs.declared.unit.Unit.{Unit};
ghost use Rattle.unit_defs.specs.Defs.{AreDefsOf};

/// What is owed is one collection of lists.
pub fn one_is_owed()
    ensures { (systems : Systems) (states : Name → State) (lists : Lists) (one other : Owed)
        → IsPlan systems states lists one → IsPlan systems states lists other → one ≡ other }
{}

/// Something is owed, whatever the units and the lists are.
pub fn something_is_owed()
    ensures { (leaves : Leaves) (old : Option Name) (new : Name) (states : UnitStates) (lists : Lists)
        → (owed : Owed) × IsPlan (systems_at leaves old new) (state_of states) lists owed }
{}

/// After a prefix of the stops, and with the lists recorded, the same is owed, but for what is
/// stopped already.
///
/// Source: NixOS manual, "Unit handling".
pub fn stops_keep_owed()
    ensures { Law }
{}

/// After a prefix of the stops, and with the lists recorded, the lists of what is owed are the same,
/// but for the stops, which are those of units that are still active.
pub fn stops_keep_lists()
    ensures { ListLaw }
{}

/// After a prefix of the stops, and with the lists recorded, what was steady is so still.
pub fn stops_stay_steady()
    ensures { SteadyLaw }
{}

/// Units are paired with sockets alone, and what is wanted is defined.
///
/// Source: systemd.service(5), "Sockets=", and systemd.unit(5), "Wants=".
pub fn systems_are_sound()
    ensures kept { (old new : List Unit) → IsSound (systems_in old new) }
    ensures standing { (leaves : Leaves) (old : Option Name) (new : Name) → IsSound (systems_at leaves old new) }
{}

/// The systems that are kept are those that stand in the leaves.
pub fn systems_kept_are_those_that_stand()
    ensures { (leaves : Leaves) (old : Option Name) (new : Name) (olds news : List Unit)
        → AreOldDefs leaves old olds → AreDefsOf leaves new news → systems_in olds news ≡ systems_at leaves old new }
{}

/// After the last stop, and with the lists recorded, the new system takes the place of the old one
/// with no change of what is owed, but that no unit is stopped.
///
/// Source: NixOS manual, "What happens during a system switch?".
pub fn link_moves()
    ensures { LinkLaw }
{}

/// At each moment of the reloads, restarts and starts nothing is owed but what was, and what isn't
/// paid is owed yet.
///
/// Source: NixOS manual, "Unit handling".
pub fn link_keeps_owed()
    ensures { AfterLinkLaw }
{}

/// After a prefix of the stops, and with the lists recorded, the units end in the same states.
pub fn stops_keep_final_states()
    ensures { StopsFinalLaw }
{}

/// Systems in the store are the same in each tree that has the same there.
///
/// Source: Nix manual, "Nix Store".
pub fn systems_stand_in_the_store()
    ensures { SystemsLaw }
{}
