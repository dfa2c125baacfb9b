//! What holds of runs that are cut and made again.
ghost use Rattle.std.specs.Prelude.{◌≡◌, ◌⊎◌, ℕ, List, [], false};
ghost use Rattle.host_trait.specs.World.{WorldState};
ghost use Rattle.store_collect.specs.Again.{IsCollected};
ghost use Rattle.switch_engine.specs.Commands.{goes_back};
ghost use Rattle.switch_engine.specs.Moments.{HasComeBackIn};
ghost use Rattle.switch_engine.specs.Owing.{IsOver};
ghost use Rattle.switch_run.specs.Collecting.{CollectionsLead};
ghost use Rattle.switch_run.specs.Reboots.{RebootsLaw};
ghost use Rattle.switch_run.specs.Runs.{LooksAlike, MayBeCut, RunsLead};

/// At whatever moments runs of the same words are cut, and however often, the one that then comes to its end leaves what a
/// run leaves that isn't cut: the same leaves, states of units and loaded definitions. Each unit that was owed something
/// has got it under the new definitions, and no unit was touched that was owed nothing.
///
/// Between the runs nobody else changes the world. A cut is the end of the process, a fault of the host or want of memory.
/// This is about each command that changes something but a rollback, of which `cut_rollbacks_end_as_one` speaks.
pub fn cut_runs_end_as_one()
    ensures alike { (words : List (List ℕ)) (cuts : List WorldState) (first last uncut : WorldState) → (may : MayBeCut words first)
        → goes_back may.command first.leaves ≡ false → RunsLead words cuts first last → RunsLead words [] first uncut → LooksAlike last uncut }
    ensures over { (words : List (List ℕ)) (cuts : List WorldState) (first last : WorldState) → (may : MayBeCut words first)
        → goes_back may.command first.leaves ≡ false → RunsLead words cuts first last → IsOver may.command first last }
{}

/// However often rollbacks are cut, the one that then comes to its end leaves what one leaves that isn't cut, and so for
/// what the units were owed; or one of them was cut when it had done all that, and had removed its goal: then the next one
/// has begun anew, one generation further back.
pub fn cut_rollbacks_end_as_one()
    ensures { (words : List (List ℕ)) (cuts : List WorldState) (first last : WorldState) → (may : MayBeCut words first)
        → RunsLead words cuts first last → IsOver may.command first last ⊎ HasComeBackIn may.command first cuts }
{}

/// Where runs of a switch were cut, however often, and the machine was then rebooted and has booted into its system, the
/// start-up leaves the account tables, the maps of ids, the declared names and what a switch writes below `/etc` as an
/// uncut switch leaves them, however often it is cut itself and the machine is rebooted again.
///
/// That it boots into this system or into the one before is the clause `boots` of `run`. Source: bootup(7).
pub fn a_reboot_makes_the_switch_whole()
    ensures { RebootsLaw }
{}

/// At whatever moments runs of a collection are cut, and however often, the one that then comes to its end leaves what a
/// collection leaves that isn't cut.
///
/// Source: nix-collect-garbage(1).
pub fn cut_collections_end_as_one()
    ensures { (keep : ℕ) (cuts : List WorldState) (first last : WorldState) → CollectionsLead keep cuts first last → IsCollected keep first last }
{}
