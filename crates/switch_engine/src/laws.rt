//! The laws by which the promise for one cut becomes that for any number of cuts.
ghost use Rattle.std.specs.Prelude.{◌≡◌, ◌⊎◌, ◌↔◌, IsSome, List, None, Option, false};
ghost use Rattle.boot_entries.specs.Menu.{IsMenuWhole};
ghost use Rattle.host_trait.specs.World.{WorldState};
ghost use Rattle.switch_engine.specs.declared.command.Command.{Command};
ghost use Rattle.switch_engine.specs.Commands.{IsQuery, goes_back, new_system, set_to};
ghost use Rattle.switch_engine.specs.Final.{IsEndOf, IsFinalOf, LeavesFailed};
ghost use Rattle.switch_engine.specs.Moments.{HasComeBackIn, IsMomentOf, LeadsBy};
ghost use Rattle.switch_engine.specs.Owing.{IsOver, IsSteadyFor, IsUnderway, Refuses};
ghost use Rattle.switch_engine.specs.Reboot.{BootsOldOrNew, SwitchRebootLaw};
ghost use Rattle.switch_engine.specs.Rows.{refusal};
ghost use Rattle.switch_names.specs.SystemName.{IsSystemPath};
ghost use Rattle.switch_parts.specs.declared.refusal.Refusal.{Refusal};

/// A world refuses a command for one reason, or for none.
pub fn one_refusal()
    ensures { (command : Command) (w : WorldState) (one other : Option Refusal) → Refuses command w one → Refuses command w other → one ≡ other }
{}

/// Each world has that one.
pub fn some_refusal()
    ensures { (command : Command) (w : WorldState) → (why : Option Refusal) × Refuses command w why }
{}

/// A steady world refuses a command by its leaves alone, since it puts no log that is too long.
pub fn steady_refusal()
    ensures { (command : Command) (w : WorldState) → IsSteadyFor command w → Refuses command w (refusal command w.leaves) }
{}

/// Where a world doesn't refuse a command, its leaves don't.
pub fn refused_by_leaves()
    ensures { (command : Command) (w : WorldState) → Refuses command w None → refusal command w.leaves ≡ None }
{}

/// A run that isn't refused is underway in the world where it begins, where that is steady.
pub fn a_run_begins_underway()
    ensures { (first : WorldState) (command : Command) → refusal command first.leaves ≡ None → IsSteadyFor command first → IsUnderway command first first }
{}

/// A run that is underway in a world, from which one is underway in another, is underway there; and it
/// is over where that one is over.
pub fn a_run_stays_underway()
    ensures underway { (first w m : WorldState) (command : Command) → IsUnderway command first w → IsUnderway command w m → IsUnderway command first m }
    ensures over { (first w v : WorldState) (command : Command) → IsUnderway command first w → IsOver command w v → IsOver command first v }
{}

/// A run that has come to its end is over: each duty is paid, and no unit was touched that was owed
/// nothing.
pub fn an_ended_run_is_over()
    ensures { (first v : WorldState) (command : Command) → (IsQuery command → ⊥) → IsEndOf command first v → IsOver command first v }
{}

/// However often runs of a command are cut, each at any of its moments, the last leaves what a run
/// leaves that isn't cut; each duty is paid, and no unit was touched that was owed nothing. A rollback goes
/// one step further where a cut came after its goal was removed: see `cut_rollbacks_end_alike`.
pub fn cut_runs_end_alike()
    ensures { (command : Command) (cuts : List WorldState) (first last : WorldState) → (IsQuery command → ⊥) → goes_back command first.leaves ≡ false
        → refusal command first.leaves ≡ None → IsSteadyFor command first → LeadsBy command cuts first last → IsOver command first last }
{}

/// However often runs of any command are cut, the last leaves what a run leaves that isn't cut, or one of them
/// was cut when all was done that the first had begun, and no goal of a rollback stood any more.
pub fn cut_rollbacks_end_alike()
    ensures { (command : Command) (cuts : List WorldState) (first last : WorldState) → (IsQuery command → ⊥) → refusal command first.leaves ≡ None
        → IsSteadyFor command first → LeadsBy command cuts first last → IsOver command first last ⊎ HasComeBackIn command first cuts }
{}

/// A run that goes on where another was cut leaves a unit failed that the system defines exactly where
/// one does that isn't cut.
pub fn a_cut_leaves_the_same_failed()
    ensures { (first w v : WorldState) (command : Command) → IsSystemPath (new_system command w.leaves) → IsUnderway command first w
        → IsEndOf command w v → LeavesFailed command w ↔ LeavesFailed command first }
{}

/// Once a command that sets the profile has come to its end, however often it was cut, each entry of the
/// boot menu is that of a generation that stands. (`IsOver` of `cut_runs_end_alike` says that it has.)
///
/// Source: Boot Loader Specification, "Type #1 Boot Loader Specification Entries".
pub fn an_ended_run_leaves_a_whole_boot_menu()
    ensures { (command : Command) (first last : WorldState) → IsSystemPath (new_system command first.leaves) → refusal command first.leaves ≡ None
        → IsSome (set_to command first.leaves) → IsFinalOf command first last → IsMenuWhole first.leaves last.leaves }
{}

/// At each moment of a command a machine boots into the system that it would have booted into before, or
/// into the one to which the command moves the profile.
///
/// Source: Nix manual, "Profiles".
pub fn a_cut_run_boots_into_the_old_system_or_the_new()
    ensures { (command : Command) (w m : WorldState) → IsMomentOf command w m → BootsOldOrNew command w m }
{}

/// Where a machine is rebooted at any moment of a switch, or when that is over, and boots into its system, the
/// start-up leaves of the accounts and of `/etc` what the switch leaves that isn't cut, however often it is cut
/// itself and the machine is rebooted again.
///
/// Source: file-hierarchy(7), "/run/".
pub fn a_switch_outlasts_a_reboot()
    ensures { SwitchRebootLaw }
{}
