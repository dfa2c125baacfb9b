//! The whole of a run.
ghost use Rattle.std.specs.Prelude.{◌≡◌, ◌⊎◌, [], ℕ, List, None, Some, IsTrue, true};
ghost use Rattle.host_trait.specs.Change.{IsSame};
ghost use Rattle.host_trait.specs.Host.{EachMoment, Told, Leads, Passes, Rose};
ghost use Rattle.host_trait.specs.Sink.{Puts};
ghost use Rattle.host_trait.specs.World.{WorldState};
ghost use Rattle.store_collect.specs.Again.{IsCollected};
ghost use Rattle.switch_engine.specs.declared.command.Command.{Command};
ghost use Rattle.switch_engine.specs.declared.command.Command.TheVariants.{Test, DryActivate};
ghost use Rattle.switch_engine.specs.Commands.{IsQuery, row};
ghost use Rattle.switch_engine.specs.Final.{IsEndOf};
ghost use Rattle.switch_engine.specs.Moments.{IsOnItsWay};
ghost use Rattle.switch_engine.specs.Owing.{IsOver, IsUnderway, Refuses};
ghost use Rattle.switch_engine.specs.Quiet.{IsQuietCommand};
ghost use Rattle.switch_engine.specs.Reboot.{BootsOldOrNew};
ghost use Rattle.switch_parts.specs.declared.refusal.Refusal.{Refusal};
ghost use Rattle.dry_report.specs.Report.{KeepsReport};
ghost use Rattle.store_collect.specs.Unfinished.{is_unfinished};
ghost use Rattle.switch_run.specs.Asked.{AsksNoCollection, AsksNothing};
ghost use Rattle.switch_run.specs.Collecting.{AnswersCollection, AsksCollection, IsCollectionMoment, IsWholeCollection};
ghost use Rattle.switch_run.specs.CollectionEnding.{IsCollectionBroken, IsCollectionRefused, IsCollectionUnput};
ghost use Rattle.switch_run.specs.Commands.{command_of};
ghost use Rattle.switch_run.specs.Listing.{IsInList, IsListOf, asks_list};
ghost use Rattle.switch_run.specs.Moments.{IsMomentFor};
ghost use Rattle.switch_run.specs.Rehearsing.{AsksRehearsal, IsInRehearsal, Tells};
ghost use Rattle.switch_run.specs.Output.{IsBrokenOff, IsFailedOutput, IsIdle, IsPutFirst, IsWhole};
ghost use Rattle.switch_run.specs.Run.{Answers, IsBroken, IsEnded, IsVerdict};

use crate::running::run_words;
use crate::status::{Status, status_of};
use host_trait::{Manager, Sink};
use std::alloc::Global;
use switch_names::Text;

/// Does all that the program does with its words, on a host and an output.
///
/// A `switch`, a `test` or a `boot` that is cut at any moment, however often, and then made again to its
/// end leaves what one that wasn't cut leaves: the same tree, accounts, profile, boot menu and states of units.
/// That is the law `cut_runs_end_as_one`, since each world that a cut may leave is a moment of the command by
/// `each_moment`.
///
/// A `rollback` is promised the same until its last step, by `cut_rollbacks_end_as_one`. The word `generations` alone puts the list
/// of the generations that stand, as nix-env(1) does with `--list-generations`, and changes nothing. `rehearse` with a number
/// switches a made machine in memory under cuts, tells what came of it, and touches nothing of the host. `collect` with a number
/// drops old generations and what of the store no root reaches, as nix-collect-garbage(1) does; the laws of `store_collect`
/// say what stays at each moment.
pub fn run<H: Manager, S: Sink>(alloc: Global, words: &[Text], host: &mut H, out: &mut S) -> Status
    // Words that ask for nothing that the program does.
    ensures usage { result ≡ Status.Usage → AsksNothing words.now }
    ensures no_command { AsksNothing words.now → (result ≡ Status.Usage) ⊎ (result ≡ Status.NoMemory) }
    ensures usage_output { AsksNothing words.now → Puts (S.sink out.old) (S.sink out.new) (λ more. more ≡ []) }

    // Words that ask for the list of the generations. Nothing changes, and the list is put whole; a beginning of it,
    // where the output fails; or nothing, where the host fails or memory is wanting.
    ensures list { asks_list words.now ≡ true → IsEnded result → (result ≡ Status.Done) × Told (H.host host.old) (λ w. Puts (S.sink out.old) (S.sink out.new) (IsListOf w)) }
    ensures list_begun { asks_list words.now ≡ true → result ≡ Status.SinkFault → Told (H.host host.old) (λ w. Puts (S.sink out.old) (S.sink out.new) (IsInList w)) }
    ensures list_broken { asks_list words.now ≡ true → IsBroken result → Puts (S.sink out.old) (S.sink out.new) (λ more. more ≡ []) }
    ensures list_never_refused { asks_list words.now ≡ true → (why : Refusal) → result ≡ Status.Refused why → ⊥ }
    ensures list_changes_nothing { asks_list words.now ≡ true → Passes (H.host host.old) (H.host host.new) IsSame }
    ensures list_completes { asks_list words.now ≡ true → ¬ Rose (H.host host.old).faults (H.host host.new).faults → ¬ Rose (S.sink out.old).faults (S.sink out.new).faults → (result ≡ Status.Done) ⊎ (result ≡ Status.NoMemory) }

    // Words that ask for a rehearsal. The host isn't touched, and the text is put whole, or a beginning of it where the
    // output fails; or nothing, where memory is wanting.
    ensures rehearsal { (number : ℕ) → AsksRehearsal words.now number → IsEnded result → (result ≡ Status.Done) × Puts (S.sink out.old) (S.sink out.new) (Tells number) }
    ensures rehearsal_begun { (number : ℕ) → AsksRehearsal words.now number → result ≡ Status.SinkFault → Puts (S.sink out.old) (S.sink out.new) (IsInRehearsal number) }
    ensures rehearsal_broken { (number : ℕ) → AsksRehearsal words.now number → IsBroken result → Puts (S.sink out.old) (S.sink out.new) (λ more. more ≡ []) }
    ensures rehearsal_never_refused { (number : ℕ) → AsksRehearsal words.now number → (why : Refusal) → result ≡ Status.Refused why → ⊥ }
    ensures rehearsal_touches_nothing { (number : ℕ) → AsksRehearsal words.now number → Passes (H.host host.old) (H.host host.new) IsSame × ((H.host host.new).faults ≡ (H.host host.old).faults) }
    ensures rehearsal_completes { (number : ℕ) → AsksRehearsal words.now number → ¬ Rose (S.sink out.old).faults (S.sink out.new).faults → (result ≡ Status.Done) ⊎ (result ≡ Status.NoMemory) }

    // Words that ask for a collection. It is refused only where the world refuses it, and nothing is put and nothing changes
    // then. Else its report is put before anything changes, and the last line once all is removed; and each moment is one of
    // the collection of the world at the beginning.
    ensures collect { (keep : ℕ) → AsksCollection words.now keep → IsEnded result → (result ≡ Status.Done) × Leads (H.host host.old) (H.host host.new) (IsCollected keep) }
    ensures collect_output { (keep : ℕ) → AsksCollection words.now keep → IsEnded result → Told (H.host host.old) (λ w. Puts (S.sink out.old) (S.sink out.new) (IsWholeCollection keep w)) }
    ensures collect_broken { (keep : ℕ) → AsksCollection words.now keep → IsBroken result → IsCollectionBroken keep (H.host host.old) (H.host host.new) (S.sink out.old) (S.sink out.new) }
    ensures collect_failed_output { (keep : ℕ) → AsksCollection words.now keep → result ≡ Status.SinkFault → IsCollectionUnput keep (H.host host.old) (H.host host.new) (S.sink out.old) (S.sink out.new) }
    ensures collect_refused { (keep : ℕ) → AsksCollection words.now keep → (why : Refusal) → result ≡ Status.Refused why → IsCollectionRefused keep (H.host host.old) (H.host host.new) (S.sink out.old) (S.sink out.new) why }
    ensures collect_unfinished { (keep : ℕ) → AsksCollection words.now keep → Told (H.host host.old) (λ w. is_unfinished w.leaves ≡ true → IsIdle (H.host host.old) (H.host host.new) (S.sink out.old) (S.sink out.new)) }
    ensures collect_completes { (keep : ℕ) → AsksCollection words.now keep → ¬ Rose (H.host host.old).faults (H.host host.new).faults → ¬ Rose (S.sink out.old).faults (S.sink out.new).faults → Told (H.host host.old) (λ w. AnswersCollection keep w.leaves result) }
    ensures collect_each_moment { (keep : ℕ) → AsksCollection words.now keep → EachMoment (H.host host.old) (H.host host.new) (IsCollectionMoment keep) }
    ensures collect_moments { (keep : ℕ) → AsksCollection words.now keep → Passes (H.host host.old) (H.host host.new) (IsCollectionMoment keep) }

    // A refusal is the world's. Where there is one, nothing is put and nothing changes, whatever is answered.
    ensures refused { (why : Refusal) → result ≡ Status.Refused why → (command : Command) → command_of words.now ≡ Some command → Told (H.host host.old) (λ w. Refuses command w (Some why)) }
    ensures refused_output { (why : Refusal) → result ≡ Status.Refused why → Puts (S.sink out.old) (S.sink out.new) (λ more. more ≡ []) }
    ensures refused_world { (command : Command) (why : Refusal) → command_of words.now ≡ Some command
        → Told (H.host host.old) (λ w. Refuses command w (Some why) → IsIdle (H.host host.old) (H.host host.new) (S.sink out.old) (S.sink out.new)) }

    // A run that came to its end has left the final world, has written no leaf of /etc and of the accounts that stood, has
    // entered exactly what was owed, has put both texts, and says whether a unit failed that the system defines.
    ensures ended { IsEnded result → (command : Command) → command_of words.now ≡ Some command → Leads (H.host host.old) (H.host host.new) (IsEndOf command) }
    ensures quiet { IsEnded result → (command : Command) → command_of words.now ≡ Some command → Leads (H.host host.old) (H.host host.new) (IsQuietCommand command) }
    ensures verdict { IsEnded result → (command : Command) → command_of words.now ≡ Some command → Told (H.host host.old) (λ w. IsVerdict command w result) }
    ensures ended_not_refused { IsEnded result → (command : Command) → command_of words.now ≡ Some command → Told (H.host host.old) (λ w. Refuses command w None) }
    ensures output { IsEnded result → (command : Command) → command_of words.now ≡ Some command → Told (H.host host.old) (λ w. Puts (S.sink out.old) (S.sink out.new) (IsWhole command w)) }

    // What a dry run puts is what a switch puts first.
    ensures put_first { (system : List ℕ) → command_of words.now ≡ Some (DryActivate system) → result ≡ Status.Done → Told (H.host host.old) (λ w. Puts (S.sink out.old) (S.sink out.new) (IsPutFirst (Test system) w)) }

    // A query changes nothing.
    ensures queries { (command : Command) → command_of words.now ≡ Some command → IsQuery command → Passes (H.host host.old) (H.host host.new) IsSame }

    // A boot that is cut and made again makes the same report, and so does a query.
    ensures same_report { (command : Command) → command_of words.now ≡ Some command → Passes (H.host host.old) (H.host host.new) (KeepsReport command) }

    // The report comes before the change, and the closing text after it.
    ensures broken_off { IsBroken result → (command : Command) → command_of words.now ≡ Some command → IsBrokenOff command (H.host host.old) (H.host host.new) (S.sink out.old) (S.sink out.new) }
    ensures failed_output { result ≡ Status.SinkFault → (command : Command) → command_of words.now ≡ Some command → IsFailedOutput command (H.host host.old) (H.host host.new) (S.sink out.old) (S.sink out.new) }

    // A fault has its cause.
    ensures host_fault { result ≡ Status.HostFault → Rose (H.host host.old).faults (H.host host.new).faults }
    ensures sure { IsTrue (H.host host.old).is_sure → IsTrue (H.host host.new).is_sure }
    ensures never_sure { IsTrue (H.host host.old).is_sure → result ≡ Status.HostFault → ⊥ }
    ensures same_last { (H.host host.new).last ≡ (H.host host.old).last }
    ensures sink_fault { result ≡ Status.SinkFault → Rose (S.sink out.old).faults (S.sink out.new).faults }
    ensures sink_not_refused { result ≡ Status.SinkFault → (command : Command) → command_of words.now ≡ Some command → Told (H.host host.old) (λ w. Refuses command w None) }

    // Without a fault the answer is the world's.
    ensures completes { ¬ Rose (H.host host.old).faults (H.host host.new).faults → ¬ Rose (S.sink out.old).faults (S.sink out.new).faults → (command : Command) → command_of words.now ≡ Some command → Told (H.host host.old) (λ w. Answers command w result) }

    // Whatever cuts it, the same run ends as if it hadn't been cut, and the journal has grown by a
    // beginning of exactly what the command enters. Of a collection see above.
    ensures each_moment { AsksNoCollection words.now → EachMoment (H.host host.old) (H.host host.new) (IsMomentFor (command_of words.now)) }
    ensures moments { AsksNoCollection words.now → Passes (H.host host.old) (H.host host.new) (IsMomentFor (command_of words.now)) }

    // A machine that loses power then boots into the system that it would have booted into before, or into the new one.
    ensures boots { (command : Command) → command_of words.now ≡ Some command → Passes (H.host host.old) (H.host host.new) (BootsOldOrNew command) }

    // However often runs of these words were cut before, since one that wasn't refused began in a steady world: each
    // moment is underway from there, or a rollback has come to its end, and the end is the one that it has.
    ensures after_cuts { (command : Command) (first : WorldState) → command_of words.now ≡ Some command → Told (H.host host.old) (λ w. IsUnderway command first w)
        → EachMoment (H.host host.old) (H.host host.new) (λ w m. IsOnItsWay (row command first.leaves).moves command first m) }
    ensures after_cuts_ended { (command : Command) (first : WorldState) → command_of words.now ≡ Some command → (IsQuery command → ⊥) → IsEnded result
        → Told (H.host host.old) (λ w. IsUnderway command first w) → Leads (H.host host.old) (H.host host.new) (λ w v. IsOver command first v) }
{
    let ending = run_words(alloc, words, host, out);
    status_of(ending)
}
