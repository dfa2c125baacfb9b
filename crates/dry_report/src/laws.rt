//! What holds of every report and of every closing text.
ghost use Rattle.std.specs.Prelude.{◌≡◌, ℕ, List, None};
ghost use Rattle.std.specs.List.{AllByRecursion};
ghost use Rattle.host_trait.specs.States.{UnitStates};
ghost use Rattle.host_trait.specs.World.{Leaves, WorldState};
ghost use Rattle.switch_engine.specs.declared.command.Command.{Command};
ghost use Rattle.switch_engine.specs.declared.plan.Plan.{Plan};
ghost use Rattle.switch_engine.specs.Commands.{IsBoot, IsQuery, brought_to};
ghost use Rattle.switch_engine.specs.Final.{IsFinalOf};
ghost use Rattle.switch_engine.specs.Moments.{LeadsBy};
ghost use Rattle.switch_engine.specs.Plan.{IsPlanOf, units_of};
ghost use Rattle.switch_engine.specs.Rows.{refusal};
ghost use Rattle.switch_names.specs.Names.{Name};
ghost use Rattle.dry_report.specs.Activation.{IsActivationReport};
ghost use Rattle.dry_report.specs.Close.{IsClosing, close_of, failed_in};
ghost use Rattle.dry_report.specs.Report.{IsReport, KeepsReport};

/// From a world, a command has one report.
pub fn one_report_is_made()
    ensures { (command : Command) (w : WorldState) (one other : List ℕ) → IsReport command w one → IsReport command w other → one ≡ other }
{}

/// From the leaves of a tree, one report is made of an activation.
pub fn one_activation_is_told()
    ensures { (system : Name) (leaves : Leaves) (one other : List ℕ) → IsActivationReport system leaves one → IsActivationReport system leaves other → one ≡ other }
{}

/// A command that switches no units, as a boot, makes the same report from each world in which it was
/// cut, however often that was.
pub fn a_rerun_reports_the_same()
    ensures { (command : Command) (cuts : List WorldState) (first last : WorldState) → brought_to command first.leaves ≡ None → refusal command first.leaves ≡ None
        → LeadsBy command cuts first last → AllByRecursion (KeepsReport command first) cuts }
{}

/// From a world, a command has one closing text.
pub fn one_closing_is_made()
    ensures { (command : Command) (w : WorldState) (one other : List ℕ) → IsClosing command w one → IsClosing command w other → one ≡ other }
{}

/// The closing text by the units and the states after a command that changes something is that of its
/// world. After a boot any states do, since it looks at no units.
pub fn states_at_the_end_close_it()
    ensures { (plan : Plan) (states : UnitStates) (w v : WorldState) → IsPlanOf w plan → (IsQuery plan.command → ⊥) → IsFinalOf plan.command w v
        → ((IsBoot plan.command → ⊥) → states ≡ v.manager.states) → IsClosing plan.command w (close_of (failed_in (units_of plan).defs states)) }
{}
