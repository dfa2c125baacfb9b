//! The calls of a plan: the stops, and those of each list.
ghost use Rattle.std.specs.Prelude.{◌≡◌, take, drop};
ghost use Rattle.host_trait.specs.declared.unit_state.State.{State};
ghost use Rattle.owed_plan.specs.Calls.{calls_of};
ghost use Rattle.unit_stage.specs.PlanCalls.{AreCallsOf, calls_in};
ghost use Rattle.switch_names.specs.Names.{Name};

use crate::unit_plan::UnitPlan;
use log_text::Which;
use owed_plan::Duty;

/// The calls of a plan: the stops, and those of each list.
#[derive(Clone, Copy)]
pub struct PlanCalls<'a> {
    pub stops: &'a [Duty],
    reloads: &'a [Duty],
    restarts: &'a [Duty],
    starts: &'a [Duty],
}

impl<'a> PlanCalls<'a> {
    /// The calls of a list.
    pub fn of(self, which: Which) -> &'a [Duty]
        ensures { result.now ≡ calls_in self.entry which }
    {
        match which {
            Which::Reloads => self.reloads,
            Which::Restarts => self.restarts,
            Which::Starts => self.starts,
        }
    }
}

/// The first so many calls.
fn first_calls(calls: &[Duty], count: usize) -> &[Duty]
    ensures { result.now ≡ take count calls.now }
{
    &calls[..count.min(calls.len())]
}

/// The calls after the first so many.
fn calls_after(calls: &[Duty], count: usize) -> &[Duty]
    ensures { result.now ≡ drop count calls.now }
{
    &calls[count.min(calls.len())..]
}

/// The calls of a plan.
pub fn calls_of(plan: &UnitPlan) -> PlanCalls<'_>
    ensures { (states : Name → State) → plan.now.duties ≡ calls_of plan.now.owed plan.now.ordered.units states
        → AreCallsOf plan.now.owed plan.now.ordered.units states result.stops.now (calls_in result) }
{
    let lists = plan.recorded();
    let calls = plan.duties().as_slice();
    let stops = plan.stops().as_slice();
    let reloads = lists.reloads.as_slice();
    let restarts = lists.restarts.as_slice();
    let starts = plan.ordered().units.as_slice();
    let others = calls_after(calls, stops.len());
    let later = calls_after(others, reloads.len());
    let last = calls_after(later, restarts.len());
    PlanCalls {
        stops: first_calls(calls, stops.len()),
        reloads: first_calls(others, reloads.len()),
        restarts: first_calls(later, restarts.len()),
        starts: first_calls(last, starts.len()),
    }
}
