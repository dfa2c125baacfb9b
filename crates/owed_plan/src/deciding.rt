//! What is decided on each Active unit.
ghost use Rattle.std.specs.Prelude.{◌≡◌, IfOk, filter};
ghost use Rattle.owed_plan.specs.Decisions.{is_left, is_live_socket, is_nothing, is_socket_started, live_sockets, decision_of, decisions_of, situation_of};

use crate::known::Inputs;
use std::alloc::{AllocError, Global};
use switch_names::{Listed, UnitName};
use unit_decide::{Decision, Facts, decide_by, is_same, is_target};

/// What is decided on an Active unit.
pub struct UnitDecision {
    pub unit: UnitName,
    pub decision: Decision,
    /// The live sockets of a unit that is left to its sockets; others have none here.
    pub live: Listed<UnitName>,
    /// Whether the unit has changed, stays up and gets nothing.
    pub is_left: bool,
}

/// One call: a derived drop is proved anew in each function that lets one go.
impl Drop for UnitDecision {
    fn drop(self) {
        let UnitDecision {
            unit: _,
            decision: _,
            live: _,
            is_left: _,
        } = self;
    }
}

/// Whether a unit is stopped and left to its sockets.
fn is_socket_started(decision: Decision) -> bool
    ensures { result ≡ is_socket_started decision }
{
    matches!(decision, Decision::SocketStart)
}

/// Whether a unit gets nothing.
fn is_nothing(decision: Decision) -> bool
    ensures { result ≡ is_nothing decision }
{
    matches!(decision, Decision::Nothing)
}

/// Whether a unit that both systems define, and that is no target, has changed and gets nothing.
fn is_left(facts: &Facts, decision: Decision) -> bool
    ensures { result ≡ is_left facts.now decision }
{
    is_nothing(decision)
        && !is_target(facts.kind)
        && facts.in_old
        && facts.in_new
        && !is_same(&facts.outcome)
}

/// Those of some sockets that are live.
fn live_among(
    alloc: Global,
    known: Inputs<'_>,
    sockets: &[UnitName],
) -> Result<Listed<UnitName>, AllocError>
    ensures { IfOk result (λ live. live ≡ filter (is_live_socket (situation_of known.entry)) sockets.now) }
{
    let mut live = Listed::new(alloc);
    for socket in sockets {
        if known.is_live_socket(socket) {
            live.push(socket.copy(alloc)?)?;
        }
    }
    Ok(live)
}

/// The live sockets of a unit, where they make a difference.
fn live_sockets(
    alloc: Global,
    known: Inputs<'_>,
    facts: &Facts,
    unit: &UnitName,
) -> Result<Listed<UnitName>, AllocError>
    requires { facts.now ≡ (situation_of known).systems.facts unit.now }
    ensures { IfOk result (λ live. live ≡ live_sockets (situation_of known.entry) unit.now) }
{
    if !is_socket_started(decide_by(facts, true)) {
        return Ok(Listed::new(alloc));
    }
    let sockets = known.sockets(alloc, unit)?;
    live_among(alloc, known, sockets.as_slice())
}

/// What is decided on an Active unit.
fn decide_unit(
    alloc: Global,
    known: Inputs<'_>,
    unit: &UnitName,
) -> Result<UnitDecision, AllocError>
    ensures { IfOk result (λ decided. decided ≡ decision_of (situation_of known.entry) unit.now) }
{
    let facts = known.facts(unit);
    let live = live_sockets(alloc, known, &facts, unit)?;
    let decision = decide_by(&facts, !live.as_slice().is_empty());
    Ok(UnitDecision {
        unit: unit.copy(alloc)?,
        decision,
        live,
        is_left: is_left(&facts, decision),
    })
}

/// What is decided on each Active unit.
pub fn decide_units(alloc: Global, known: Inputs<'_>) -> Result<Vec<UnitDecision>, AllocError>
    ensures { IfOk result (λ decisions. decisions.items ≡ decisions_of (situation_of known.entry) known.entry.states.now) }
{
    let mut decisions = Vec::new(alloc);
    for one in known.states.list().as_slice() {
        if one.state.is_active() {
            decisions.push(decide_unit(alloc, known, &one.unit)?)?;
        }
    }
    Ok(decisions)
}
