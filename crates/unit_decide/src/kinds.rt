//! Tests on kinds of units and on the outcome of a comparison.
ghost use Rattle.std.specs.Prelude.{◌≡◌};
ghost use Rattle.switch_names.specs.declared.unit_kind.UnitKind.TheVariants.{Target, Mount, Service, Socket};
ghost use Rattle.unit_decide.specs.Kinds.{is_kind, is_left_alone, is_reload_only, is_same};

use switch_names::UnitKind;
use unit_compare::Comparison;

/// Whether a unit of a kind is a target.
pub fn is_target(kind: UnitKind) -> bool
    ensures { result ≡ is_kind kind Target }
{
    matches!(kind, UnitKind::Target)
}

pub fn is_mount(kind: UnitKind) -> bool
    ensures { result ≡ is_kind kind Mount }
{
    matches!(kind, UnitKind::Mount)
}

/// Whether a unit of a kind is a service.
pub fn is_service(kind: UnitKind) -> bool
    ensures { result ≡ is_kind kind Service }
{
    matches!(kind, UnitKind::Service)
}

/// Whether a unit of a kind is a socket.
pub fn is_socket(kind: UnitKind) -> bool
    ensures { result ≡ is_kind kind Socket }
{
    matches!(kind, UnitKind::Socket)
}

/// Whether a changed unit of a kind gets no action.
pub fn is_left_alone(kind: UnitKind) -> bool
    ensures { result ≡ is_left_alone kind }
{
    match kind {
        UnitKind::Path
        | UnitKind::Slice
        | UnitKind::Socket
        | UnitKind::Swap
        | UnitKind::Scope
        | UnitKind::Device => true,
        _ => false,
    }
}

/// Whether two texts don't differ.
pub fn is_same(outcome: &Comparison) -> bool
    ensures { result ≡ is_same outcome.now }
{
    matches!(outcome, Comparison::Same)
}

pub fn is_reload_only(outcome: &Comparison) -> bool
    ensures { result ≡ is_reload_only outcome.now }
{
    matches!(outcome, Comparison::ReloadOnly)
}
