//! What holds of every decision, and of every service with its sockets.
ghost use Rattle.std.specs.Prelude.{◌≡◌, ◌⊎◌, ◌∷◌, [], Bool, true, false, List, IsTrue, Some};
ghost use Rattle.switch_names.specs.UnitKind.{kind_of};
ghost use Rattle.switch_names.specs.UnitName.{IsUnitName};
ghost use Rattle.switch_names.specs.declared.unit_kind.UnitKind.TheVariants.{Socket, Target};
ghost use Rattle.unit_decide.specs.declared.decision.Decision.TheVariants.{Nothing, Stop, SocketStart, StopStart};
ghost use Rattle.unit_decide.specs.declared.facts.Facts.{Facts};
ghost use Rattle.unit_decide.specs.Decision.{decide};
ghost use Rattle.unit_decide.specs.Kinds.{is_kind, is_same};
ghost use Rattle.switch_names.specs.Names.{Name, has};
ghost use Rattle.unit_decide.specs.Sockets.{is_socket_activated, own_socket, sockets_key, sockets_of};
ghost use Rattle.unit_text.specs.declared.assignment.Assignment.{Assignment};
ghost use Rattle.unit_text.specs.UnitText.{has_value};

/// A unit that the new system doesn't define is stopped or left as it is.
pub fn a_unit_that_goes_is_stopped_or_left()
    ensures { (f : Facts) (live : Bool) → f.in_new ≡ false → (decide f live ≡ Stop) ⊎ (decide f live ≡ Nothing) }
{}

/// A unit that stays the same is left as it is, unless it is a target.
pub fn a_unit_that_stays_the_same_is_left()
    ensures { (f : Facts) (live : Bool) → f.in_new ≡ true → IsTrue (is_same f.outcome) → is_kind f.kind Target ≡ false → decide f live ≡ Nothing }
{}

/// Whether a socket is live only tells what starts a service that is stopped first.
pub fn a_live_socket_only_changes_the_start()
    ensures { (f : Facts) → (decide f true ≡ decide f false) ⊎ ((decide f true ≡ SocketStart) × (decide f false ≡ StopStart)) }
{}

/// A service that sockets may start and that names none is paired with the one of its own name,
/// which is the name of a unit however long the service's is.
pub fn a_service_has_the_socket_of_its_name()
    ensures { (text : List Assignment) (unit : Name) → IsUnitName unit → IsTrue (is_socket_activated text unit)
        → has_value text sockets_key ≡ false → sockets_of text unit ≡ own_socket unit ∷ [] }
{}

/// Whatever a service is paired with is the name of a socket.
pub fn a_service_is_paired_with_sockets()
    ensures { (text : List Assignment) (unit socket : Name) → IsTrue (has (sockets_of text unit) socket)
        → IsUnitName socket × (kind_of socket ≡ Some Socket) }
{}
