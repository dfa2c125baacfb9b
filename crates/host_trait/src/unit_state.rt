//! What a service manager says of a unit.
ghost use Rattle.std.specs.Prelude.{◌≡◌};
ghost use Rattle.host_trait.specs.Manager.{is_active};
ghost use Rattle.host_trait.specs.Words.{state_word};

use switch_names::UnitName;

/// The state of a unit, as far as a switch tells states apart.
#[derive(Clone, Copy, Debug, PartialEq, Eq)]
pub enum State {
    /// It is started.
    Active,
    /// It isn't started.
    Inactive,
    /// Its last start has failed.
    Failed,
}

impl State {
    /// Whether the unit is started.
    pub fn is_active(self) -> bool
        ensures { result ≡ is_active self }
    {
        matches!(self, State::Active)
    }

    /// The word for the state, as `systemctl is-active` prints it.
    pub fn word(self) -> &'static str
        ensures { result.now ≡ state_word self }
    {
        match self {
            State::Active => "active",
            State::Inactive => "inactive",
            State::Failed => "failed",
        }
    }
}

/// A unit with its state.
#[derive(Drop, PartialEq, Eq)]
pub struct UnitState {
    pub unit: UnitName,
    pub state: State,
}
