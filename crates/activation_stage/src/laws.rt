//! What holds of an activation at each moment.
ghost use Rattle.activation_stage.specs.Reboot.{RebootEndLaw, RebootLaw};
ghost use Rattle.activation_stage.specs.ActivationPart.{ActivationAgainLaw, ActivationMomentLaw, ActivationPartLaw, ActivationPlanLaw, OwnersLaw};

/// Setting the accounts and making `/etc` is a part of a switch: what its moments keep is kept
/// whatever else changes, and is enough to do it again. Each moment of it is one of the part.
pub fn an_activation_is_a_part()
    ensures part { ActivationPartLaw }
    ensures moments { ActivationMomentLaw }
{}

/// Where an activation is done, and nothing else has changed that it looks at, the next one leaves what
/// stands.
pub fn what_was_activated_stays()
    ensures { ActivationAgainLaw }
{}

/// Wherever an activation is cut, the tables that it leaves have the same owners.
pub fn owners_stay()
    ensures { OwnersLaw }
{}

/// A plan stays one where nothing has changed that an activation looks at.
pub fn plans_stay()
    ensures { ActivationPlanLaw }
{}

/// A reboot loses nothing that an activation looks at, so that the next one leaves what it would have left
/// without the reboot.
///
/// Source: file-hierarchy(7), "/run/".
pub fn reboots_keep_activations()
    ensures same { RebootLaw }
    ensures end { RebootEndLaw }
{}
