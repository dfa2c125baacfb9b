//! The flags by which a unit tells a switch what to do with it.
ghost use Rattle.std.specs.Prelude.{◌≡◌, codes, unwrap_or, []};
ghost use Rattle.std.specs.Option.{option_copied};
ghost use Rattle.unit_text.specs.UnitKey.{key_of};
ghost use Rattle.unit_text.specs.UnitText.{flag_of};
ghost use Rattle.unit_decide.specs.Flags.{may_start, is_not_socket_activated};

use unit_text::UnitText;

/// A flag of a text. A system that doesn't define a unit says no more of it than an empty text.
pub fn flag(text: Option<&UnitText>, section: &str, key: &str, default: bool) -> bool
    ensures { result ≡ flag_of (unwrap_or (option_copied text.entry) []) (key_of section.now key.now) default }
{
    match text {
        Some(text) => text.flag(section, key, default),
        None => default,
    }
}

/// Whether a switch may start the unit of a text: neither `RefuseManualStart` nor
/// `X-OnlyManualStart` is set.
///
/// Sources: systemd.unit(5), "RefuseManualStart=", and NixOS manual, "Unit handling".
pub fn may_start(new: &UnitText) -> bool
    ensures { result ≡ may_start new.now }
{
    !new.flag("Unit", "RefuseManualStart", false) && !new.flag("Unit", "X-OnlyManualStart", false)
}

/// Whether a service has no socket that starts it.
pub fn is_not_socket_activated(new: &UnitText) -> bool
    ensures { result ≡ is_not_socket_activated new.now }
{
    new.flag("Service", "X-NotSocketActivated", false)
}
