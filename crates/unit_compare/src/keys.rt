//! What the keys of a unit mean for a comparison.
ghost use Rattle.std.specs.Prelude.{◌≡◌, ◌&&◌, codes};
ghost use Rattle.unit_compare.specs.Compare.{is_ignored, is_ignored_name, is_mount, is_reload_key};
ghost use Rattle.unit_compare.specs.Walk.{key_comparison};
ghost use Rattle.unit_text.specs.UnitKey.{is_same_key, key_of};

use crate::comparison::Comparison;
use switch_names::{Text, UnitKind};
use unit_text::UnitKey;

/// Whether a key of the section `Unit` says nothing of a running unit.
#[tactic(auto, unfolding(crate::specs::Compare::is_ignored_name))]
fn is_ignored_name(key: &str) -> bool
    ensures { result ≡ is_ignored_name key.now }
{
    [
        "Description",
        "Documentation",
        "OnFailure",
        "OnSuccess",
        "OnFailureJobMode",
        "IgnoreOnIsolate",
        "StopWhenUnneeded",
        "RefuseManualStart",
        "RefuseManualStop",
        "AllowIsolate",
        "CollectMode",
        "SourcePath",
    ]
    .contains(&key)
}

/// Whether a key says nothing of a running unit.
fn is_ignored(key: &UnitKey) -> bool
    ensures { result ≡ is_ignored key.now }
{
    match key.section.as_str() {
        "Install" => true,
        "Unit" => is_ignored_name(key.key.as_str()),
        _ => false,
    }
}

fn is_named(key: &UnitKey, section: &str, name: &str) -> bool
    ensures { result ≡ is_same_key key.now (key_of section.now name.now) }
{
    key.section.as_str() == section && key.key.as_str() == name
}

/// Whether a key is one of the options of a mount.
fn is_mount_option(kind: UnitKind, key: &UnitKey) -> bool
    ensures { result ≡ (is_mount kind && is_same_key key.now (key_of (codes "Mount") (codes "Options"))) }
{
    match kind {
        UnitKind::Mount => is_named(key, "Mount", "Options"),
        _other => false,
    }
}

/// Whether a reload takes up a change of a key.
fn is_reload_key(kind: UnitKind, key: &UnitKey) -> bool
    ensures { result ≡ is_reload_key kind key.now }
{
    is_named(key, "Unit", "X-Reload-Triggers") || is_mount_option(kind, key)
}

/// The comparison by one key, which has these values in the two texts.
pub fn compare_values(kind: UnitKind, key: &UnitKey, old: &[Text], new: &[Text]) -> Comparison
    ensures { result ≡ key_comparison kind key.now old.now new.now }
{
    if is_ignored(key) || old == new {
        Comparison::Same
    } else if is_reload_key(kind, key) {
        Comparison::ReloadOnly
    } else {
        Comparison::Changed
    }
}
