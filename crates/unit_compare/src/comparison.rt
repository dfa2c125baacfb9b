//! What a comparison answers.
ghost use Rattle.std.specs.Prelude.{◌≡◌};
ghost use Rattle.unit_compare.specs.Walk.{worse};

/// How the text of a unit changed.
///
/// Source: NixOS manual, "Unit handling".
#[derive(Clone, Copy, Debug, PartialEq, Eq)]
pub enum Comparison {
    /// No key differs, but for those that say nothing of a running unit.
    Same,
    /// Only keys differ that a reload takes up.
    ReloadOnly,
    /// Another key differs.
    Changed,
}

impl Comparison {
    /// The greater change of two.
    pub(crate) fn worse(self, other: Comparison) -> Comparison
        ensures { result ≡ worse self other }
    {
        match (self, other) {
            (Comparison::Changed, _) | (_, Comparison::Changed) => Comparison::Changed,
            (Comparison::ReloadOnly, _) | (_, Comparison::ReloadOnly) => Comparison::ReloadOnly,
            (Comparison::Same, Comparison::Same) => Comparison::Same,
        }
    }
}
