//! What holds of every merge.
ghost use Rattle.std.specs.Prelude.{◌≡◌, None};
ghost use Rattle.users_spec.specs.Spec.{Accounts};
ghost use Rattle.users_merge.specs.Stored.{Merged, Stored};
ghost use Rattle.users_merge.specs.Merge.{IsMerge, fault, merge_of};
ghost use Rattle.users_merge.specs.IdLaws.{IdsLaw};
ghost use Rattle.users_merge.specs.Law.{Law, PrefixLaw, PutsLaw, RunsLaw};

/// Accounts are merged in one way at most.
pub fn one_merge()
    ensures { (spec : Accounts) (s : Stored) (m n : Merged) → IsMerge spec s m → IsMerge spec s n → m ≡ n }
{}

/// Accounts are merged wherever nothing keeps them from it.
pub fn something_is_merged()
    ensures { (spec : Accounts) (s : Stored) → fault spec s ≡ None → IsMerge spec s (merge_of spec s) }
{}

/// A merge of which each part stands as it did before or is there already is the same merge when it
/// is made again, but for the names that were declared before.
///
/// Source: nixpkgs, update-users-groups.pl.
pub fn parts_keep_merge()
    ensures { Law }
{}

/// After each of the nine puts the merge is the same as before the first.
///
/// Source: nixpkgs, update-users-groups.pl.
pub fn puts_keep_merge()
    ensures partly { PrefixLaw }
    ensures same { PutsLaw }
{}

/// However often a merge is cut in the midst of its puts and begun again, it is the same merge.
///
/// Source: nixpkgs, update-users-groups.pl.
pub fn cut_runs_keep_merge()
    ensures { RunsLaw }
{}

/// No account changes its id, a new one shares its id with no other, and one that never had an id
/// has none that is remembered for another.
///
/// Source: NixOS manual, option `users.users.<name>.uid`.
pub fn ids_are_safe()
    ensures { IdsLaw }
{}
