//! What holds of setting accounts at each moment.
ghost use Rattle.accounts_stage.specs.Laws.{AccountsAgainLaw, AccountsEndLaw, AccountsMomentLaw, AccountsPartLaw, AccountsPlanLaw};

/// Setting the accounts of a system is a part of a switch: what its moments keep is kept whatever
/// else changes, and is enough to set them again. Each moment of it that isn't refused is one of
/// the part, and the last leaves each place of accounts at its end.
///
/// Source: nixpkgs, update-users-groups.pl, which writes its files one after another.
pub fn setting_accounts_is_a_part()
    ensures part { AccountsPartLaw }
    ensures moments { AccountsMomentLaw }
    ensures end { AccountsEndLaw }
{}

/// Where the accounts of a system are set, and nothing else has changed that the part looks at, setting
/// them again leaves what stands: the same tables, maps of ids and declared names.
///
/// Source: nixpkgs, update-users-groups.pl.
pub fn set_accounts_stay()
    ensures { AccountsAgainLaw }
{}

/// A plan for the accounts of a system stays one where nothing has changed that the part looks at.
pub fn account_plans_stay()
    ensures { AccountsPlanLaw }
{}
