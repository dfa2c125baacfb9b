//! The shadow rows of users.
ghost use Rattle.std.specs.Prelude.{◌≡◌, ◌++◌, ◌∷◌, [], option_map, IfOk, OnOk};
ghost use Rattle.std.specs.List.{filter_map};
ghost use Rattle.users_merge.specs.ByName.{found_in};
ghost use Rattle.users_merge.specs.Rows.{fixed, row_password, shadow_rest};
ghost use Rattle.users_merge.specs.ShadowRows.{declared_shadow, merged_shadow, shadow_beside, shadow_by};

use crate::by_name::ByName;
use crate::copied::Copied;
use account_text::{PasswdRow, ShadowRow};
use std::alloc::{AllocError, Global};
use switch_names::{Listed, Text};
use users_spec::{Spec, UserSpec};

/// The password of a shadow row, or the one with which a user begins.
fn row_password(alloc: Global, user: &UserSpec, old: Option<&ShadowRow>) -> Result<Text, AllocError>
    ensures { IfOk result (λ password. password ≡ row_password user.now (option_map (λ row. row.now) old.entry)) }
{
    if let Some(row) = old {
        return row.password.copy(alloc);
    }
    if let Some(hashed) = &user.hashed {
        return hashed.copy(alloc);
    }
    match &user.initial {
        Some(initial) => initial.copy(alloc),
        None => Text::from_str(alloc, "!"),
    }
}

/// The password of a declared user.
fn password(
    alloc: Global,
    mutable: bool,
    user: &UserSpec,
    old: Option<&ShadowRow>,
) -> Result<Text, AllocError>
    ensures { IfOk result (λ password. password ≡ fixed mutable user.now.hashed (row_password user.now (option_map (λ row. row.now) old.entry))) }
{
    if let Some(hashed) = &user.hashed
        && !mutable
    {
        return hashed.copy(alloc);
    }
    row_password(alloc, user, old)
}

/// How the password of a user ages.
fn rest(alloc: Global, old: Option<&ShadowRow>) -> Result<Text, AllocError>
    ensures { IfOk result (λ rest. rest ≡ shadow_rest (option_map (λ row. row.now) old.entry)) }
{
    match old {
        Some(row) => row.rest.copy(alloc),
        None => Text::from_str(alloc, "1::::::"),
    }
}

/// The shadow row of a declared user.
fn declared_row(
    alloc: Global,
    mutable: bool,
    user: &UserSpec,
    old: Option<&ShadowRow>,
) -> Result<ShadowRow, AllocError>
    ensures { IfOk result (λ row. row ≡ declared_shadow mutable user.now (option_map (λ row. row.now) old.entry)) }
{
    Ok(ShadowRow {
        name: user.name.copy(alloc)?,
        password: password(alloc, mutable, user, old)?,
        rest: rest(alloc, old)?,
    })
}

/// The shadow row of a user who has a passwd row.
fn shadow_row(
    alloc: Global,
    mutable: bool,
    user: Option<&UserSpec>,
    old: Option<&ShadowRow>,
) -> Result<Option<ShadowRow>, AllocError>
    ensures { IfOk result (λ row. row ≡ shadow_by mutable (option_map (λ user. user.now) user.entry) (option_map (λ row. row.now) old.entry)) }
{
    if let Some(user) = user {
        return Ok(Some(declared_row(alloc, mutable, user, old)?));
    }
    match old {
        Some(row) => Ok(Some(row.copied(alloc)?)),
        None => Ok(None),
    }
}

/// Adds the shadow row that goes with a passwd row, where there is one.
fn add_shadow_row(
    alloc: Global,
    mutable: bool,
    users: &ByName<'_, UserSpec>,
    old: &ByName<'_, ShadowRow>,
    rows: &mut Listed<ShadowRow>,
    passwd: &PasswdRow,
) -> Result<(), AllocError>
    ensures { OnOk result (rows.new ≡ rows.old ++ filter_map (shadow_beside mutable (found_in users.now.rows) (found_in old.now.rows)) (passwd.now ∷ [])) }
{
    let user = users.find(&passwd.name);
    match shadow_row(alloc, mutable, user, old.find(&passwd.name))? {
        Some(row) => rows.push(row),
        None => Ok(()),
    }
}

/// The shadow rows that go with passwd rows, in their order.
fn shadow_rows(
    alloc: Global,
    mutable: bool,
    users: &ByName<'_, UserSpec>,
    old: &ByName<'_, ShadowRow>,
    passwd: &[PasswdRow],
) -> Result<Listed<ShadowRow>, AllocError>
    ensures { IfOk result (λ rows. rows ≡ filter_map (shadow_beside mutable (found_in users.now.rows) (found_in old.now.rows)) passwd.now) }
{
    let mut rows = Listed::new(alloc);
    for one in passwd {
        add_shadow_row(alloc, mutable, users, old, &mut rows, one)?;
    }
    Ok(rows)
}

/// The shadow rows that a merge leaves, in the order of the passwd rows that it leaves.
///
/// Source: nixpkgs, update-users-groups.pl.
pub fn merged_shadow(
    alloc: Global,
    spec: &Spec,
    passwd: &[PasswdRow],
    table: &[ShadowRow],
) -> Result<Listed<ShadowRow>, AllocError>
    ensures { IfOk result (λ rows. rows ≡ merged_shadow spec.now.mutable spec.now.users table.now passwd.now) }
{
    let users = ByName::of(alloc, spec.users().as_slice())?;
    let old = ByName::of(alloc, table)?;
    shadow_rows(alloc, spec.mutable(), &users, &old, passwd)
}
