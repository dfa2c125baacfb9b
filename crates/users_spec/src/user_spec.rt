//! Users of a specification.
ghost use Rattle.std.specs.Prelude.{◌≡◌, ◌++◌, [], ◌∷◌, map, IfOk};
ghost use Rattle.serde_json.specs.View.{view};
ghost use Rattle.users_spec.specs.Fields.{Gives, read_each};
ghost use Rattle.users_spec.specs.UserSpec.{no_clear_password, hashes_at, texts_at, user_named, user_at, user_after};

use crate::declared_names::DeclaredNames;
use crate::object::Object;
use crate::place::{Place, place_number};
use crate::spec_fault::SpecFault;
use serde_json::Value;
use std::alloc::Global;
use switch_names::{Listed, Text};

/// The home of a user who is given none.
const EMPTY_HOME: &str = "/var/empty";

/// The shell of a user who is given none.
const NOLOGIN: &str = "/run/current-system/sw/bin/nologin";

/// A declared user.
///
/// Source: NixOS manual, option `users.users`.
pub struct UserSpec {
    /// Its name.
    pub name: Text,
    /// Its id, where the specification gives one.
    pub uid: Option<u32>,
    /// The name of its group.
    pub group: Text,
    /// Whether it is a system user, which changes the range of its id.
    pub system: bool,
    /// A description, often the full name.
    pub description: Text,
    /// Its home.
    pub home: Text,
    /// Its shell.
    pub shell: Text,
    /// The hash of its password.
    pub hashed: Option<Text>,
    /// The hash of its first password.
    pub initial: Option<Text>,
}

/// One call: a derived drop is proved anew in each function that lets one go.
impl Drop for UserSpec {
    fn drop(self) {
        let UserSpec {
            name: _,
            uid: _,
            group: _,
            system: _,
            description: _,
            home: _,
            shell: _,
            hashed: _,
            initial: _,
        } = self;
    }
}

/// That no password stands in clear text or in a file.
fn no_clear_password(alloc: Global, object: &Object) -> Result<(), SpecFault>
    ensures { Gives result (no_clear_password object.now.place (view object.now.value.now)) }
{
    object.left_out(alloc, "password")?;
    object.left_out(alloc, "initialPassword")?;
    object.left_out(alloc, "hashedPasswordFile")
}

/// The hash of a user's password and that of its first password.
fn hashes_at(alloc: Global, object: &Object) -> Result<(Option<Text>, Option<Text>), SpecFault>
    ensures { Gives result (hashes_at object.now.place (view object.now.value.now)) }
{
    let hashed = object.text(alloc, "hashedPassword")?;
    let initial = object.text(alloc, "initialHashedPassword")?;
    no_clear_password(alloc, object)?;
    Ok((hashed, initial))
}

/// The description, the home and the shell of a user.
fn texts_at(alloc: Global, object: &Object) -> Result<(Text, Text, Text), SpecFault>
    ensures { Gives result (texts_at object.now.place (view object.now.value.now)) }
{
    let description = object.text_or(alloc, "description", "")?;
    let home = object.text_or(alloc, "home", EMPTY_HOME)?;
    let shell = object.text_or(alloc, "shell", NOLOGIN)?;
    Ok((description, home, shell))
}

/// Reads a user of this name.
fn user_named(alloc: Global, name: Text, object: &Object) -> Result<UserSpec, SpecFault>
    ensures read { Gives result (user_named name object.now.place (view object.now.value.now)) }
    ensures name { IfOk result (λ user. user.name ≡ name) }
{
    let group = object.name(alloc, "group")?;
    let uid = object.id(alloc, "uid")?;
    let system = object.truth_or(alloc, "isSystemUser", false)?;
    let (description, home, shell) = texts_at(alloc, object)?;
    let (hashed, initial) = hashes_at(alloc, object)?;
    Ok(UserSpec {
        name,
        uid,
        group,
        system,
        description,
        home,
        shell,
        hashed,
        initial,
    })
}

/// Reads the user at a place.
fn user_at(alloc: Global, names: &mut DeclaredNames, object: &Object) -> Result<UserSpec, SpecFault>
    ensures read { Gives result (user_at object.now.place names.old (view object.now.value.now)) }
    ensures names { IfOk result (λ user. names.new ≡ names.old ++ user.name ∷ []) }
{
    object.check(alloc)?;
    let name = object.name(alloc, "name")?;
    names.declare(alloc, &name)?;
    user_named(alloc, name, object)
}

/// Reads users in the order of declaration.
pub fn users_of(alloc: Global, values: &[Value]) -> Result<Listed<UserSpec>, SpecFault>
    ensures { Gives result (read_each user_after [] (map view values.now)) }
{
    let mut names = DeclaredNames::new(alloc);
    let mut users = Listed::new(alloc);
    for (at, value) in values.iter().enumerate() {
        let place = Place::User(place_number(at));
        users.push(user_at(alloc, &mut names, &Object { place, value })?)?;
    }
    Ok(users)
}
