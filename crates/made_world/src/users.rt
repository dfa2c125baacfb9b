//! The users of a made machine.
ghost use Rattle.std.specs.Prelude.{◌≡◌, ◌∷◌, [], IfOk, OnOk, string_bytes};
ghost use Rattle.made_world.specs.Draws.{state_at};
ghost use Rattle.made_world.specs.Putting as systems;
ghost use Rattle.made_world.specs.Putting.{with_leaves};
ghost use Rattle.made_world.specs.Users.{spec_file, spec_text, user_text, users_leaves, with_object, with_user};

use crate::draws::Draws;
use crate::putting::{new_system, old_system, put_file};
use host_trait::World;
use std::alloc::{AllocError, Global};
use switch_names::SystemName;

/// A user as a specification declares it.
fn user_text(alloc: Global, number: u64, draw: u64) -> Result<String, AllocError>
    ensures { IfOk result (λ text. string_bytes text ≡ user_text number draw) }
{
    let is_system = draw / 16 % 2 == 1;
    format!(in alloc;
        "{{\"name\":\"user{number}\",\"group\":\"users\",\"isSystemUser\":{is_system}}}"
    )
}

/// Adds an object to objects.
fn add_object(objects: &mut String, object: &str) -> Result<(), AllocError>
    ensures { OnOk result (string_bytes objects.new ≡ with_object (string_bytes objects.old) object.now) }
{
    if !objects.is_empty() {
        objects.push(',')?;
    }
    objects.push_str(object)
}

/// Adds a user to the objects of a system, where this digit isn't 0.
fn add_user(
    alloc: Global,
    objects: &mut String,
    digit: u64,
    number: u64,
    draw: u64,
) -> Result<(), AllocError>
    ensures { OnOk result (string_bytes objects.new ≡ with_user digit number draw (string_bytes objects.old)) }
{
    if digit == 0 {
        return Ok(());
    }
    let object = user_text(alloc, number, draw)?;
    add_object(objects, object.as_str())
}

/// A specification that declares these users, and their group.
fn spec_text(alloc: Global, users: &str) -> Result<String, AllocError>
    ensures { IfOk result (λ text. string_bytes text ≡ spec_text users.now) }
{
    format!(in alloc;
        "{{\"mutableUsers\":true,\"groups\":[{{\"name\":\"users\",\"gid\":100}}],\"users\":[{users}]}}"
    )
}

/// Puts the specification of a system that declares these users.
fn put_spec(
    alloc: Global,
    world: &mut World,
    system: &SystemName,
    users: &str,
) -> Result<(), AllocError>
    ensures { OnOk result (world.new ≡ with_leaves (spec_file system.now users.now ∷ []) world.old) }
{
    let text = spec_text(alloc, users)?;
    put_file(alloc, world, system, "users-groups.json", text.as_str())
}

/// Puts the specifications of both systems.
fn put_specs(
    alloc: Global,
    world: &mut World,
    old_users: &str,
    new_users: &str,
) -> Result<(), AllocError>
    ensures { OnOk result (world.new ≡ with_leaves (spec_file systems.old_system old_users.now ∷ spec_file systems.new_system new_users.now ∷ []) world.old) }
{
    let old = old_system(alloc)?;
    let new = new_system(alloc)?;
    put_spec(alloc, world, &old, old_users)?;
    put_spec(alloc, world, &new, new_users)
}

/// Puts the users with these draws.
pub(crate) fn make_users(
    alloc: Global,
    world: &mut World,
    draws: &mut Draws,
    users: u32,
) -> Result<(), AllocError>
    ensures world { OnOk result (world.new ≡ with_leaves (users_leaves draws.old.state users) world.old) }
    ensures draws { OnOk result (draws.new.state ≡ state_at draws.old.state users) }
{
    let mut old_users = String::new(alloc);
    let mut new_users = String::new(alloc);
    for number in 0..u64::from(users) {
        let draw = draws.draw();
        add_user(alloc, &mut old_users, draw % 4, number, draw)?;
        add_user(alloc, &mut new_users, draw / 4 % 4, number, draw)?;
    }
    put_specs(alloc, world, old_users.as_str(), new_users.as_str())
}
