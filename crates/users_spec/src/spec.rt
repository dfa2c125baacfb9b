//! The account specification of a system.
ghost use Rattle.std.specs.Prelude.{◌≡◌, ◌⊎◌, Ok, Err, IfOk, IfErr};
ghost use Rattle.serde_json.specs.View.{view};
ghost use Rattle.users_spec.specs.Fields.{Gives, GivesBy};
ghost use Rattle.users_spec.specs.Spec.{Accounts, json_of, accounts_in, accounts_of, IsSound};

use crate::group_spec::{GroupSpec, groups_of};
use crate::object::Object;
use crate::place::Place;
use crate::spec_fault::SpecFault;
use crate::user_spec::{UserSpec, users_of};
use serde_json::Value;
use std::alloc::Global;
use std::marker::Model;
use switch_names::Listed;

/// The accounts that a system declares.
///
/// Contracts see whether accounts that aren't declared stay, and the groups and the users in the
/// order of declaration.
pub struct Spec {
    mutable: bool,
    groups: Listed<GroupSpec>,
    users: Listed<UserSpec>,
}

/// One call: a derived drop is proved anew in each function that lets one go.
impl Drop for Spec {
    fn drop(self) {
        let Spec {
            mutable: _,
            groups: _,
            users: _,
        } = self;
    }
}

impl Model for Spec {
    ghost use Rattle.users_spec.specs.Spec.{Accounts, IsSound};

    ghost Value = { Accounts };

    ghost view = { λ spec. record { mutable = spec.mutable; groups = spec.groups; users = spec.users } };

    ghost invariant = { λ spec. IsSound (record { mutable = spec.mutable; groups = spec.groups; users = spec.users }) };
}

/// The JSON value of a text.
#[tactic(auto, unfolding(crate::specs::Spec::json_of))]
fn json_of(alloc: Global, bytes: &[u8]) -> Result<Value, SpecFault>
    ensures { GivesBy view result (json_of bytes.now) }
{
    match Value::from_slice(alloc, bytes) {
        Ok(value) => Ok(value),
        Err(fault) if fault.is_memory() => Err(SpecFault::Memory),
        Err(_) => Err(SpecFault::Json),
    }
}

impl Spec {
    /// The accounts of a JSON value.
    fn of_value(alloc: Global, value: &Value) -> Result<Spec, SpecFault>
        ensures { Gives result (accounts_in (view value.now)) }
    {
        let top = Object {
            place: Place::Top,
            value,
        };
        top.check(alloc)?;
        let mutable = top.truth(alloc, "mutableUsers")?;
        let group_values = top.list(alloc, "groups")?;
        let user_values = top.list(alloc, "users")?;
        let groups = groups_of(alloc, group_values)?;
        let users = users_of(alloc, user_values)?;
        Ok(Spec {
            mutable,
            groups,
            users,
        })
    }

    /// Reads the account specification of a system.
    ///
    /// The faults are sought in this order: `Json`; the keys of the top; then each group, and then
    /// each user. In one of them that it is an object, its name, that the name is new, and its
    /// further keys are sought, and of each key `Field` before `Name`.
    ///
    /// Source: nixpkgs, update-users-groups.pl, which reads it.
    #[tactic(auto, unfolding(crate::specs::Fields::read_and_then))]
    pub fn read(alloc: Global, bytes: &[u8]) -> Result<Spec, SpecFault>
        ensures ok { IfOk result (λ spec. accounts_of bytes.now ≡ Ok spec) }
        ensures sound { (accounts : Accounts) → accounts_of bytes.now ≡ Ok accounts → IsSound accounts }
        ensures fault { IfErr result (λ fault. (fault ≡ SpecFault.Memory) ⊎ (accounts_of bytes.now ≡ Err fault)) }
    {
        let value = json_of(alloc, bytes)?;
        Spec::of_value(alloc, &value)
    }

    /// The users, in the order of declaration.
    pub fn users(&self) -> &Listed<UserSpec>
        ensures users { result.now ≡ self.now.users }
        ensures sound { IsSound self.now }
    {
        &self.users
    }

    /// The groups, in the order of declaration.
    pub fn groups(&self) -> &Listed<GroupSpec>
        ensures groups { result.now ≡ self.now.groups }
        ensures sound { IsSound self.now }
    {
        &self.groups
    }

    /// Whether accounts and members that aren't declared stay.
    ///
    /// Source: NixOS manual, option `users.mutableUsers`.
    pub fn mutable(&self) -> bool
        ensures { result ≡ self.now.mutable }
    {
        self.mutable
    }
}
