//! Groups of a specification.
ghost use Rattle.std.specs.Prelude.{◌≡◌, ◌++◌, [], ◌∷◌, map, IfOk};
ghost use Rattle.serde_json.specs.View.{view};
ghost use Rattle.users_spec.specs.Fields.{Gives, read_each};
ghost use Rattle.users_spec.specs.GroupSpec.{group_at, group_after};

use crate::declared_names::DeclaredNames;
use crate::object::Object;
use crate::place::{Place, place_number};
use crate::spec_fault::SpecFault;
use serde_json::Value;
use std::alloc::Global;
use switch_names::{Listed, Text};

/// A declared group.
///
/// Source: NixOS manual, option `users.groups`.
pub struct GroupSpec {
    /// Its name.
    pub name: Text,
    /// Its id, where the specification gives one.
    pub gid: Option<u32>,
    /// The names of its members, in the order of the specification.
    pub members: Listed<Text>,
}

/// One call: a derived drop is proved anew in each function that lets one go.
impl Drop for GroupSpec {
    fn drop(self) {
        let GroupSpec {
            name: _,
            gid: _,
            members: _,
        } = self;
    }
}

/// Reads the group at a place.
fn group_at(
    alloc: Global,
    names: &mut DeclaredNames,
    object: &Object,
) -> Result<GroupSpec, SpecFault>
    ensures read { Gives result (group_at object.now.place names.old (view object.now.value.now)) }
    ensures names { IfOk result (λ group. names.new ≡ names.old ++ group.name ∷ []) }
{
    object.check(alloc)?;
    let name = object.name(alloc, "name")?;
    names.declare(alloc, &name)?;
    let gid = object.id(alloc, "gid")?;
    let members = object.names(alloc, "members")?;
    Ok(GroupSpec { name, gid, members })
}

/// Reads groups in the order of declaration.
pub fn groups_of(alloc: Global, values: &[Value]) -> Result<Listed<GroupSpec>, SpecFault>
    ensures { Gives result (read_each group_after [] (map view values.now)) }
{
    let mut names = DeclaredNames::new(alloc);
    let mut groups = Listed::new(alloc);
    for (at, value) in values.iter().enumerate() {
        let place = Place::Group(place_number(at));
        groups.push(group_at(alloc, &mut names, &Object { place, value })?)?;
    }
    Ok(groups)
}
