//! The keys of an object.
ghost use Rattle.std.specs.Prelude.{◌≡◌, ◌⊎◌, map, option_map};
ghost use Rattle.std.specs.Option.{ok_or};
ghost use Rattle.serde_json.specs.Find.{get, as_bool};
ghost use Rattle.serde_json.specs.View.{view};
ghost use Rattle.users_spec.specs.Fields.{Gives, GivesBy, present, needed, or_default, if_any, left_out, field, as_id, as_list, as_plain, object_at, name_at, names_at};

use crate::account_name::is_account_name;
use crate::forms::{are_names, as_id, as_list, as_plain, texts_of};
use crate::place::Place;
use crate::spec_fault::SpecFault;
use serde_json::Value;
use std::alloc::Global;
use switch_names::{Listed, Text};

/// A value that is to be an object, and where it stands.
#[derive(Clone, Copy)]
pub struct Object<'a> {
    pub place: Place,
    pub value: &'a Value,
}

impl<'a> Object<'a> {
    /// That a key hasn't its form.
    fn fault(&self, alloc: Global, key: &str) -> SpecFault
        ensures { (result ≡ SpecFault.Memory) ⊎ (result ≡ SpecFault.Field self.now.place key.now) }
    {
        match Text::from_str(alloc, key) {
            Ok(key) => SpecFault::Field(self.place, key),
            Err(_) => SpecFault::Memory,
        }
    }

    /// The value of a key, where it has one other than null.
    fn present(&self, key: &str) -> Option<&'a Value>
        ensures { option_map (λ value. view value.now) result ≡ present (get key.now (view self.now.value.now)) }
    {
        match self.value.get(key) {
            Some(value) if !value.is_null() => Some(value),
            _ => None,
        }
    }

    /// That the value is an object.
    #[tactic(auto, unfolding(crate::specs::Fields::object_at))]
    pub fn check(&self, alloc: Global) -> Result<(), SpecFault>
        ensures { Gives result (object_at self.now.place (view self.now.value.now)) }
    {
        if self.value.is_object() {
            Ok(())
        } else {
            Err(self.fault(alloc, ""))
        }
    }

    /// The truth value of a key.
    #[tactic(auto, unfolding(crate::specs::Fields::field))]
    pub fn truth(&self, alloc: Global, key: &str) -> Result<bool, SpecFault>
        ensures { Gives result (field (needed as_bool) self.now.place key.now (view self.now.value.now)) }
    {
        match self.value.get(key).and_then(Value::as_bool) {
            Some(truth) => Ok(truth),
            None => Err(self.fault(alloc, key)),
        }
    }

    /// The truth value of a key, or a default.
    #[tactic(auto, unfolding(crate::specs::Fields::field))]
    pub fn truth_or(&self, alloc: Global, key: &str, default: bool) -> Result<bool, SpecFault>
        ensures { Gives result (field (or_default default as_bool) self.now.place key.now (view self.now.value.now)) }
    {
        let Some(value) = self.present(key) else {
            return Ok(default);
        };
        match value.as_bool() {
            Some(truth) => Ok(truth),
            None => Err(self.fault(alloc, key)),
        }
    }

    /// The list of a key.
    #[tactic(auto, unfolding(crate::specs::Fields::field))]
    pub fn list(&self, alloc: Global, key: &str) -> Result<&'a [Value], SpecFault>
        ensures { GivesBy (λ list. map view list.now) result (field (needed as_list) self.now.place key.now (view self.now.value.now)) }
    {
        match self.value.get(key).and_then(as_list) {
            Some(list) => Ok(list),
            None => Err(self.fault(alloc, key)),
        }
    }

    /// The id of a key, if it has one.
    #[tactic(auto, unfolding(crate::specs::Fields::field))]
    pub fn id(&self, alloc: Global, key: &str) -> Result<Option<u32>, SpecFault>
        ensures { Gives result (field (if_any as_id) self.now.place key.now (view self.now.value.now)) }
    {
        let Some(value) = self.present(key) else {
            return Ok(None);
        };
        match as_id(value) {
            Some(id) => Ok(Some(id)),
            None => Err(self.fault(alloc, key)),
        }
    }

    /// A text that the value of a key is to be.
    fn text_of(&self, alloc: Global, key: &str, value: &Value) -> Result<Text, SpecFault>
        ensures { Gives result (ok_or (as_plain (view value.now)) (SpecFault.Field self.now.place key.now)) }
    {
        match as_plain(value) {
            Some(text) => Ok(Text::from_str(alloc, text)?),
            None => Err(self.fault(alloc, key)),
        }
    }

    /// The text of a key, or a default.
    #[tactic(auto, unfolding(crate::specs::Fields::field))]
    pub fn text_or(&self, alloc: Global, key: &str, default: &str) -> Result<Text, SpecFault>
        ensures { Gives result (field (or_default default.now as_plain) self.now.place key.now (view self.now.value.now)) }
    {
        match self.present(key) {
            Some(value) => self.text_of(alloc, key, value),
            None => Ok(Text::from_str(alloc, default)?),
        }
    }

    /// The text of a key, if it has one.
    #[tactic(auto, unfolding(crate::specs::Fields::field))]
    pub fn text(&self, alloc: Global, key: &str) -> Result<Option<Text>, SpecFault>
        ensures { Gives result (field (if_any as_plain) self.now.place key.now (view self.now.value.now)) }
    {
        match self.present(key) {
            Some(value) => Ok(Some(self.text_of(alloc, key, value)?)),
            None => Ok(None),
        }
    }

    /// That a key has no value.
    #[tactic(auto, unfolding(crate::specs::Fields::field))]
    pub fn left_out(&self, alloc: Global, key: &str) -> Result<(), SpecFault>
        ensures { Gives result (field left_out self.now.place key.now (view self.now.value.now)) }
    {
        match self.present(key) {
            Some(_) => Err(self.fault(alloc, key)),
            None => Ok(()),
        }
    }

    /// The name of a key.
    #[tactic(auto, unfolding(crate::specs::Fields::name_at, crate::specs::Fields::field, crate::specs::Fields::read_and_then))]
    pub fn name(&self, alloc: Global, key: &str) -> Result<Text, SpecFault>
        ensures { Gives result (name_at self.now.place key.now (view self.now.value.now)) }
    {
        let Some(text) = self.value.get(key).and_then(as_plain) else {
            return Err(self.fault(alloc, key));
        };
        if is_account_name(text) {
            Ok(Text::from_str(alloc, text)?)
        } else {
            Err(SpecFault::Name(self.place))
        }
    }

    /// The names of a key, or none.
    #[tactic(auto, unfolding(crate::specs::Fields::names_at, crate::specs::Fields::field, crate::specs::Fields::read_and_then))]
    pub fn names(&self, alloc: Global, key: &str) -> Result<Listed<Text>, SpecFault>
        ensures { Gives result (names_at self.now.place key.now (view self.now.value.now)) }
    {
        let Some(value) = self.value.get(key) else {
            return Ok(Listed::new(alloc));
        };
        let Some(list) = as_list(value) else {
            return Err(self.fault(alloc, key));
        };
        let Some(names) = texts_of(alloc, list)? else {
            return Err(self.fault(alloc, key));
        };
        if are_names(names.as_slice()) {
            Ok(names)
        } else {
            Err(SpecFault::Name(self.place))
        }
    }
}
