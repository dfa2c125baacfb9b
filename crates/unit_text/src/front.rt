//! What the copies of a text share.
ghost use Rattle.std.specs.Prelude.{◌≡◌, true, [], List, None, map, IfOk, OnOk};
ghost use Rattle.unit_text.specs.declared.unit_key.UnitKey.{UnitKey};
ghost use Rattle.unit_text.specs.TextFault.{IsRefusedBy, text_fault};
ghost use Rattle.unit_text.specs.UnitKey.{key_of};
ghost use Rattle.unit_text.specs.UnitText.{AreAssignedIn, assignments, values_of};

use crate::assignment::Assignment;
use crate::layer::Layer;
use crate::text_fault::TextFault;
use crate::unit_key::UnitKey;
use std::alloc::{AllocError, Global};
use std::marker::Model;
use std::rc::Rc;
use switch_names::{Listed, Text};

/// The assignments with which a text begins, which its copies share.
///
/// Contracts see the list of the assignments.
pub struct Front {
    layer: Option<Rc<Layer>>,
}

/// One call: a derived drop is proved anew in each function that lets one go.
impl Drop for Front {
    fn drop(self) {
        let Front { layer: _ } = self;
    }
}

impl Model for Front {
    ghost use Rattle.std.specs.Prelude.{List, []};
    ghost use Rattle.std.specs.Option.{option_map_or};
    ghost use Rattle.std.specs.Rc.{rc_value};
    ghost use Rattle.unit_text.specs.declared.assignment.Assignment.{Assignment};

    ghost Value = { List Assignment };

    ghost view = { λ front. option_map_or rc_value front.layer [] };
}

impl Front {
    /// No assignments.
    pub fn none() -> Front
        ensures { result ≡ [] }
    {
        Front { layer: None }
    }

    /// Reads a file.
    pub fn read(alloc: Global, bytes: &[u8]) -> Result<Front, TextFault>
        ensures ok { IfOk result (λ front. front ≡ assignments bytes.now) }
        ensures sound { OnOk result (text_fault bytes.now ≡ None) }
        ensures fault { IsRefusedBy result (text_fault bytes.now) }
    {
        let layer = Layer::read(alloc, bytes)?;
        Ok(Front {
            layer: Some(Rc::new(alloc, layer)?),
        })
    }

    /// Whether these are the assignments of a file with these bytes.
    fn has_bytes(&self, bytes: &[u8]) -> bool
        ensures text { result ≡ true → self.now ≡ assignments bytes.now }
        ensures sound { result ≡ true → text_fault bytes.now ≡ None }
    {
        match &self.layer {
            Some(layer) => layer.as_ref().has_bytes(bytes),
            None => false,
        }
    }

    /// Reads a file, or shares what was read of one with the same bytes.
    pub fn read_beside(alloc: Global, bytes: &[u8], other: &Front) -> Result<Front, TextFault>
        ensures ok { IfOk result (λ front. front ≡ assignments bytes.now) }
        ensures sound { OnOk result (text_fault bytes.now ≡ None) }
        ensures fault { IsRefusedBy result (text_fault bytes.now) }
    {
        if other.has_bytes(bytes) {
            Ok(other.copy()?)
        } else {
            Front::read(alloc, bytes)
        }
    }

    /// Whether both are the assignments of files with the same bytes.
    pub fn is_same_file(&self, other: &Front) -> bool
        ensures { result ≡ true → self.now ≡ other.now }
    {
        match (&self.layer, &other.layer) {
            (Some(one), Some(other)) => one.as_ref().is_same_file(other.as_ref()),
            _other => false,
        }
    }

    /// The same assignments, which both share.
    pub fn copy(&self) -> Result<Front, AllocError>
        ensures { IfOk result (λ copied. copied ≡ self.now) }
    {
        match &self.layer {
            Some(layer) => Ok(Front {
                layer: Some(layer.clone()?),
            }),
            None => Ok(Front::none()),
        }
    }

    /// The assignments.
    pub fn assignments(&self, alloc: Global) -> Result<Vec<Assignment>, AllocError>
        ensures { IfOk result (λ all. all.items ≡ self.now) }
    {
        match &self.layer {
            Some(layer) => layer.as_ref().assignments(alloc),
            None => Ok(Vec::new(alloc)),
        }
    }

    /// The values that a key is given after the last empty assignment.
    pub fn values(&self, section: &str, key: &str) -> &[Text]
        ensures { result.now ≡ values_of self.now (key_of section.now key.now) }
    {
        match &self.layer {
            Some(layer) => layer.as_ref().values(section, key),
            None => &[],
        }
    }

    /// The keys that are assigned, by section and then by key.
    pub fn keys(&self) -> &[UnitKey]
        ensures { AreAssignedIn self.now result.now }
    {
        match &self.layer {
            Some(layer) => layer.as_ref().keys(),
            None => &[],
        }
    }

    /// The values of each key, in the order of `keys`.
    pub fn values_by_key(&self) -> &[Listed<Text>]
        ensures { (keys : List UnitKey) → AreAssignedIn self.now keys → result.now ≡ map (values_of self.now) keys }
    {
        match &self.layer {
            Some(layer) => layer.as_ref().values_by_key(),
            None => &[],
        }
    }
}
