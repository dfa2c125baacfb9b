//! A file that several texts may share.
ghost use Rattle.std.specs.Prelude.{◌≡◌, true, List, None, map, IfOk, OnOk};
ghost use Rattle.unit_text.specs.declared.unit_key.UnitKey.{UnitKey};
ghost use Rattle.unit_text.specs.TextFault.{IsRefusedBy, text_fault};
ghost use Rattle.unit_text.specs.UnitKey.{key_of};
ghost use Rattle.unit_text.specs.UnitText.{AreAssignedIn, assignments, values_of};

use crate::assignment::Assignment;
use crate::index::Index;
use crate::reader::read;
use crate::text_fault::TextFault;
use crate::unit_key::UnitKey;
use std::alloc::{AllocError, Global};
use std::marker::Model;
use switch_names::{Listed, Text};

/// A file, with the index of its assignments.
///
/// Contracts see the list of the assignments. They aren't kept beside the index, but read again where
/// they are asked for.
pub struct Layer {
    bytes: Vec<u8>,
    index: Index,
}

/// One call: a derived drop is proved anew in each function that lets one go.
impl Drop for Layer {
    fn drop(self) {
        let Layer { bytes: _, index: _ } = self;
    }
}

impl Model for Layer {
    ghost use Rattle.std.specs.Prelude.{List, []};
    ghost use Rattle.unit_text.specs.declared.assignment.Assignment.{Assignment};
    ghost use Rattle.unit_text.specs.UnitText.{assignments};

    ghost Value = { List Assignment };

    ghost use Rattle.unit_text.specs.Layer.{IsLayer};

    ghost view = { λ layer. assignments layer.bytes.items };

    ghost invariant = { λ layer. IsLayer layer.bytes.items layer.index };
}

impl Layer {
    /// Reads a file.
    pub fn read(alloc: Global, bytes: &[u8]) -> Result<Layer, TextFault>
        ensures ok { IfOk result (λ layer. layer ≡ assignments bytes.now) }
        ensures sound { OnOk result (text_fault bytes.now ≡ None) }
        ensures fault { IsRefusedBy result (text_fault bytes.now) }
    {
        let index = Index::of(alloc, read(alloc, bytes)?)?;
        Ok(Layer {
            bytes: Vec::from_slice(alloc, bytes)?,
            index,
        })
    }

    /// Whether the file has these bytes.
    pub fn has_bytes(&self, bytes: &[u8]) -> bool
        ensures text { result ≡ true → self.now ≡ assignments bytes.now }
        ensures sound { result ≡ true → text_fault bytes.now ≡ None }
    {
        self.bytes.as_slice() == bytes
    }

    /// Whether another file has the same bytes.
    pub fn is_same_file(&self, other: &Layer) -> bool
        ensures { result ≡ true → self.now ≡ other.now }
    {
        self.has_bytes(other.bytes.as_slice())
    }

    /// The assignments. What was read once can be read again, if there is memory.
    pub fn assignments(&self, alloc: Global) -> Result<Vec<Assignment>, AllocError>
        ensures { IfOk result (λ all. all.items ≡ self.now) }
    {
        match read(alloc, self.bytes.as_slice()) {
            Ok(all) => Ok(all),
            Err(TextFault::Memory) => Err(AllocError),
            Err(_fault) => unreachable!(),
        }
    }

    /// The values that a key is given after the last empty assignment.
    pub fn values(&self, section: &str, key: &str) -> &[Text]
        ensures { result.now ≡ values_of self.now (key_of section.now key.now) }
    {
        match self.index.find(section, key) {
            Ok(at) => self.index.values_at(at),
            Err(_) => &[],
        }
    }

    /// The keys that are assigned, by section and then by key.
    pub fn keys(&self) -> &[UnitKey]
        ensures { AreAssignedIn self.now result.now }
    {
        self.index.keys.as_slice()
    }

    /// The values of each key, in the order of `keys`.
    pub fn values_by_key(&self) -> &[Listed<Text>]
        ensures { (keys : List UnitKey) → AreAssignedIn self.now keys → result.now ≡ map (values_of self.now) keys }
    {
        self.index.values.as_slice()
    }
}
