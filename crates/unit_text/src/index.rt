//! The keys that assignments assign, with their values.
ghost use Rattle.std.specs.Prelude.{◌≡◌, ◌<◌, ◌≤◌, ◌++◌, ◌∷◌, [], Some, List, length, OnOk, OnErr, IfOk, IfErr, slice_get, slice_index_or, slice_set, insert, vec_len};
ghost use Rattle.std.specs.List.Sorted.{IsStrictlySortedBy};
ghost use Rattle.unit_text.specs.declared.assignment.Assignment.{Assignment};
ghost use Rattle.unit_text.specs.UnitKey.{key_cmp, key_of};
ghost use Rattle.unit_text.specs.Index.{IsIndexOf, IsPlaceFor};
ghost use Rattle.unit_text.specs.UnitText.{values_of};

use crate::assignment::Assignment;
use crate::unit_key::UnitKey;
use std::alloc::{AllocError, Global};
use switch_names::{Listed, Text};

/// The keys that some assignments assign, in order, and beside each the values that it has after others
/// that stand before them.
pub struct Index {
    pub keys: Listed<UnitKey>,
    pub values: Vec<Listed<Text>>,
}

/// One call: a derived drop is proved anew in each function that lets one go.
impl Drop for Index {
    fn drop(self) {
        let Index { keys: _, values: _ } = self;
    }
}

impl Index {
    /// The index of no assignments.
    pub fn new(alloc: Global) -> Index
        ensures { (front : List Assignment) → IsIndexOf front [] result }
    {
        Index {
            keys: Listed::new(alloc),
            values: Vec::new(alloc),
        }
    }

    /// The index of a text, of which nothing is copied.
    ///
    /// The assignments are applied in the order of their keys, so that each new key goes to the end.
    pub fn of(alloc: Global, assignments: Vec<Assignment>) -> Result<Index, AllocError>
        ensures { IfOk result (λ index. IsIndexOf [] assignments.items index) }
    {
        let mut ordered = assignments;
        ordered.sort_by(|one, other| one.at.cmp(&other.at))?;
        let mut index = Index::new(alloc);
        for assignment in ordered {
            index.apply(alloc, &[], assignment)?;
        }
        Ok(index)
    }

    /// Where a key stands, or where it would.
    pub fn find(&self, section: &str, key: &str) -> Result<usize, usize>
        requires { IsStrictlySortedBy key_cmp self.now.keys }
        ensures found { IfOk result (λ at. slice_get self.now.keys at ≡ Some (key_of section.now key.now)) }
        ensures missing { IfErr result (λ at. IsPlaceFor self.now.keys (key_of section.now key.now) at) }
    {
        find_key(self.keys.as_slice(), section, key)
    }

    /// The values of a key that stands at a place.
    pub fn values_at(&self, at: usize) -> &[Text]
        requires { at < vec_len self.now.values }
        ensures { result.now ≡ slice_index_or self.now.values.items at [] }
    {
        self.values[at].as_slice()
    }

    /// Forgets the values of a key.
    fn clear(&mut self, alloc: Global, at: usize)
        requires { at < vec_len self.old.values }
        ensures keys { self.new.keys ≡ self.old.keys }
        ensures values { self.new.values.items ≡ slice_set self.old.values.items at [] }
    {
        self.values[at] = Listed::new(alloc);
    }

    /// Adds a key with its values.
    fn insert(&mut self, at: usize, key: UnitKey, values: Listed<Text>) -> Result<(), AllocError>
        requires key { at ≤ length self.old.keys }
        requires values { at ≤ vec_len self.old.values }
        ensures keys { OnOk result (self.new.keys ≡ insert self.old.keys at key) }
        ensures values { OnOk result (self.new.values.items ≡ insert self.old.values.items at values) }
        ensures same_keys { OnErr result (self.new.keys ≡ self.old.keys) }
        ensures same_values { OnErr result (self.new.values.items ≡ self.old.values.items) }
    {
        self.values.insert(at, values)?;
        if let Err(fault) = self.keys.insert(at, key) {
            let _ = self.values.remove(at);
            return Err(fault);
        }
        Ok(())
    }

    /// Adds a value to those of a key.
    fn add_value(&mut self, at: usize, value: Text) -> Result<(), AllocError>
        requires { at < vec_len self.old.values }
        ensures keys { self.new.keys ≡ self.old.keys }
        ensures values { OnOk result (self.new.values.items ≡ slice_set self.old.values.items at (slice_index_or self.old.values.items at [] ++ value ∷ [])) }
        ensures same_values { OnErr result (self.new.values.items ≡ self.old.values.items) }
    {
        self.values[at].push(value)
    }

    /// Applies one more assignment, of a key that has these values before those that are indexed.
    pub fn apply(
        &mut self,
        alloc: Global,
        before: &[Text],
        assignment: Assignment,
    ) -> Result<(), AllocError>
        requires sorted { IsStrictlySortedBy key_cmp self.old.keys }
        requires as_many { vec_len self.old.values ≡ length self.old.keys }
        ensures ok { (front later : List Assignment) → IsIndexOf front later self.old → before.now ≡ values_of front assignment.at
            → OnOk result (IsIndexOf front (later ++ assignment ∷ []) self.new) }
        ensures err { (front later : List Assignment) → IsIndexOf front later self.old → OnErr result (IsIndexOf front later self.new) }
    {
        let UnitKey { section, key } = &assignment.at;
        let is_empty = assignment.value.as_str().is_empty();
        match self.find(section.as_str(), key.as_str()) {
            Ok(at) if is_empty => {
                self.clear(alloc, at);
                Ok(())
            }
            Ok(at) => self.add_value(at, assignment.into_parts().1),
            Err(at) if is_empty => {
                self.insert(at, assignment.into_parts().0, Listed::new(alloc))
            }
            Err(at) => {
                let (key, value) = assignment.into_parts();
                self.insert(at, key, with_value(alloc, before, value)?)
            }
        }
    }
}

/// Where a key stands among keys in order, or where it would.
pub fn find_key(keys: &[UnitKey], section: &str, key: &str) -> Result<usize, usize>
    requires { IsStrictlySortedBy key_cmp keys.now }
    ensures found { IfOk result (λ at. slice_get keys.now at ≡ Some (key_of section.now key.now)) }
    ensures missing { IfErr result (λ at. IsPlaceFor keys.now (key_of section.now key.now) at) }
{
    keys.binary_search_by(|other| other.compare(section, key))
}

/// Adds copies of these values.
fn push_copies(alloc: Global, values: &mut Vec<Text>, others: &[Text]) -> Result<(), AllocError>
    ensures { OnOk result (values.new.items ≡ values.old.items ++ others.now) }
{
    for one in others {
        values.push(one.copy(alloc)?)?;
    }
    Ok(())
}

/// Copies of these values, and one more.
fn with_value(alloc: Global, before: &[Text], value: Text) -> Result<Listed<Text>, AllocError>
    ensures { IfOk result (λ values. values ≡ before.now ++ value ∷ []) }
{
    let mut values = Vec::with_capacity(alloc, before.len() + 1)?;
    push_copies(alloc, &mut values, before)?;
    values.push(value)?;
    Ok(Listed::from_vec(values))
}
