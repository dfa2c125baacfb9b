//! A list that contracts see as its items.
ghost use Rattle.std.specs.Prelude.{◌≡◌, ◌<◌, ◌≤◌, ◌++◌, [], ◌∷◌, length, take, drop, Some, IfOk, OnOk, OnErr, slice_get, slice_set};
ghost use Rattle.std.specs.List.Sorted.{IsStrictlySortedBy};

use std::alloc::{AllocError, Global};
use std::collections::BTreeSet;
use std::marker::Model;

/// A list of items in order.
pub struct Listed<T> {
    items: Vec<T>,
}

/// One call: a derived drop is proved anew in each function that lets one go.
impl<T: Drop> Drop for Listed<T> {
    fn drop(self) {
        let Listed { items: _ } = self;
    }
}

impl<T> Model for Listed<T> {
    ghost use Rattle.std.specs.Prelude.{List};

    ghost Value = { List T };

    ghost view = { λ list. list.items.items };
}

impl<T> Listed<T> {
    /// The empty list.
    pub fn new(alloc: Global) -> Listed<T>
        ensures { result ≡ [] }
    {
        Listed {
            items: Vec::new(alloc),
        }
    }

    /// The items of a vector, without a copy.
    pub fn from_vec(items: Vec<T>) -> Listed<T>
        ensures { result ≡ items.items }
    {
        Listed { items }
    }

    /// The items of a set, in its order.
    pub fn of_set(alloc: Global, set: BTreeSet<T>) -> Result<Listed<T>, AllocError>
    where
        T: Ord + Drop,
        ensures items { IfOk result (λ list. list ≡ set.keys) }
        ensures sorted { IsStrictlySortedBy T.cmp set.keys }
    {
        let mut list = Listed::new(alloc);
        for item in set {
            list.push(item)?;
        }
        Ok(list)
    }

    /// The items as a vector, without a copy.
    pub fn into_vec(self) -> Vec<T>
        ensures { result.items ≡ self }
    {
        let Listed { items } = self;
        items
    }

    /// Adds an item at the end.
    ///
    /// Where memory is wanting, the item is dropped.
    pub fn push(&mut self, item: T) -> Result<(), AllocError>
    where
        T: Drop,
        ensures ok { OnOk result (self.new ≡ self.old ++ item ∷ []) }
        ensures err { OnErr result (self.new ≡ self.old) }
    {
        self.items.push(item)?;
        Ok(())
    }

    /// Puts an item before the one at a place, or at the end.
    ///
    /// Where memory is wanting, the item is dropped.
    pub fn insert(&mut self, at: usize, item: T) -> Result<(), AllocError>
    where
        T: Drop,
        requires { at ≤ length self.old }
        ensures ok { OnOk result (self.new ≡ take at self.old ++ item ∷ drop at self.old) }
        ensures err { OnErr result (self.new ≡ self.old) }
    {
        self.items.insert(at, item)?;
        Ok(())
    }

    /// Takes the item at a place out.
    pub fn remove(&mut self, at: usize) -> T
        requires { at < length self.old }
        ensures taken { slice_get self.old at ≡ Some result }
        ensures rest { self.old ≡ take at self.new ++ result ∷ drop at self.new }
    {
        self.items.remove(at)
    }

    /// Puts an item in the place of another, and hands that one back.
    pub fn replace(&mut self, at: usize, item: T) -> T
        requires { at < length self.old }
        ensures was { slice_get self.old at ≡ Some result }
        ensures new { self.new ≡ slice_set self.old at item }
    {
        std::mem::replace(&mut self.items[at], item)
    }

    /// The items, lent.
    pub fn as_slice(&self) -> &[T]
        ensures { result.now ≡ self.now }
    {
        self.items.as_slice()
    }
}
