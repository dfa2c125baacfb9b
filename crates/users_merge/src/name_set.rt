//! A set of names that contracts see as the names in order.
ghost use Rattle.std.specs.Prelude.{◌≡◌, ◌||◌, [], map, IfOk, OnOk};
ghost use Rattle.std.specs.List.Sorted.{IsStrictlySortedBy};
ghost use Rattle.host_trait.specs.Bytes.{bytes_cmp};
ghost use Rattle.switch_names.specs.Names.{Name, has, is_name};

use crate::named::Named;
use std::alloc::{AllocError, Global};
use std::collections::BTreeSet;
use std::marker::Model;
use switch_names::{Listed, Text};

/// Names in byte order, each once.
pub struct NameSet {
    names: BTreeSet<Text>,
}

/// One call: a derived drop is proved anew in each function that lets one go.
impl Drop for NameSet {
    fn drop(self) {
        let NameSet { names: _ } = self;
    }
}

impl Model for NameSet {
    ghost use Rattle.std.specs.Prelude.{List, ℕ};

    ghost Value = { List (List ℕ) };

    ghost view = { λ set. set.names.keys };
}

impl NameSet {
    /// The empty set.
    pub fn new(alloc: Global) -> NameSet
        ensures { result ≡ [] }
    {
        NameSet {
            names: BTreeSet::new(alloc),
        }
    }

    /// The names of these.
    pub fn of<N: Named>(alloc: Global, items: &[N]) -> Result<NameSet, AllocError>
        ensures { IfOk result (λ set. (name : Name) → has set name ≡ has (map N.name_of items.now) name) }
    {
        let mut set = NameSet::new(alloc);
        set.insert_all(alloc, items)?;
        Ok(set)
    }

    /// Adds a name.
    pub fn insert(&mut self, name: Text) -> Result<(), AllocError>
        ensures { OnOk result ((other : Name) → has self.new other ≡ (has self.old other || is_name other name)) }
    {
        self.names.insert(name)?;
        Ok(())
    }

    /// Adds the names of these.
    pub fn insert_all<N: Named>(&mut self, alloc: Global, items: &[N]) -> Result<(), AllocError>
        ensures { OnOk result ((name : Name) → has self.new name ≡ (has self.old name || has (map N.name_of items.now) name)) }
    {
        for item in items {
            self.insert(item.name().copy(alloc)?)?;
        }
        Ok(())
    }

    /// Whether a name is there.
    pub fn contains(&self, name: &Text) -> bool
        ensures { result ≡ has self.now name.now }
    {
        self.names.contains(name)
    }

    /// The names in byte order.
    pub fn into_names(self, alloc: Global) -> Result<Listed<Text>, AllocError>
        ensures names { IfOk result (λ names. names ≡ self) }
        ensures sorted { IsStrictlySortedBy bytes_cmp self }
    {
        let NameSet { names } = self;
        Listed::of_set(alloc, names)
    }
}
