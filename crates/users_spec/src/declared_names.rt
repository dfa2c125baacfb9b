//! The names that were declared so far.
ghost use Rattle.std.specs.Prelude.{◌≡◌, ◌++◌, [], ◌∷◌, OnOk};
ghost use Rattle.users_spec.specs.Fields.{Gives, once};

use crate::spec_fault::SpecFault;
use indexmap::IndexSet;
use std::alloc::Global;
use std::marker::Model;
use switch_names::Text;

/// Names in the order of declaration, each once.
pub struct DeclaredNames {
    names: IndexSet<Text>,
}

/// One call: a derived drop is proved anew in each function that lets one go.
impl Drop for DeclaredNames {
    fn drop(self) {
        let DeclaredNames { names: _ } = self;
    }
}

impl Model for DeclaredNames {
    ghost use Rattle.std.specs.Prelude.{List, ℕ};

    ghost Value = { List (List ℕ) };

    ghost view = { λ declared. declared.names.keys };
}

impl DeclaredNames {
    /// No names.
    pub fn new(alloc: Global) -> DeclaredNames
        ensures { result ≡ [] }
    {
        DeclaredNames {
            names: IndexSet::new(alloc),
        }
    }

    /// Declares a name after the others.
    #[tactic(auto, using(crate::proofs::Lists::has_bytes_eq), unfolding(crate::specs::Fields::once))]
    pub fn declare(&mut self, alloc: Global, name: &Text) -> Result<(), SpecFault>
        ensures once { Gives result (once self.old name.now) }
        ensures names { OnOk result (self.new ≡ self.old ++ name.now ∷ []) }
    {
        if !self.names.insert(name.copy(alloc)?)? {
            return Err(SpecFault::Twice(name.copy(alloc)?));
        }
        Ok(())
    }
}
