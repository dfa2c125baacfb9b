//! Keys of a unit file, each in its section.
ghost use Rattle.std.specs.Prelude.{◌≡◌, IfOk};
ghost use Rattle.unit_text.specs.UnitKey.{key_cmp, key_of};

use std::alloc::{AllocError, Global};
use std::cmp::Ordering;
use switch_names::Text;

/// A key and the section in which it stands.
#[derive(PartialEq, Eq, PartialOrd, Ord)]
pub struct UnitKey {
    pub section: Text,
    pub key: Text,
}

/// One call: a derived drop is proved anew in each function that lets one go.
impl Drop for UnitKey {
    fn drop(self) {
        let UnitKey { section: _, key: _ } = self;
    }
}

impl UnitKey {
    /// The pair of copies of two texts.
    pub(crate) fn from_strs(alloc: Global, section: &str, key: &str) -> Result<UnitKey, AllocError>
        ensures { IfOk result (λ made. made ≡ key_of section.now key.now) }
    {
        Ok(UnitKey {
            section: Text::from_str(alloc, section)?,
            key: Text::from_str(alloc, key)?,
        })
    }

    /// An equal pair.
    pub(crate) fn copy(&self, alloc: Global) -> Result<UnitKey, AllocError>
        ensures { IfOk result (λ copied. copied ≡ self.now) }
    {
        UnitKey::from_strs(alloc, self.section.as_str(), self.key.as_str())
    }

    /// How this pair stands to another, by section and then by key.
    pub(crate) fn compare(&self, section: &str, key: &str) -> Ordering
        ensures { result ≡ key_cmp self.now (key_of section.now key.now) }
    {
        match self.section.as_str().cmp(section) {
            Ordering::Equal => self.key.as_str().cmp(key),
            other => other,
        }
    }
}
