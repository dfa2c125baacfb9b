//! The keys of a text in two parts.
ghost use Rattle.std.specs.Prelude.{◌≡◌};
ghost use Rattle.unit_text.specs.Parts.{AreParts};
ghost use Rattle.unit_text.specs.UnitText.{values_of};

use crate::index::find_key;
use crate::unit_key::UnitKey;
use crate::unit_text::UnitText;
use switch_names::{Listed, Text};

/// The keys of a text: those of the file with which it begins, and those that were assigned after it.
#[derive(Clone, Copy)]
pub struct Parts<'a> {
    pub text: &'a UnitText,
    /// The keys that the first file assigns, in order.
    pub front_keys: &'a [UnitKey],
    /// Beside each the values that it has by that file alone.
    pub front_values: &'a [Listed<Text>],
    /// The keys that were assigned after it, in order. The values of the others are still those above.
    pub changed_keys: &'a [UnitKey],
    /// Beside each the values that it has by the whole text.
    pub changed_values: &'a [Listed<Text>],
}

impl<'a> Parts<'a> {
    /// The values of a key, which has these by the first file alone.
    pub fn values(&self, key: &UnitKey, front: &'a [Text]) -> &'a [Text]
        requires { AreParts self.now }
        ensures { (are : AreParts self.now) → front.now ≡ values_of are.front key.now → result.now ≡ values_of self.now.text.now key.now }
    {
        match find_key(self.changed_keys, key.section.as_str(), key.key.as_str()) {
            Ok(at) => self.changed_values[at].as_slice(),
            Err(_) => front,
        }
    }
}
