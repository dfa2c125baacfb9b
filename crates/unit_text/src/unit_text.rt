//! Unit texts.
ghost use Rattle.std.specs.Prelude.{◌≡◌, ◌≢◌, ◌⊎◌, ◌++◌, ◌∷◌, [], ℕ, true, List, None, length, OnOk, OnErr, IfOk, IfErr, vec_len};
ghost use Rattle.std.specs.List.Sorted.{IsStrictlySortedBy};
ghost use Rattle.unit_text.specs.declared.assignment.Assignment.{Assignment};
ghost use Rattle.unit_text.specs.declared.text_fault.TextFault.{TextFault};
ghost use Rattle.unit_text.specs.Parts.{AreParts};
ghost use Rattle.unit_text.specs.TextFault.{IsFault, IsFirstFault, IsRefusedBy, text_fault};
ghost use Rattle.unit_text.specs.UnitKey.{key_cmp, key_of};
ghost use Rattle.unit_text.specs.Index.{IsIndexOf};
ghost use Rattle.unit_text.specs.UnitText.{HasFrontOf, assignments, flag_of, values_of};

use crate::assignment::Assignment;
use crate::flag::truth;
use crate::front::Front;
use crate::index::Index;
use crate::parts::Parts;
use crate::text_fault::TextFault;
use crate::unit_key::UnitKey;
use std::alloc::{AllocError, Global};
use std::marker::Model;
use switch_names::Text;

/// The assignments of a unit file, and of the files that are applied after it.
///
/// Those of the first file are kept once for all copies of a text. Contracts see the list of the
/// assignments in order.
pub struct UnitText {
    /// What was read of a file.
    front: Front,
    /// What was applied after it.
    later: Vec<Assignment>,
    /// The keys that were assigned after it.
    changes: Index,
}

/// One call: a derived drop is proved anew in each function that lets one go.
impl Drop for UnitText {
    fn drop(self) {
        let UnitText {
            front: _,
            later: _,
            changes: _,
        } = self;
    }
}

impl Model for UnitText {
    ghost use Rattle.std.specs.Prelude.{List, ◌++◌};
    ghost use Rattle.unit_text.specs.declared.assignment.Assignment.{Assignment};

    ghost Value = { List Assignment };

    ghost use Rattle.unit_text.specs.Index.{IsIndexOf};

    ghost view = { λ text. text.front ++ text.later.items };

    ghost invariant = { λ text. IsIndexOf text.front text.later.items text.changes };
}

/// Reads a unit file.
///
/// The fault is the one with the least line number.
pub fn parse(alloc: Global, bytes: &[u8]) -> Result<UnitText, TextFault>
    ensures ok { IfOk result (λ text. text ≡ assignments bytes.now) }
    ensures exact { OnOk result (text_fault bytes.now ≡ None) }
    ensures fault { IsRefusedBy result (text_fault bytes.now) }

    // The same by the faults of the file: there is none, or it is the first of them.
    ensures sound { OnOk result ((number : ℕ) (fault : TextFault) → ¬ IsFault bytes.now number fault) }
    ensures first { IfErr result (λ fault. (fault ≡ TextFault.Memory) ⊎ IsFirstFault bytes.now fault) }
{
    parse_beside(alloc, bytes, None)
}

/// Reads a unit file as `parse` does, beside a text that may begin with a file of the same bytes.
///
/// Then both texts share what was read of it, and nothing is read again.
pub fn parse_beside(
    alloc: Global,
    bytes: &[u8],
    other: Option<&UnitText>,
) -> Result<UnitText, TextFault>
    ensures ok { IfOk result (λ text. text ≡ assignments bytes.now) }
    ensures exact { OnOk result (text_fault bytes.now ≡ None) }
    ensures fault { IsRefusedBy result (text_fault bytes.now) }

    // The same by the faults of the file: there is none, or it is the first of them.
    ensures sound { OnOk result ((number : ℕ) (fault : TextFault) → ¬ IsFault bytes.now number fault) }
    ensures first { IfErr result (λ fault. (fault ≡ TextFault.Memory) ⊎ IsFirstFault bytes.now fault) }
{
    UnitText::from_bytes(alloc, bytes, other)
}

/// Applies one more assignment to the index of those that stand after a file.
fn apply_after(
    changes: &mut Index,
    alloc: Global,
    front: &Front,
    assignment: &Assignment,
) -> Result<(), AllocError>
    requires sorted { IsStrictlySortedBy key_cmp changes.old.keys }
    requires as_many { vec_len changes.old.values ≡ length changes.old.keys }
    ensures ok { (later : List Assignment) → IsIndexOf front.now later changes.old → OnOk result (IsIndexOf front.now (later ++ assignment.now ∷ []) changes.new) }
    ensures err { (later : List Assignment) → IsIndexOf front.now later changes.old → OnErr result (IsIndexOf front.now later changes.new) }
{
    let UnitKey { section, key } = &assignment.at;
    let before = front.values(section.as_str(), key.as_str());
    changes.apply(alloc, before, assignment.copy(alloc)?)
}

impl UnitText {
    /// The text without assignments.
    pub fn empty(alloc: Global) -> UnitText
        ensures { result ≡ [] }
    {
        UnitText::after(alloc, Front::none())
    }

    /// The text of these assignments, to which others can be applied.
    fn after(alloc: Global, front: Front) -> UnitText
        ensures { result ≡ front }
    {
        UnitText {
            front,
            later: Vec::new(alloc),
            changes: Index::new(alloc),
        }
    }

    /// The text of a file, which shares what was read of another one with the same bytes.
    fn from_bytes(
        alloc: Global,
        bytes: &[u8],
        other: Option<&UnitText>,
    ) -> Result<UnitText, TextFault>
        ensures ok { IfOk result (λ text. text ≡ assignments bytes.now) }
        ensures sound { OnOk result (text_fault bytes.now ≡ None) }
        ensures fault { IsRefusedBy result (text_fault bytes.now) }
    {
        let front = match other {
            Some(text) => Front::read_beside(alloc, bytes, &text.front)?,
            None => Front::read(alloc, bytes)?,
        };
        Ok(UnitText::after(alloc, front))
    }

    fn push(&mut self, alloc: Global, assignment: Assignment) -> Result<(), AllocError>
        ensures ok { OnOk result (self.new ≡ self.old ++ assignment ∷ []) }
        ensures err { OnErr result (self.new ≡ self.old) }
    {
        self.later.reserve(1)?;
        apply_after(&mut self.changes, alloc, &self.front, &assignment)?;
        self.later.push_reserved(assignment);
        Ok(())
    }

    /// Applies these assignments after the present ones.
    fn push_all(&mut self, alloc: Global, assignments: &[Assignment]) -> Result<(), AllocError>
        ensures ok { OnOk result (self.new ≡ self.old ++ assignments.now) }
        ensures err { OnErr result (HasFrontOf self.old assignments.now self.new) }
    {
        for assignment in assignments {
            self.push(alloc, assignment.copy(alloc)?)?;
        }
        Ok(())
    }

    /// Applies a later text's assignments after the present ones.
    ///
    /// Where memory is wanting, some of them, from the first one on, have been applied.
    pub fn add(&mut self, alloc: Global, later: &UnitText) -> Result<(), AllocError>
        ensures ok { OnOk result (self.new ≡ self.old ++ later.now) }
        ensures err { OnErr result (HasFrontOf self.old later.now self.new) }
    {
        let first = later.front.assignments(alloc)?;
        self.push_all(alloc, first.as_slice())?;
        self.push_all(alloc, later.later.as_slice())
    }

    /// Adds one assignment, with the value as it stands.
    pub fn assign(
        &mut self,
        alloc: Global,
        section: &str,
        key: &str,
        value: &str,
    ) -> Result<(), AllocError>
        requires { value.now ≢ [] }
        ensures ok { OnOk result (self.new ≡ self.old ++ record { at = key_of section.now key.now; value = value.now } ∷ []) }
        ensures err { OnErr result (self.new ≡ self.old) }
    {
        let at = UnitKey::from_strs(alloc, section, key)?;
        let value = Text::from_str(alloc, value)?;
        self.push(alloc, Assignment { at, value })
    }

    /// The values that a key is given after the last empty assignment.
    pub fn values(&self, section: &str, key: &str) -> &[Text]
        ensures { result.now ≡ values_of self.now (key_of section.now key.now) }
    {
        match self.changes.find(section, key) {
            Ok(at) => self.changes.values_at(at),
            Err(_) => self.front.values(section, key),
        }
    }

    /// What the last value of a key says as a flag.
    pub fn flag(&self, section: &str, key: &str, default: bool) -> bool
        ensures { result ≡ flag_of self.now (key_of section.now key.now) default }
    {
        match self.values(section, key).last() {
            Some(value) => truth(value.as_str()).unwrap_or(default),
            None => default,
        }
    }

    /// The keys of the text, apart for what its copies share and for what was applied after that.
    pub fn parts(&self) -> Parts<'_>
        ensures text { result.text.now ≡ self.now }
        ensures parts { AreParts result }
    {
        Parts {
            text: self,
            front_keys: self.front.keys(),
            front_values: self.front.values_by_key(),
            changed_keys: self.changes.keys.as_slice(),
            changed_values: self.changes.values.as_slice(),
        }
    }

    /// Whether both texts are those of files with the same bytes, to which nothing was applied.
    pub fn is_same_file(&self, other: &UnitText) -> bool
        ensures { result ≡ true → self.now ≡ other.now }
    {
        self.later.is_empty() && other.later.is_empty() && self.front.is_same_file(&other.front)
    }

    /// An equal text, which shares what was read of the first file.
    pub fn copy(&self, alloc: Global) -> Result<UnitText, AllocError>
        ensures { IfOk result (λ copied. copied ≡ self.now) }
    {
        let mut copied = UnitText::after(alloc, self.front.copy()?);
        copied.push_all(alloc, self.later.as_slice())?;
        Ok(copied)
    }
}
