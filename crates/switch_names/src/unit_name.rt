//! The names of units.
ghost use Rattle.std.specs.Prelude.{◌≡◌, ◌-◌, ◌<◌, ◌∷◌, ◌++◌, true, false, length, take, nat_eq, position, Some, IfOk, OnOk, MatchOption, MatchResult};
ghost use Rattle.std.specs.List.{ends_with, position_or_len, before_first, after_first};
ghost use Rattle.switch_names.specs.NameFault.{IsRefusedBy};
ghost use Rattle.switch_names.specs.UnitKind.{kind_of};
ghost use Rattle.switch_names.specs.UnitName.{IsUnitName, is_at_sign, is_no_unit_byte, is_template, name_ending, stem_of, template_of, unit_fault, named_unit};

use crate::name_fault::NameFault;
use crate::text::Text;
use crate::unit_kind::{UnitKind, kind_of};
use std::alloc::{AllocError, Global};
use std::cmp::Ordering;
use std::hash::{Hash, Hasher};
use std::marker::Model;

/// The most bytes that a unit name has.
const UNIT_NAME_MAX: usize = 255;

/// The name of a unit. Contracts see its bytes.
#[derive(Debug)]
pub struct UnitName {
    text: Text,
    kind: UnitKind,
}

/// One call: a derived drop is proved anew in each function that lets one go.
impl Drop for UnitName {
    fn drop(self) {
        let UnitName { text: _, kind: _ } = self;
    }
}

impl Model for UnitName {
    ghost use Rattle.std.specs.Prelude.{◌≡◌, List, ℕ, Some};
    ghost use Rattle.switch_names.specs.UnitKind.{kind_of};
    ghost use Rattle.switch_names.specs.UnitName.{IsUnitName};

    ghost Value = { List ℕ };

    ghost view = { λ name. name.text };

    ghost invariant = { λ name. IsUnitName name.text × (kind_of name.text ≡ Some name.kind) };
}

/// Whether a byte stands in no unit name.
fn is_no_unit_byte(byte: u8) -> bool
    ensures { result ≡ is_no_unit_byte byte }
{
    !(byte.is_ascii_alphanumeric() || matches!(byte, b':' | b'-' | b'_' | b'.' | b'\\' | b'@'))
}

/// The place of the first byte that stands in no unit name.
fn first_no_unit_byte(bytes: &[u8]) -> Option<usize>
    ensures { result ≡ position is_no_unit_byte bytes.now }
{
    bytes.iter().position(|byte| is_no_unit_byte(*byte))
}

/// What precedes a suffix.
fn before_suffix<'a>(text: &'a str, suffix: &str) -> Option<&'a str>
    ensures { MatchOption result
        (ends_with nat_eq text.now suffix.now ≡ false)
        (λ rest. (ends_with nat_eq text.now suffix.now ≡ true)
        × (rest.now ≡ take (length text.now - length suffix.now) text.now)) }
{
    text.strip_suffix(suffix)
}

/// The kind of a unit name, or what keeps a text from being one.
fn read_kind(text: &str) -> Result<UnitKind, NameFault>
    ensures { MatchResult result
        (λ kind. IsUnitName text.now × (kind_of text.now ≡ Some kind))
        (λ fault. unit_fault text.now ≡ Some fault) }
{
    if text.is_empty() {
        Err(NameFault::Empty)
    } else if text.len() > UNIT_NAME_MAX {
        Err(NameFault::Long)
    } else if let Some(at) = first_no_unit_byte(text.as_bytes()) {
        Err(NameFault::Byte(at))
    } else {
        kind_of(text).ok_or(NameFault::Kind)
    }
}

/// What a stem has before and after its first `@`.
fn split_at_sign(stem: &str) -> Option<(&str, &str)>
    ensures { MatchOption result
        (position_or_len is_at_sign stem.now ≡ length stem.now)
        (λ parts. (position_or_len is_at_sign stem.now < length stem.now)
        × (parts.0.now ≡ before_first is_at_sign stem.now)
        × (parts.1.now ≡ after_first is_at_sign stem.now)) }
{
    stem.split_once('@')
}

/// A name with an empty instance.
fn template_text(alloc: Global, before: &str, ending: &str) -> Result<Text, AllocError>
    ensures { IfOk result (λ text. text ≡ before.now ++ 64 ∷ ending.now) }
{
    let mut text = String::from_str(alloc, before)?;
    text.push('@')?;
    text.push_str(ending)?;
    Ok(Text::from_string(text))
}

impl UnitName {
    /// Reads the name of a unit: 1 to 255 ASCII letters, digits and `:-_.\@`, with the ending of
    /// a kind and something before it.
    ///
    /// The faults are sought in this order: `Empty`, `Long`, `Byte` (the first byte of another
    /// sort), `Kind`, `Memory`.
    pub fn parse(alloc: Global, text: &str) -> Result<UnitName, NameFault>
        ensures ok { IfOk result (λ name. name ≡ text.now) }
        ensures is_name { OnOk result (IsUnitName text.now) }
        ensures fault { IsRefusedBy result (unit_fault text.now) }
    {
        let kind = read_kind(text)?;
        Ok(UnitName {
            text: Text::from_str(alloc, text)?,
            kind,
        })
    }

    /// The unit that a text names, where it names one.
    pub fn of_text(alloc: Global, text: &str) -> Result<Option<UnitName>, AllocError>
        ensures { IfOk result (λ unit. unit ≡ named_unit text.now) }
    {
        NameFault::or_none(UnitName::parse(alloc, text))
    }

    /// The unit that some bytes name, where they name one.
    pub fn of_bytes(alloc: Global, bytes: &[u8]) -> Result<Option<UnitName>, AllocError>
        ensures { IfOk result (λ unit. unit ≡ named_unit bytes.now) }
    {
        match std::str::from_utf8(bytes) {
            Ok(text) => UnitName::of_text(alloc, text),
            Err(_) => Ok(None),
        }
    }

    /// The name, lent.
    pub fn as_str(&self) -> &str
        ensures text { result.now ≡ self.now }
        ensures is_name { IsUnitName self.now }
    {
        self.text.as_str()
    }

    /// The kind of the unit.
    pub fn kind(&self) -> UnitKind
        ensures { kind_of self.now ≡ Some result }
    {
        self.kind
    }

    /// The name without its ending.
    pub fn stem(&self) -> &str
        ensures stem { result.now ≡ stem_of self.now }
        ensures whole { self.now ≡ result.now ++ name_ending self.now }
    {
        let text = self.text.as_str();
        match before_suffix(text, self.kind.ending()) {
            Some(stem) => stem,
            None => text,
        }
    }

    /// Whether the first `@` of the stem is its last byte, so that instances can be made of it.
    pub fn is_template(&self) -> bool
        ensures { result ≡ is_template self.now }
    {
        match split_at_sign(self.stem()) {
            Some((_, instance)) => instance.is_empty(),
            None => false,
        }
    }

    /// The template that an instance is made from: where the stem has text after its first `@`,
    /// the name without that text.
    pub fn template(&self, alloc: Global) -> Result<Option<UnitName>, AllocError>
        ensures { IfOk result (λ template. template ≡ template_of self.now) }
    {
        let Some((before, instance)) = split_at_sign(self.stem()) else {
            return Ok(None);
        };
        if instance.is_empty() {
            return Ok(None);
        }
        Ok(Some(UnitName {
            text: template_text(alloc, before, self.kind.ending())?,
            kind: self.kind,
        }))
    }

    /// An equal name.
    pub fn copy(&self, alloc: Global) -> Result<UnitName, AllocError>
        ensures { IfOk result (λ copied. copied ≡ self.now) }
    {
        Ok(UnitName {
            text: self.text.copy(alloc)?,
            kind: self.kind,
        })
    }
}

impl PartialEq for UnitName {
    ghost use Rattle.std.specs.Prelude.{nat_eq};
    ghost use Rattle.std.specs.Cmp;
    ghost use Rattle.std.specs.Cmp.Lexicographic.{pointwise, nat_list_eq_equiv};

    ghost eq = { pointwise nat_eq };

    ghost laws = { Cmp.partial_equiv_from_equiv nat_list_eq_equiv };

    fn eq(&self, other: &UnitName) -> bool {
        self.text == other.text
    }
}

impl Eq for UnitName {
    ghost use Rattle.std.specs.Cmp.Lexicographic.{nat_list_eq_equiv};

    ghost laws = { nat_list_eq_equiv };
}

impl PartialOrd for UnitName {
    ghost use Rattle.std.specs.Prelude.{Some};
    ghost use Rattle.std.specs.Ordering.{nat_cmp};
    ghost use Rattle.std.specs.Cmp.Lexicographic.{slice_cmp, texts_po};

    ghost partial_cmp = { λ x y. Some (slice_cmp nat_cmp x y) };

    ghost laws = { texts_po };

    fn partial_cmp(&self, other: &UnitName) -> Option<Ordering> {
        Some(self.cmp(other))
    }
}

impl Ord for UnitName {
    ghost use Rattle.std.specs.Prelude.{refl};
    ghost use Rattle.std.specs.Ordering.{nat_cmp};
    ghost use Rattle.std.specs.Cmp.Lexicographic.{slice_cmp, nat_list_cmp_total, texts_ties};

    ghost cmp = { slice_cmp nat_cmp };

    ghost total = { nat_list_cmp_total };

    ghost matches_partial_cmp = { λ x y. refl };

    ghost matches_eq = { texts_ties };

    fn cmp(&self, other: &UnitName) -> Ordering {
        self.text.cmp(&other.text)
    }
}

impl Hash for UnitName {
    ghost use Rattle.std.specs.Hash as fed;
    ghost use Rattle.std.specs.Cmp.Rules.{hashing};
    ghost use Rattle.std.proofs.Common.{rules};

    ghost hash_input = { λ name. fed.str name };

    ghost respects_eq = { Prim.search (hashing, rules) };

    fn hash<H: Hasher>(&self, state: &mut H) {
        self.text.hash(state);
    }
}
