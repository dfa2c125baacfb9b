//! The name of a built system in the store.
ghost use Rattle.std.specs.Prelude.{◌≡◌, ◌+◌, ◌<◌, ◌≤◌, ◌^◌, ◌++◌, ◌∷◌, length, position, None, IfOk, OnOk};
ghost use Rattle.switch_names.specs.NameFault.{IsRefusedBy};
ghost use Rattle.switch_names.specs.Path.{IsPath, path_fault, slash};
ghost use Rattle.switch_names.specs.SystemName.{NamesSystem, is_no_store_byte, store_name_fault, system_fault, named_system, system_path};

use crate::name_fault::NameFault;
use crate::path::{Path, after_prefix, is_dots};
use crate::text::Text;
use std::alloc::{AllocError, Global};
use std::cmp::Ordering;
use std::marker::Model;

/// The most bytes that a name in the store has.
const STORE_NAME_MAX: usize = 255;

/// A built system: its path `nix/store/<name>` below the root folder.
///
/// Contracts see the bytes of that path.
#[derive(Debug)]
pub struct SystemName {
    path: Path,
}

/// One call: a derived drop is proved anew in each function that lets one go.
impl Drop for SystemName {
    fn drop(self) {
        let SystemName { path: _ } = self;
    }
}

impl Model for SystemName {
    ghost use Rattle.std.specs.Prelude.{List, ℕ};
    ghost use Rattle.switch_names.specs.SystemName.{IsSystemPath};

    ghost Value = { List ℕ };

    ghost view = { λ system. system.path };

    ghost invariant = { λ system. IsSystemPath system.path };
}

/// The text without a slash at its front.
fn without_slash(text: &str) -> &str
    ensures { result.now ≡ system_path text.now }
{
    match text.strip_prefix('/') {
        Some(rest) => rest,
        None => text,
    }
}

/// The text with a slash before it.
fn with_slash(alloc: Global, text: &str) -> Result<Text, AllocError>
    ensures { IfOk result (λ made. made ≡ slash ∷ text.now) }
{
    let mut made = String::from_str(alloc, "/")?;
    made.push_str(text)?;
    Ok(Text::from_string(made))
}

/// Whether a byte stands in no name of the store.
fn is_no_store_byte(byte: u8) -> bool
    ensures { result ≡ is_no_store_byte byte }
{
    !(byte.is_ascii_alphanumeric() || matches!(byte, b'+' | b'-' | b'.' | b'_' | b'?' | b'='))
}

/// The place of the first byte that stands in no name of the store.
fn first_no_store_byte(bytes: &[u8]) -> Option<usize>
    ensures { result ≡ position is_no_store_byte bytes.now }
{
    bytes.iter().position(|byte| is_no_store_byte(*byte))
}

/// What keeps bytes that begin at a place of a text from being a name in the store.
fn store_name_fault_of(start: usize, name: &[u8]) -> Option<NameFault>
    requires { start + length name.now < 2 ^ 64 }
    ensures { result ≡ store_name_fault start name.now }
{
    if name.is_empty() {
        Some(NameFault::Empty)
    } else if name.len() > STORE_NAME_MAX {
        Some(NameFault::Long)
    } else if let Some(at) = first_no_store_byte(name) {
        Some(NameFault::Byte(start + at))
    } else if is_dots(name) {
        Some(NameFault::Dot)
    } else {
        None
    }
}

/// What keeps a text from naming a system.
fn fault_of(text: &str) -> Option<NameFault>
    ensures { result ≡ system_fault text.now }
{
    match after_prefix(without_slash(text), "nix/store/") {
        Some(name) => store_name_fault_of(text.len() - name.len(), name.as_bytes()),
        None => Some(NameFault::Kind),
    }
}

impl SystemName {
    /// Reads the name of a system: `nix/store/` and one name, with or without a slash before it.
    ///
    /// The faults are sought in this order: `Kind` (the text doesn't begin so), `Empty`, `Long`
    /// (a name of more than 255 bytes), `Byte` (the first byte of the name that is neither an
    /// ASCII letter or digit nor one of `+-._?=`), `Dot`, `Memory`.
    pub fn parse(alloc: Global, text: &str) -> Result<SystemName, NameFault>
        ensures ok { IfOk result (λ system. system ≡ system_path text.now) }
        ensures named { OnOk result (system_fault text.now ≡ None) }
        ensures fault { IsRefusedBy result (system_fault text.now) }
    {
        if let Some(fault) = fault_of(text) {
            return Err(fault);
        }
        Ok(SystemName {
            path: Path::of_checked(alloc, without_slash(text))?,
        })
    }

    /// The system that a text names, where it names one.
    pub fn of_text(alloc: Global, text: &str) -> Result<Option<SystemName>, AllocError>
        ensures { IfOk result (λ system. system ≡ named_system text.now) }
    {
        NameFault::or_none(SystemName::parse(alloc, text))
    }

    /// Where the system keeps a file: the path of a name below its own.
    ///
    /// The path of a system has 265 bytes at most, so that memory alone can be wanting.
    pub fn place(&self, alloc: Global, name: &str) -> Result<Path, AllocError>
        requires path { path_fault name.now ≡ None }
        requires short { length name.now ≤ 255 }
        ensures ok { IfOk result (λ path. path ≡ self.now ++ slash ∷ name.now) }
        ensures names { NamesSystem self.now self.now }
    {
        self.path.join_checked(alloc, name)
    }

    /// The path of the system, lent.
    pub fn path(&self) -> &Path
        ensures path { result.now ≡ self.now }
        ensures is_path { IsPath self.now }
        ensures names { NamesSystem self.now self.now }
    {
        &self.path
    }

    /// The path of the system, lent as a text.
    pub fn as_str(&self) -> &str
        ensures text { result.now ≡ self.now }
        ensures names { NamesSystem self.now self.now }
    {
        self.path.as_str()
    }

    /// The target of a link to the system: its path with a slash before it, which names the same
    /// system.
    pub fn link_text(&self, alloc: Global) -> Result<Text, AllocError>
        ensures ok { IfOk result (λ text. text ≡ slash ∷ self.now) }
        ensures names { NamesSystem (slash ∷ self.now) self.now }
    {
        with_slash(alloc, self.as_str())
    }

    /// An equal name.
    pub fn copy(&self, alloc: Global) -> Result<SystemName, AllocError>
        ensures { IfOk result (λ copied. copied ≡ self.now) }
    {
        Ok(SystemName {
            path: self.path.copy(alloc)?,
        })
    }
}

impl PartialEq for SystemName {
    ghost use Rattle.std.specs.Prelude.{nat_eq};
    ghost use Rattle.std.specs.Cmp;
    ghost use Rattle.std.specs.Cmp.Lexicographic.{pointwise, nat_list_eq_equiv};

    ghost eq = { pointwise nat_eq };

    ghost laws = { Cmp.partial_equiv_from_equiv nat_list_eq_equiv };

    fn eq(&self, other: &SystemName) -> bool {
        self.path == other.path
    }
}

impl Eq for SystemName {
    ghost use Rattle.std.specs.Cmp.Lexicographic.{nat_list_eq_equiv};

    ghost laws = { nat_list_eq_equiv };
}

impl PartialOrd for SystemName {
    ghost use Rattle.std.specs.Prelude.{Some};
    ghost use Rattle.std.specs.Ordering.{nat_cmp};
    ghost use Rattle.std.specs.Cmp.Lexicographic.{slice_cmp, texts_po};

    ghost partial_cmp = { λ x y. Some (slice_cmp nat_cmp x y) };

    ghost laws = { texts_po };

    fn partial_cmp(&self, other: &SystemName) -> Option<Ordering> {
        Some(self.cmp(other))
    }
}

impl Ord for SystemName {
    ghost use Rattle.std.specs.Prelude.{refl};
    ghost use Rattle.std.specs.Ordering.{nat_cmp};
    ghost use Rattle.std.specs.Cmp.Lexicographic.{slice_cmp, nat_list_cmp_total, texts_ties};

    ghost cmp = { slice_cmp nat_cmp };

    ghost total = { nat_list_cmp_total };

    ghost matches_partial_cmp = { λ x y. refl };

    ghost matches_eq = { texts_ties };

    fn cmp(&self, other: &SystemName) -> Ordering {
        self.path.cmp(&other.path)
    }
}
