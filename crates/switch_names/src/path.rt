//! Paths of leaves below a root folder.
ghost use Rattle.std.specs.Prelude.{◌≡◌, ℕ, ◌+◌, ◌<◌, ◌^◌, ◌++◌, ◌∷◌, List, true, false, length, drop, nat_eq, IfOk, OnOk, IfSome, IsNone, MatchOption, position};
ghost use Rattle.std.specs.List.{list_any, starts_with};
ghost use Rattle.std.specs.Option.{option_copied};
ghost use Rattle.switch_names.specs.Texts.{is_empty};
ghost use Rattle.switch_names.specs.Path.{IsPath, path_fault, named_path, fault_after, name_below, names_of, is_no_path_byte, is_dots, is_below, slash, IsParentOf};
ghost use Rattle.switch_names.specs.NameFault.{IsRefusedBy};

use crate::name_fault::NameFault;
use crate::text::Text;
use std::alloc::{AllocError, Global};
use std::cmp::Ordering;
use std::hash::{Hash, Hasher};
use std::marker::Model;

/// The most bytes that a path has.
pub const PATH_MAX: usize = 4096;

/// Where a leaf stands below the root folder: names joined by slashes, without a slash at either end.
///
/// Contracts see its bytes.
#[derive(Debug)]
pub struct Path {
    text: Text,
}

/// One call: a derived drop is proved anew in each function that lets one go.
impl Drop for Path {
    fn drop(self) {
        let Path { text: _ } = self;
    }
}

impl Model for Path {
    ghost use Rattle.std.specs.Prelude.{List, ℕ};
    ghost use Rattle.switch_names.specs.Path.{IsPath};

    ghost Value = { List ℕ };

    ghost view = { λ path. path.text };

    ghost invariant = { λ path. IsPath path.text };
}

/// Whether a byte stands in no path: NUL and the line feed, which end a line of the program's texts.
fn is_no_path_byte(byte: u8) -> bool
    ensures { result ≡ is_no_path_byte byte }
{
    byte == 0 || byte == b'\n'
}

/// Whether a name is one or two dots.
pub(crate) fn is_dots(name: &[u8]) -> bool
    ensures { result ≡ is_dots name.now }
{
    match name {
        [only] => *only == b'.',
        [first, second] => *first == b'.' && *second == b'.',
        _ => false,
    }
}

/// Whether a name of the text is empty, and whether one is one or two dots.
fn wrong_names(text: &str) -> (bool, bool)
    ensures empty { result.0 ≡ list_any is_empty (names_of text.now) }
    ensures dots { result.1 ≡ list_any is_dots (names_of text.now) }
{
    let mut has_empty = false;
    let mut has_dots = false;
    for name in text.split('/') {
        has_empty |= name.is_empty();
        has_dots |= is_dots(name.as_bytes());
    }
    (has_empty, has_dots)
}

/// The place of the first byte that stands in no path.
fn first_no_path_byte(bytes: &[u8]) -> Option<usize>
    ensures { result ≡ position is_no_path_byte bytes.now }
{
    for at in 0..bytes.len() {
        if is_no_path_byte(bytes[at]) {
            return Some(at);
        }
    }
    None
}

/// What keeps a text from being a path, or from ending one that has so many bytes before it.
fn fault_after(before: usize, text: &str) -> Option<NameFault>
    requires { before + length text.now < 2 ^ 64 }
    ensures { result ≡ fault_after before text.now }
{
    let (has_empty, has_dots) = wrong_names(text);
    if has_empty {
        Some(NameFault::Empty)
    } else if before + text.len() > PATH_MAX {
        Some(NameFault::Long)
    } else if let Some(at) = first_no_path_byte(text.as_bytes()) {
        Some(NameFault::Byte(before + at))
    } else if has_dots {
        Some(NameFault::Dot)
    } else {
        None
    }
}

/// What keeps a text from being a path.
fn fault_of(text: &str) -> Option<NameFault>
    ensures { result ≡ path_fault text.now }
{
    fault_after(0, text)
}

/// What keeps a path, a slash and a text from being a path.
fn fault_below(folder: &str, more: &str) -> Option<NameFault>
    requires { IsPath folder.now }
    ensures { result ≡ path_fault (folder.now ++ slash ∷ more.now) }
{
    fault_after(folder.len() + 1, more)
}

/// A text, a slash and another.
fn joined(alloc: Global, folder: &str, more: &str) -> Result<Text, AllocError>
    ensures { IfOk result (λ text. text ≡ folder.now ++ slash ∷ more.now) }
{
    // Room for the whole at once.
    let len = folder.len().saturating_add(more.len()).saturating_add(1);
    let mut text = String::with_capacity(alloc, len)?;
    text.push_str(folder)?;
    text.push('/')?;
    text.push_str(more)?;
    Ok(Text::from_string(text))
}

impl Path {
    /// Reads a path.
    ///
    /// The faults are sought in this order: `Empty`, `Long` (more than 4,096 bytes), `Byte` (the
    /// first NUL or line feed), `Dot`, `Memory`.
    pub fn parse(alloc: Global, text: &str) -> Result<Path, NameFault>
        ensures ok { IfOk result (λ path. path ≡ text.now) }
        ensures is_path { OnOk result (IsPath text.now) }
        ensures fault { IsRefusedBy result (path_fault text.now) }
    {
        if let Some(fault) = fault_of(text) {
            return Err(fault);
        }
        Ok(Path {
            text: Text::from_str(alloc, text)?,
        })
    }

    /// The path that a text is, where it is one.
    pub fn of_text(alloc: Global, text: &str) -> Result<Option<Path>, AllocError>
        ensures { IfOk result (λ path. path ≡ named_path text.now) }
    {
        NameFault::or_none(Path::parse(alloc, text))
    }

    /// The path of a text that is known to be one.
    pub(crate) fn of_checked(alloc: Global, text: &str) -> Result<Path, AllocError>
        requires { IsPath text.now }
        ensures { IfOk result (λ path. path ≡ text.now) }
    {
        Ok(Path {
            text: Text::from_str(alloc, text)?,
        })
    }

    /// The path of `more` below this one, where it is known to be one.
    pub(crate) fn join_checked(&self, alloc: Global, more: &str) -> Result<Path, AllocError>
        requires { IsPath (self.now ++ slash ∷ more.now) }
        ensures { IfOk result (λ path. path ≡ self.now ++ slash ∷ more.now) }
    {
        Ok(Path {
            text: joined(alloc, self.as_str(), more)?,
        })
    }

    /// The path of `more` below this one. Too long a path is no leaf's: it counts as want of memory.
    pub fn below(&self, alloc: Global, more: &str) -> Result<Path, AllocError>
        ensures { IfOk result (λ path. path ≡ self.now ++ slash ∷ more.now) }
    {
        self.join(alloc, more)
            .map_err(|_fault: NameFault| AllocError)
    }

    /// The path of `more` below this one: `parse` of this path, a slash and `more`.
    ///
    /// The faults are those of `parse`, with places counted in the joined text.
    pub fn join(&self, alloc: Global, more: &str) -> Result<Path, NameFault>
        ensures ok { IfOk result (λ path. path ≡ self.now ++ slash ∷ more.now) }
        ensures is_path { OnOk result (IsPath (self.now ++ slash ∷ more.now)) }
        ensures fault { IsRefusedBy result (path_fault (self.now ++ slash ∷ more.now)) }
    {
        if let Some(fault) = fault_below(self.as_str(), more) {
            return Err(fault);
        }
        Ok(Path {
            text: joined(alloc, self.as_str(), more)?,
        })
    }

    /// The path, lent.
    pub fn as_str(&self) -> &str
        ensures text { result.now ≡ self.now }
        ensures is_path { IsPath self.now }
    {
        self.text.as_str()
    }

    /// Whether this path lies strictly below another, by whole names.
    pub fn is_below(&self, other: &Path) -> bool
        ensures { result ≡ is_below self.now other.now }
    {
        is_text_below(self.as_str().as_bytes(), other.as_str().as_bytes())
    }

    /// The path without its last name, where it has several.
    pub fn parent(&self, alloc: Global) -> Result<Option<Path>, AllocError>
        ensures none { IfOk result (λ parent. IsNone parent → (q : List ℕ) → is_below self.now q ≡ false) }
        ensures some { IfOk result (λ parent. IfSome parent (IsParentOf self.now)) }
    {
        let Some(front) = front_of(self.as_str()) else {
            return Ok(None);
        };
        Ok(Some(Path::of_checked(alloc, front)?))
    }

    /// What this path has after another and a slash, where it lies below that one.
    pub fn name_below(&self, alloc: Global, other: &Path) -> Result<Option<Path>, AllocError>
        ensures { IfOk result (λ name. name ≡ name_below other.now self.now) }
    {
        let Some(name) = text_below(self.as_str(), other.as_str()) else {
            return Ok(None);
        };
        Ok(Some(Path::of_checked(alloc, name)?))
    }

    /// An equal path.
    pub fn copy(&self, alloc: Global) -> Result<Path, AllocError>
        ensures { IfOk result (λ copied. copied ≡ self.now) }
    {
        Ok(Path {
            text: self.text.copy(alloc)?,
        })
    }
}

/// Whether the first text begins with the second and a slash.
fn is_text_below(text: &[u8], other: &[u8]) -> bool
    ensures { result ≡ is_below text.now other.now }
{
    other.len() < text.len() && text.starts_with(other) && text[other.len()] == b'/'
}

/// What follows a prefix.
pub(crate) fn after_prefix<'a>(text: &'a str, prefix: &str) -> Option<&'a str>
    ensures { MatchOption result
        (starts_with nat_eq text.now prefix.now ≡ false)
        (λ rest. (starts_with nat_eq text.now prefix.now ≡ true) × (rest.now ≡ drop (length prefix.now) text.now)) }
{
    text.strip_prefix(prefix)
}

/// What a text has after another and a slash.
fn text_below<'a>(text: &'a str, other: &str) -> Option<&'a str>
    ensures name { option_copied result ≡ name_below other.now text.now }
    ensures cut { IfSome result (λ name. text.now ≡ other.now ++ slash ∷ name.now) }
{
    let Some(rest) = after_prefix(text, other) else {
        return None;
    };
    rest.strip_prefix('/')
}

/// What a text has before its last slash.
fn front_of(text: &str) -> Option<&str>
    ensures none { IsNone result → (q : List ℕ) → is_below text.now q ≡ false }
    ensures some { IfSome result (λ front. IsParentOf text.now front.now) }
{
    let (front, _name) = text.rsplit_once('/')?;
    Some(front)
}

impl PartialEq for Path {
    ghost use Rattle.std.specs.Prelude.{nat_eq};
    ghost use Rattle.std.specs.Cmp;
    ghost use Rattle.std.specs.Cmp.Lexicographic.{pointwise, nat_list_eq_equiv};

    ghost eq = { pointwise nat_eq };

    ghost laws = { Cmp.partial_equiv_from_equiv nat_list_eq_equiv };

    fn eq(&self, other: &Path) -> bool {
        self.text == other.text
    }
}

impl Eq for Path {
    ghost use Rattle.std.specs.Cmp.Lexicographic.{nat_list_eq_equiv};

    ghost laws = { nat_list_eq_equiv };
}

impl PartialOrd for Path {
    ghost use Rattle.std.specs.Prelude.{Some};
    ghost use Rattle.std.specs.Ordering.{nat_cmp};
    ghost use Rattle.std.specs.Cmp.Lexicographic.{slice_cmp, texts_po};

    ghost partial_cmp = { λ x y. Some (slice_cmp nat_cmp x y) };

    ghost laws = { texts_po };

    fn partial_cmp(&self, other: &Path) -> Option<Ordering> {
        Some(self.cmp(other))
    }
}

impl Ord for Path {
    ghost use Rattle.std.specs.Prelude.{refl};
    ghost use Rattle.std.specs.Ordering.{nat_cmp};
    ghost use Rattle.std.specs.Cmp.Lexicographic.{slice_cmp, nat_list_cmp_total, texts_ties};

    ghost cmp = { slice_cmp nat_cmp };

    ghost total = { nat_list_cmp_total };

    ghost matches_partial_cmp = { λ x y. refl };

    ghost matches_eq = { texts_ties };

    fn cmp(&self, other: &Path) -> Ordering {
        self.text.cmp(&other.text)
    }
}

impl Hash for Path {
    ghost use Rattle.std.specs.Hash as fed;
    ghost use Rattle.std.specs.Cmp.Rules.{hashing};
    ghost use Rattle.std.proofs.Common.{rules};

    ghost hash_input = { λ path. fed.str path };

    ghost respects_eq = { Prim.search (hashing, rules) };

    fn hash<H: Hasher>(&self, state: &mut H) {
        self.text.hash(state);
    }
}
