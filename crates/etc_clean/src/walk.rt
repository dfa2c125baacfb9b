//! A walk along two lists in byte order, beside names that come in that order too.
ghost use Rattle.std.specs.Prelude.{◌≡◌, ℕ, false, List, Some, None, IfOk, IfErr, MatchOption, map, slice_get, take};
ghost use Rattle.std.specs.List.{AllByRecursion};
ghost use Rattle.std.specs.List.Sorted.{IsStrictlySortedBy};
ghost use Rattle.std.specs.declared.cmp.Ordering.TheVariants.{Less};
ghost use Rattle.switch_names.specs.Names.{has};
ghost use Rattle.host_trait.specs.World.{bytes_cmp};
ghost use Rattle.etc_manifest.specs.Manifest.{entry, places};

use etc_manifest::Item;
use std::cmp::Ordering;
use switch_names::Path;

/// What has a place in a list.
trait Placed {
    /// The name of its place.
    ghost place_of: { Self → List ℕ };

    /// The name of its place.
    fn place(&self) -> &Path
        ensures { result.now ≡ place_of self.now };
}

impl Placed for Path {
    ghost place_of = { λ name. name };

    fn place(&self) -> &Path {
        self
    }
}

impl Placed for Item {
    ghost place_of = { λ item. item.place };

    fn place(&self) -> &Path {
        &self.place
    }
}

/// As many of a list as were passed, where all these come before a name: else none.
fn passed<T: Placed>(list: &[T], from: usize, name: &Path) -> usize
    requires { IsStrictlySortedBy bytes_cmp (map T.place_of list.now) }
    ensures { AllByRecursion (λ other. bytes_cmp other name.now ≡ Less) (take result (map T.place_of list.now)) }
{
    let Some(last) = from.checked_sub(1) else {
        return 0;
    };
    let Some(before) = list.get(last) else {
        return 0;
    };
    match before.place().cmp(name) {
        Ordering::Less => from,
        _ => 0,
    }
}

/// Where a name stands in a list, or how many come before it. It goes on from as many as were passed, or begins anew where the
/// name comes before these.
fn find_from<T: Placed>(list: &[T], from: usize, name: &Path) -> Result<usize, usize>
    requires { IsStrictlySortedBy bytes_cmp (map T.place_of list.now) }
    ensures found { IfOk result (λ at. slice_get (map T.place_of list.now) at ≡ Some name.now) }
    ensures missing { IfErr result (λ at. has (map T.place_of list.now) name.now ≡ false) }
{
    for at in passed(list, from, name)..list.len() {
        match list[at].place().cmp(name) {
            Ordering::Less => {}
            Ordering::Equal => return Ok(at),
            Ordering::Greater => return Err(at),
        }
    }
    Err(list.len())
}

/// How far two lists were walked, for names that are looked at in byte order: a name out of this order is sought from the front.
#[derive(Clone, Copy)]
pub struct Walk {
    items: usize,
    clean: usize,
}

impl Walk {
    /// The walk before its first name.
    pub fn new() -> Walk {
        Walk { items: 0, clean: 0 }
    }

    /// The item at a name, where they are in byte order, or none.
    pub fn item<'a>(&mut self, items: &'a [Item], name: &Path) -> Option<&'a Item>
        requires { IsStrictlySortedBy bytes_cmp (places items.now) }
        ensures { MatchOption result (entry items.now name.now ≡ None) (λ item. (item.now.place ≡ name.now) × (entry items.now name.now ≡ Some item.now.kind)) }
    {
        match find_from(items, self.items, name) {
            Ok(at) => {
                self.items = at;
                items.get(at)
            }
            Err(at) => {
                self.items = at;
                None
            }
        }
    }

    /// Whether a name is one of the clean list, where they are in byte order.
    pub fn is_clean(&mut self, clean: &[Path], name: &Path) -> bool
        requires { IsStrictlySortedBy bytes_cmp clean.now }
        ensures { result ≡ has clean.now name.now }
    {
        match find_from(clean, self.clean, name) {
            Ok(at) => {
                self.clean = at;
                true
            }
            Err(at) => {
                self.clean = at;
                false
            }
        }
    }
}
