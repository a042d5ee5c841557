//! Names of attributes, as elements of an ordered set.

ghost use Rattle.std.specs.Prelude.{◌≡◌};
ghost use Rattle.std.proofs.Common.{rules};
ghost use Rattle.std.specs.Cmp.{partial_order_from_own_ties};
ghost use Rattle.std.specs.Cmp.Rules.{comparing};
ghost use Rattle.std.specs.Ordering.{as_partial_cmp};
ghost use Rattle.rl_attributes.specs.Names.{name_key, name_cmp};

use std::cmp::Ordering;

/// An attribute's name as written, and the last eight bytes of the name as a number. Most names differ in their
/// numbers, so the numbers are compared first.
#[derive(Clone, Copy, PartialEq, Eq)]
pub(crate) struct Name<'a> {
    key: u64,
    text: &'a str,
}

/// Returns the last eight bytes of `name` as a big-endian number, or 0 if the name is shorter.
fn key_of(name: &str) -> u64
    ensures { result ≡ name_key name.now }
{
    match name.as_bytes().last_chunk::<8>() {
        Some(last) => u64::from_be_bytes(*last),
        None => 0,
    }
}

impl<'a> Name<'a> {
    /// Creates the ordered name with the text `text`.
    pub(crate) fn new(text: &'a str) -> Name<'a>
        ensures key { result.key ≡ name_key text.now }
        ensures text { result.text.now ≡ text.now }
    {
        Name {
            key: key_of(text),
            text,
        }
    }
}

impl PartialOrd for Name<'_> {
    ghost partial_cmp = { as_partial_cmp name_cmp };

    ghost laws = { partial_order_from_own_ties (Prim.search (comparing, rules)) (Prim.search (comparing, rules)) };

    fn partial_cmp(&self, other: &Self) -> Option<Ordering> {
        Some(self.cmp(other))
    }
}

/// Compares two names by the numbers of their last eight bytes, and names with equal numbers by all their bytes.
impl Ord for Name<'_> {
    ghost cmp = { name_cmp };

    ghost total = { Prim.search (comparing, rules) };

    ghost matches_partial_cmp = { Prim.search (comparing, rules) };

    ghost matches_eq = { Prim.search (comparing, rules) };

    #[inline(always)]
    fn cmp(&self, other: &Self) -> Ordering {
        if self.key > other.key {
            return Ordering::Greater;
        }
        if self.key < other.key {
            return Ordering::Less;
        }
        self.text.cmp(other.text)
    }
}
