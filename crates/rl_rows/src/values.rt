//! Tests the equality of literals.

use crate::Page;
use crate::noted::{HERE, literal_of, parts_of};
use rl_tokens::Span;
use std::hash::{DefaultHasher, Hash, Hasher};

/// Parses two texts with an LF between them as literals, at different spans. Prints whether they are equal, and whether their
/// hashes are equal.
pub(crate) fn equal(text: &str, out: &mut Page) {
    let (first, second) = parts_of(text, '\n');
    let first = literal_of(first, HERE, out);
    put_equal(first, literal_of(second, Span::new(3, 1, 2), out), out)
}

/// Prints whether two values are equal, and whether their hashes are equal.
fn put_equal<T: Eq + Hash + Drop>(first: T, second: T, out: &mut Page) {
    out.put_bool(first == second, " ");
    out.put_bool(hash_of(&first) == hash_of(&second), "\n")
}

/// Returns the hash of a value.
fn hash_of<T: Hash>(value: &T) -> u64 {
    let mut state = DefaultHasher::new();
    value.hash(&mut state);
    state.finish()
}
