//! Tests of two literals with a separator between them.

use crate::Page;
use crate::noted::{noted, parts_of};
use rust_literals::read_all;

/// Parses each first text, the separator and each second text as a list of literals. Prints the pairs whose parse result differs
/// from those of both texts alone, and the number of other pairs.
///
/// In the row, U+001E is between the separator, the first texts and the second texts. U+001F is between texts.
pub(crate) fn pairs(row: &str, out: &mut Page) {
    let (gap, texts) = parts_of(row, '\u{1e}');
    let (fronts, backs) = parts_of(texts, '\u{1e}');
    let mut agreed = 0_usize;
    for first in fronts.split('\u{1f}') {
        agreed = agreeing(first, gap, backs, agreed, out);
    }
    out.put_number(agreed, " agree\n")
}

/// Compares `first` with each second text, as `agrees`, and prints the pairs that differ. Returns `number` plus the number of
/// other pairs.
fn agreeing(first: &str, gap: &str, backs: &str, number: usize, out: &mut Page) -> usize {
    let mut agreed = number;
    for second in backs.split('\u{1f}') {
        if agrees(first, gap, second, out) {
            agreed = agreed.wrapping_add(1);
        } else {
            out.put_with_ending(first, " and ");
            out.put_with_ending(second, " don't\n")
        }
    }
    agreed
}

/// Whether two texts with the separator `gap` between them are parsed to the same literals as both texts alone, and to at least
/// one.
fn agrees(first: &str, gap: &str, second: &str, out: &Page) -> bool {
    let mut whole = Page::new(out.alloc);
    whole.put_with_ending(first, gap);
    whole.put(second);
    let mut alone = Page::new(out.alloc);
    put_read(first, &mut alone);
    put_read(second, &mut alone);
    let mut found = Page::new(out.alloc);
    put_read(whole.text.as_str(), &mut found);
    found.text.as_str() != "" && found.text.as_str() == alone.text.as_str()
}

/// Parses a text as a list of literals, and prints their `Debug` output.
fn put_read(text: &str, out: &mut Page) {
    if let Some(literals) = noted(read_all(out.alloc, text, 0), out) {
        for literal in literals.as_slice() {
            out.put_debug(literal, "\n")
        }
        drop(literals)
    }
}
