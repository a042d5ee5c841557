//! Searches for texts in the values of literals.

use crate::finding::Place;
use crate::job::Job;
use crate::literal::Literal;
use rl_cursors::Segments;
use std::alloc::{AllocError, Allocator};

fn is_word_byte(byte: Option<&u8>) -> bool {
    byte.is_some_and(|byte| byte.is_ascii_alphanumeric() || *byte == b'_' || *byte >= 128)
}

fn begins_with(rest: &[u8], sought: &[u8], ignores_case: bool) -> bool {
    match rest.get(..sought.len()) {
        Some(front) if ignores_case => front.eq_ignore_ascii_case(sought),
        Some(front) => front == sought,
        None => false,
    }
}

/// Returns the byte offset of the first match of a text in a value.
fn first_in(value: &[u8], sought: &[u8], job: &Job<'_>) -> Option<usize> {
    for at in 0..value.len().saturating_sub(sought.len()).saturating_add(1) {
        let (front, rest) = value.split_at_checked(at)?;
        if begins_with(rest, sought, job.ignores_case)
            && !(job.whole_words
                && (is_word_byte(front.last()) || is_word_byte(rest.get(sought.len()))))
        {
            return Some(at);
        }
    }
    None
}

/// Returns the byte range of a literal that encodes a part of its value.
fn encoding_range(text: &str, part: Place) -> Option<Place> {
    Some(Place {
        lo: Segments::of(text)?.text_offset(part.lo),
        hi: Segments::of(text)?.text_offset_after(part.hi.saturating_sub(1)),
    })
}

/// Returns the byte range of the first match of the texts in a value.
fn match_in(value: &[u8], job: &Job<'_>) -> Option<Place> {
    let mut best: Option<Place> = None;
    for sought in job.lists.finds {
        if let Some(lo) = first_in(value, sought.as_bytes(), job) {
            if best.is_none_or(|place| lo < place.lo) {
                let hi = lo.saturating_add(sought.len());
                best = Some(Place { lo, hi });
            }
        }
    }
    best
}

/// Returns the range in a literal of the first match in its value. A literal that isn't quoted has no match.
fn text_match<A: Allocator + Copy>(
    alloc: A,
    job: &Job<'_>,
    literal: &Literal<'_>,
) -> Result<Option<Place>, AllocError> {
    if let Some((start, value)) = literal.plain_value() {
        return Ok(match_in(value.as_bytes(), job).map(|place| place.after(start)));
    }
    let value = literal.value(alloc)?;
    match match_in(value.as_slice(), job) {
        Some(place) => Ok(encoding_range(literal.text(), place)),
        None => Ok(None),
    }
}

/// Returns the range in a literal that a search finds: its first match, or all of an integer that the search names.
pub(crate) fn found_in<A: Allocator + Copy>(
    alloc: A,
    job: &Job<'_>,
    literal: &Literal<'_>,
) -> Result<Option<Place>, AllocError> {
    let text = literal.text();
    if let Some(number) = literal.integer() {
        let named = job.lists.numbers.iter().any(|sought| *sought == number);
        let (lo, hi) = (0, text.len());
        return Ok(if named { Some(Place { lo, hi }) } else { None });
    }
    let finds = job.lists.finds;
    // A value isn't longer than its literal.
    if !finds.iter().any(|sought| sought.len() <= text.len()) {
        return Ok(None);
    }
    text_match(alloc, job, literal)
}
