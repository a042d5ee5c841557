//! Finds the invisible and bidirectional characters of a source.

use crate::failure::{Done, Failure};
use crate::finding::{Finding, Place};
use crate::print::Page;
use crate::widths::{is_variation_selector, takes_variation_selector};
use rl_files::is_control_invisible_or_bidi;
use std::alloc::Allocator;
use std::io::Write;

/// The number of bytes that are checked at once.
const BLOCK: usize = 64;

/// Returns the name of a bidirectional character, after a space, or an empty text for other characters.
pub(crate) fn bidi_name(c: char) -> &'static str {
    match c {
        '\u{61c}' => " ARABIC LETTER MARK",
        '\u{200e}' => " LEFT-TO-RIGHT MARK",
        '\u{200f}' => " RIGHT-TO-LEFT MARK",
        '\u{202a}' => " LEFT-TO-RIGHT EMBEDDING",
        '\u{202b}' => " RIGHT-TO-LEFT EMBEDDING",
        '\u{202c}' => " POP DIRECTIONAL FORMATTING",
        '\u{202d}' => " LEFT-TO-RIGHT OVERRIDE",
        '\u{202e}' => " RIGHT-TO-LEFT OVERRIDE",
        '\u{2066}' => " LEFT-TO-RIGHT ISOLATE",
        '\u{2067}' => " RIGHT-TO-LEFT ISOLATE",
        '\u{2068}' => " FIRST STRONG ISOLATE",
        '\u{2069}' => " POP DIRECTIONAL ISOLATE",
        _ => "",
    }
}

pub(crate) fn character_id(c: char) -> &'static str {
    if !bidi_name(c).is_empty() {
        "bidirectional-character"
    } else if matches!(c, '\u{200c}'..='\u{200d}') {
        "joiner"
    } else if is_variation_selector(c) {
        "variation-selector"
    } else if c.is_control() {
        "control-character"
    } else {
        "invisible-character"
    }
}

/// Whether a character is invisible after the character `previous` and before the text `after`.
pub(crate) fn hides(previous: char, c: char, after: &str) -> bool {
    if is_variation_selector(c) {
        return !takes_variation_selector(previous, c);
    }
    let is_layout = matches!(c, '\t' | '\n' | '\u{c}') || c == '\r' && after.starts_with('\n');
    !is_layout && is_control_invisible_or_bidi(c)
}

/// Whether no byte can belong to an invisible character: all are printable ASCII, tabs or LFs.
fn are_visible(bytes: &[u8]) -> bool {
    let mut is_odd = false;
    for byte in bytes {
        let is_visible = (*byte >= b' ') & (*byte <= b'~') | (*byte == b'\t') | (*byte == b'\n');
        is_odd = is_odd | !is_visible;
    }
    !is_odd
}

/// Reports the invisible characters that begin in the first `len` bytes of `text`, which is the source from the byte offset `start`
/// on. `previous` is the character before them. Returns the length of the text up to the end of the last character.
fn report_in<A: Allocator + Copy, W: Write>(
    page: &mut Page<'_, '_, A, W>,
    text: &str,
    start: usize,
    len: usize,
    previous: char,
) -> Result<(usize, char), Failure<A>> {
    let mut end = 0_usize;
    let mut last = previous;
    for c in text.chars() {
        if end >= len {
            break;
        }
        let lo = end;
        end = lo.saturating_add(c.len_utf8());
        if !matches!(c, ' '..='~' | '\n' | '\t') && hides(last, c, text.get(end..).unwrap_or("")) {
            let (lo, hi) = (start.saturating_add(lo), start.saturating_add(end));
            page.report_finding(Place { lo, hi }, Finding::Hidden(c))?;
        }
        last = c;
    }
    Ok((end, last))
}

/// Reports the invisible and bidirectional characters of a source.
pub(crate) fn report_hidden<A: Allocator + Copy, W: Write>(
    page: &mut Page<'_, '_, A, W>,
) -> Done<A> {
    let source = page.source;
    let mut at = if source.starts_with('\u{feff}') { 3 } else { 0 };
    let mut previous = '\0';
    for _ in 0..source.len() {
        let text = source.get(at..).unwrap_or("");
        let block = text.as_bytes().get(..BLOCK).unwrap_or(text.as_bytes());
        let Some(last) = block.last() else {
            break;
        };
        if are_visible(block) {
            at = at.saturating_add(block.len());
            previous = char::from(*last);
        } else {
            let (len, c) = report_in(page, text, at, block.len(), previous)?;
            at = at.saturating_add(len);
            previous = c;
        }
    }
    Ok(())
}
