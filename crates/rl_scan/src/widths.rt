//! The columns that characters take on a terminal, and the characters that take variation selectors.

use crate::selector_rows::BASES;
use crate::width_rows::WIDTHS;

/// Returns the number of the range that contains the character with the code `code`, or `other` if none does. The rows are in order.
fn row_value(rows: &[(u32, u32, usize)], other: usize, code: u32) -> usize {
    let mut rest = rows;
    // The rows are halved until none is left.
    for _ in 0..64 {
        let (front, back) = rest.split_at(rest.len() / 2);
        let Some((row, after)) = back.split_first() else {
            return other;
        };
        if row.1 < code {
            rest = after;
        } else if code < row.0 {
            rest = front;
        } else {
            return row.2;
        }
    }
    other
}

/// Returns the number of columns that a character takes on a terminal.
pub(crate) fn width_of(c: char) -> usize {
    let code = c as u32;
    if code < 128 {
        return 1;
    }
    row_value(&WIDTHS, 1, code)
}

pub(crate) fn is_variation_selector(c: char) -> bool {
    matches!(c, '\u{fe00}'..='\u{fe0f}' | '\u{e0100}'..='\u{e01ef}')
}

/// Whether the character `base` takes the variation selector that follows it. The numbers in the table are 1 for an emoji, 2 for a
/// mathematical symbol, 3 for both, and 4 for an ideograph.
pub(crate) fn takes_variation_selector(base: char, selector: char) -> bool {
    let number = row_value(&BASES, 0, base as u32);
    match selector {
        '\u{fe00}'..='\u{fe02}' => number >= 2,
        '\u{fe0e}'..='\u{fe0f}' => number == 1 || number == 3,
        '\u{e0100}'..='\u{e01ef}' => number == 4,
        _ => false,
    }
}
