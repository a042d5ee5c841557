//! Positions in a source: lines and columns.

/// A position in a source. Lines and columns count from 1, and a byte order mark at the start has no column.
#[derive(Clone, Copy)]
pub(crate) struct Position {
    /// The byte offset.
    pub at: usize,
    pub line: usize,
    /// The byte offset where the line begins, after a byte order mark.
    pub line_at: usize,
    /// The column in characters.
    pub column: usize,
}

/// Returns the number of LFs in a text. The inner loop has a count of one byte, so that rustc compiles it to vector instructions.
fn count_line_feeds(text: &str) -> usize {
    let mut count = 0_usize;
    for chunk in text.as_bytes().chunks(192) {
        let mut few = 0_u8;
        for byte in chunk {
            few = few.wrapping_add(u8::from(*byte == b'\n'));
        }
        count = count.saturating_add(usize::from(few));
    }
    count
}

impl Position {
    /// Returns the first position of a source.
    pub(crate) fn first(source: &str) -> Position {
        let mark = if source.starts_with('\u{feff}') { 3 } else { 0 };
        Position {
            at: mark,
            line: 1,
            line_at: mark,
            column: 1,
        }
    }

    /// Returns the position at the byte offset `at` of the source. If `at` isn't before this position, only the text between them
    /// is read.
    pub(crate) fn moved(self, source: &str, at: usize) -> Position {
        let first = Position::first(source);
        let from = if self.at <= at { self } else { first };
        let passed = source.get(from.at..at).unwrap_or("");
        match passed.rsplit_once('\n') {
            Some((_, inside)) => Position {
                at,
                line: from.line.saturating_add(count_line_feeds(passed)),
                line_at: at.saturating_sub(inside.len()),
                column: inside.chars().count().saturating_add(1),
            },
            None => Position {
                at,
                column: from.column.saturating_add(passed.chars().count()),
                ..from
            },
        }
    }

    /// Returns the column in bytes.
    pub(crate) fn byte_column(self) -> usize {
        self.at.saturating_sub(self.line_at).saturating_add(1)
    }
}
