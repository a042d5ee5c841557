//! Prints lines of a source: the lines with findings, and the lines around them. Each line around findings is printed once, also if
//! it is near several findings.

use crate::escapes::{Before, Escapes, push_char, push_text};
use crate::failure::{Appended, Done};
use crate::finding::Place;
use crate::output::Output;
use crate::widths::width_of;
use std::alloc::{AllocError, Allocator};
use std::io::Write;

/// The maximum length, in bytes, of a line that is printed.
const LONGEST: usize = 1024;

const TOO_LONG: &str = "    (a line of more than 1024 bytes)\n";

/// The numbers of lines that are printed before and after a line with findings.
#[derive(Clone, Copy)]
pub(crate) struct Around {
    pub before: usize,
    pub after: usize,
}

/// The lines of a source that are printed around its findings.
#[derive(Drop)]
pub(crate) struct Context<'p> {
    source: &'p str,
    around: Around,
    /// The byte offset where the last line with a finding begins.
    line_at: usize,
    /// The byte offset after the last printed line.
    end: usize,
    /// The number of lines after it that are still to be printed.
    owed: usize,
}

/// Returns the line without its LF or CR LF.
fn without_line_end(line: &str) -> &str {
    match line.strip_suffix('\n') {
        Some(line) => line.strip_suffix('\r').unwrap_or(line),
        None => line,
    }
}

impl<'p, A: Allocator + Copy, W: Write> Output<'p, A, W> {
    /// Prints a line, indented, or a note if it is too long.
    fn print_line(&mut self, line: &str) -> Done<A> {
        let shown = without_line_end(line);
        if shown.len() > LONGEST {
            self.text.push_str(TOO_LONG)?;
        } else {
            self.text.push_str("    ")?;
            push_text(&mut self.text, Escapes::Line, Before::Space, shown)?;
            self.text.push('\n')?;
        }
        self.send_if_full()
    }

    /// Prints the last `count` lines of a text.
    fn print_last_lines(&mut self, text: &str, count: usize) -> Done<A> {
        let mut front = text;
        for _ in 0..count {
            let Some(inside) = front.strip_suffix('\n') else {
                break;
            };
            let lines = match inside.rsplit_once('\n') {
                Some((lines, _)) => lines.len().saturating_add(1),
                None => 0,
            };
            front = front.get(..lines).unwrap_or("");
        }
        for line in text.get(front.len()..).unwrap_or("").split_inclusive('\n') {
            self.print_line(line)?;
        }
        Ok(())
    }
}

/// Appends a part of a line to `out`, and below each of its columns `mark` to `marks`. A tab stays a tab below text that isn't
/// marked. Returns the description of the characters before the next part.
fn push_marked<A: Allocator>(
    out: &mut String<A>,
    marks: &mut String<A>,
    mark: char,
    before: Before,
    part: &str,
) -> Result<Before, AllocError> {
    let mut last = before;
    for c in part.chars() {
        let start = out.len();
        last = push_char(out, Escapes::Line, last, c)?;
        let len = out.len().saturating_sub(start);
        let is_unchanged = len == c.len_utf8();
        if c == '\t' {
            marks.push(if mark == ' ' { '\t' } else { mark })?;
        } else {
            let width = if is_unchanged { width_of(c) } else { len };
            for _ in 0..width {
                marks.push(mark)?;
            }
        }
    }
    Ok(last)
}

/// Appends a line, and carets below the part of it from `lo` to `hi`. `marks` is a buffer.
fn push_marked_line<A: Allocator>(
    out: &mut String<A>,
    marks: &mut String<A>,
    line: &str,
    lo: usize,
    hi: usize,
) -> Appended {
    if line.len() > LONGEST {
        return out.push_str(TOO_LONG);
    }
    let (front, found) = line.split_at_checked(lo).unwrap_or((line, ""));
    let len = hi.saturating_sub(lo);
    let (marked, rest) = found.split_at_checked(len).unwrap_or((found, ""));
    marks.clear();
    out.push_str("    ")?;
    let last = push_marked(out, marks, ' ', Before::Space, front)?;
    let blank = marks.len();
    let last = push_marked(out, marks, '^', last, marked)?;
    if marks.len() == blank {
        marks.push('^')?;
    }
    let length = marks.len();
    let _ = push_marked(out, marks, ' ', last, rest)?;
    out.push_str("\n    ")?;
    out.push_str(marks.as_str().get(..length).unwrap_or(""))?;
    out.push('\n')
}

impl<'p> Context<'p> {
    /// Creates the context of a source. `start` is the byte offset of its first line.
    pub(crate) fn new(source: &'p str, start: usize, around: Around) -> Context<'p> {
        Context {
            source,
            around,
            line_at: usize::MAX,
            end: start,
            owed: 0,
        }
    }

    /// Prints the lines that are still to be printed and end at the byte offset `end` or before it.
    pub(crate) fn print_owed<A: Allocator + Copy, W: Write>(
        &mut self,
        output: &mut Output<'_, A, W>,
        end: usize,
    ) -> Done<A> {
        if self.owed == 0 {
            return Ok(());
        }
        let owed = self.source.get(self.end..end).unwrap_or("");
        for line in owed.split_inclusive('\n') {
            if self.owed == 0 {
                break;
            }
            output.print_line(line)?;
            self.end = self.end.saturating_add(line.len());
            self.owed = self.owed.saturating_sub(1);
        }
        Ok(())
    }

    /// Prints the line with a finding, which begins at the byte offset `line_at`, and lines before it that aren't printed yet.
    /// `marks` is a buffer.
    pub(crate) fn print_finding<A: Allocator + Copy, W: Write>(
        &mut self,
        output: &mut Output<'_, A, W>,
        marks: &mut String<A>,
        line_at: usize,
        place: Place,
    ) -> Done<A> {
        if line_at != self.line_at {
            let lines = self.source.get(self.end..line_at).unwrap_or("");
            output.print_last_lines(lines, self.around.before)?;
            let found = self.source.get(place.lo..).unwrap_or("");
            let (_, after) = found.split_once('\n').unwrap_or(("", ""));
            self.end = self.source.len().saturating_sub(after.len());
            self.line_at = line_at;
        }
        self.owed = self.around.after;
        let line = without_line_end(self.source.get(line_at..self.end).unwrap_or(""));
        let lo = place.lo.saturating_sub(line_at);
        let hi = place.hi.saturating_sub(line_at);
        Ok(push_marked_line(&mut output.text, marks, line, lo, hi)?)
    }
}
