//! The segments of a quoted literal: the parts of the text between its quotes, each with its range and its value.

ghost use Rattle.std.specs.Prelude.{◌≡◌, ◌≢◌, ◌<◌, ◌≤◌, ◌+◌, ◌++◌, [], List, length, IfSome, IfNone, IsTrue, IsFalse};
ghost use Rattle.std.specs.List.{list_all};
ghost use Rattle.std.specs.Str.{chars};
ghost use Rattle.rl_syntax.specs.Texts.{first_passes, IsTail};
ghost use Rattle.rl_syntax.specs.Quoted.{QuotedUnit, is_plain, is_string};
ghost use Rattle.rl_cursors.specs.Mirrors.SegmentAt.{piece_segment};
ghost use Rattle.rl_lenient.specs.Founds.{is_quoted};
ghost use Rattle.rl_lenient.specs.Shapes.{HasNoQuoted};
ghost use Rattle.rl_syntax.specs.declared.kind.Kind.{Kind as AnyKind};
ghost use Rattle.rl_cursors.specs.Segments.{AreUnitsIn, IsFirstSegment, IsLongest, IsNoText, IsBytePlace, IsSegmentsOf};

use rl_lenient::units::{Piece, is_plain_char, parse_char_or_escape, split_plain};
use rl_lenient::{Body, parse_literal};
use rl_syntax::Kind;
use rl_syntax::text::{before, split_char};
use std::marker::Model;

/// The value of a segment, which is a part of the text between a literal's quotes.
#[derive(Clone, Copy)]
pub enum SegmentValue<'t> {
    /// Plain characters, which are their own value. The sequence is as long as possible.
    Text(&'t str),
    /// In a literal of characters, the character of an escape, or the LF of a line end CR LF. In a literal of bytes,
    /// only the character of an escape `\u{..}`.
    Char(char),
    /// In a literal of bytes, the byte of any escape except `\u{..}`, or the LF of a line end CR LF.
    Byte(u8),
    /// The empty value of an escaped line end: of a backslash, a line end and the white space after it.
    Nothing,
}

/// A part of the text between a literal's quotes: its range and its value.
#[derive(Clone, Copy)]
pub struct Segment<'t> {
    /// The byte offset in the literal's text where the segment begins.
    pub lo: usize,
    /// The byte offset in the literal's text after the segment's last byte.
    pub hi: usize,
    /// The segment's decoded value.
    pub value: SegmentValue<'t>,
}

/// An iterator over the segments of a quoted literal, from its opening to its closing quote. Each segment is a sequence
/// of plain characters or one escape, with its range and its value.
///
/// The body of a raw literal is one segment. All offsets are in bytes of the literal's text. Nothing is allocated.
///
/// # Example
///
/// ```
/// use rl_grammar::{SegmentValue, Segments};
///
/// pub fn first_escape_offset(text: &str) -> Option<usize> {
///     for segment in Segments::of(text)? {
///         if !matches!(segment.value, SegmentValue::Text(_)) {
///             return Some(segment.lo);
///         }
///     }
///     None
/// }
/// // first_escape_offset("\"a\\x41\\n\"") == Some(2)
/// ```
#[derive(Drop)]
pub struct Segments<'t> {
    kind: Kind,
    plain: bool,
    // The byte offset of the closing quote in the literal's text.
    end: usize,
    rest: &'t str,
}

impl<'t> Model for Segments<'t> {
    ghost use Rattle.std.specs.Prelude.{◌-◌, length};
    ghost use Rattle.rl_cursors.specs.Segments.{SegmentsState, IsSegmentsState};

    ghost Value = { SegmentsState };

    ghost view = { λ s. record {
      kind = s.kind;
      plain = s.plain;
      at = s.end - length s.rest.now;
      rest = s.rest.now;
    } };

    ghost invariant = { λ s. IsSegmentsState s.kind s.plain s.end s.rest.now };
}

impl<'t> SegmentValue<'t> {
    ghost use Rattle.rl_cursors.specs.Segments.{value_bytes};

    /// Returns the length in bytes of the segment's value. Characters count as their UTF-8 bytes.
    #[inline(always)]
    pub fn len(self) -> usize
        ensures { result ≡ length (value_bytes self.entry) }
    {
        match self {
            SegmentValue::Text(run) => run.len(),
            SegmentValue::Char(c) => c.len_utf8(),
            SegmentValue::Byte(_) => 1,
            SegmentValue::Nothing => 0,
        }
    }
}

/// Splits the text after the plain characters at its start. In a character or byte literal, at most one character is
/// split off.
#[inline(always)]
fn split_run(kind: Kind, text: &str) -> (&str, &str)
    ensures cut { chars text.now ≡ chars result.0.now ++ chars result.1.now }
    ensures plain { IsTrue (list_all (is_plain kind) (chars result.0.now)) }
    ensures stops { result.0.now ≡ [] → IsFalse (first_passes (is_plain kind) (chars text.now)) }
    ensures longest { IsTrue (is_string kind)
        → IsFalse (first_passes (is_plain kind) (chars result.1.now)) }
    ensures following { IsTail text.now result.1.now }
{
    if kind.is_string() {
        return split_plain(kind, text);
    }
    match split_char(text) {
        Some((c, rest)) if is_plain_char(kind, c) => (before(text, rest), rest),
        _ => ("", text),
    }
}

/// Returns the value of an escape or a line end CR LF as the value of a segment, in a literal of the kind. In a literal
/// of characters, a byte becomes a character.
#[inline(always)]
fn value_of<'t>(kind: Kind, piece: Piece) -> SegmentValue<'t>
    ensures value { result ≡ piece_segment kind piece }
    ensures other { IsNoText result }
{
    match piece {
        Piece::Character(c) => SegmentValue::Char(c),
        Piece::Byte(b) if kind.decodes_to_chars() => SegmentValue::Char(b as char),
        Piece::Byte(b) => SegmentValue::Byte(b),
        Piece::Nothing => SegmentValue::Nothing,
    }
}

/// Returns the value of the first segment of `text`, and the text after that segment. `text` is the end of a literal's
/// body, from the start of a segment on. If `plain` is `true`, the body is its own value, and `text` is one segment.
#[inline(always)]
pub fn split_segment(kind: Kind, plain: bool, text: &str) -> (SegmentValue<'_>, &str)
    requires has { (units : List QuotedUnit) × AreUnitsIn kind plain (chars text.now) units }
    requires some { text.now ≢ [] }
    ensures front { IsFirstSegment kind plain (chars text.now) result.0 (chars result.1.now) }
    ensures longest { IsLongest kind result.0 (chars result.1.now) }
    ensures whole { IsTrue plain → result.1.now ≡ [] }
    ensures following { IsTail text.now result.1.now }
    ensures shorter { length result.1.now < length text.now }
{
    if plain {
        return (SegmentValue::Text(text), "");
    }
    let (run, following) = split_run(kind, text);
    if !run.is_empty() {
        return (SegmentValue::Text(run), following);
    }
    let Some((piece, after)) = parse_char_or_escape(kind, text) else {
        unreachable!()
    };
    (value_of(kind, piece), after)
}

impl<'t> Segment<'t> {
    ghost use Rattle.std.specs.Prelude.{◌-◌};
    ghost use Rattle.rl_cursors.specs.Segments.{segment_end, segment_place, value_place};

    /// Returns the start of the range of the literal's text that encodes the byte `at` of the segment's value. In a
    /// segment of plain characters, each byte encodes itself. Any other segment encodes its value as a whole.
    #[inline(always)]
    pub fn text_offset(self, at: usize) -> usize
        requires { segment_place self at < self.hi }
        ensures { result ≡ segment_place self.entry at }
    {
        match self.value {
            SegmentValue::Text(_) => self.lo + at,
            _ => self.lo,
        }
    }

    /// Returns the end of the range of the literal's text that encodes the byte `at` of the segment's value. In a
    /// segment of plain characters, each byte encodes itself. Any other segment encodes its value as a whole.
    #[inline(always)]
    pub fn text_offset_after(self, at: usize) -> usize
        requires { segment_place self at < self.hi }
        ensures { result ≡ segment_end self.entry at }
    {
        match self.value {
            SegmentValue::Text(_) => self.text_offset(at) + 1,
            _ => self.hi,
        }
    }

    /// Returns the offset in the segment's value of the byte of the literal's text at the byte offset `at`. In a segment
    /// of plain characters, each byte encodes itself. For any other segment, the result is 0.
    #[inline(always)]
    pub fn value_offset(self, at: usize) -> usize
        ensures { result ≡ value_place self.entry.value (at - self.entry.lo) }
    {
        match self.value {
            SegmentValue::Text(_) => at.saturating_sub(self.lo),
            _ => 0,
        }
    }
}

impl<'t> Segments<'t> {
    ghost use Rattle.rl_lenient.specs.Founds.{IsQuotedAt};
    ghost use Rattle.rl_cursors.specs.Segments.{GivesByte, IsEndLeft, IsPastLeft, IsPlaceLeft, TakesSegment};
    ghost use Rattle.rl_cursors.specs.ValueOffsets.{IsOffsetLeft};

    /// Returns the segments of the quoted literal `text` of the kind, where `body` contains the byte offsets of its
    /// parts, as [`parse_literal`] returns them. The text isn't parsed again.
    #[inline(always)]
    pub fn of_body(kind: Kind, text: &'t str, body: &Body) -> Segments<'t>
        requires { IsQuotedAt kind text.now body.now }
        ensures segments { IsSegmentsOf kind (chars text.now) result }
        ensures within { result.at + length result.rest ≤ length text.now }
    {
        Segments {
            kind,
            plain: body.plain,
            end: body.hi,
            rest: &text[body.lo..body.hi],
        }
    }

    /// Returns the segments of the quoted literal `text`, or `None` if the text isn't a quoted literal.
    pub fn of(text: &'t str) -> Option<Segments<'t>>
        ensures some { IfSome result (λ s. IsSegmentsOf s.kind (chars text.now) s) }
        ensures within { IfSome result (λ s. s.at + length s.rest ≤ length text.now) }
        ensures none { IfNone result (HasNoQuoted (chars text.now)) }
    {
        let found = parse_literal(text)?;
        if !is_quoted(found.kind) {
            return None;
        }
        Some(Segments::of_body(found.kind, text, &found.body))
    }

    /// Returns the next segment, or `None` at the closing quote.
    #[inline(always)]
    pub fn next(&mut self) -> Option<Segment<'t>>
        ensures next { IfSome result (λ s. TakesSegment self.old s self.new) }
        ensures some { IfSome result (λ s. s.lo < s.hi) }
        ensures shorter { IfSome result (λ s. length self.new.rest < length self.old.rest) }
        ensures none { IfNone result (self.old.rest ≡ []) }
        ensures stays { IfNone result (self.new ≡ self.old) }
    {
        if self.rest.is_empty() {
            return None;
        }
        let lo = self.end - self.rest.len();
        let (value, after) = split_segment(self.kind, self.plain, self.rest);
        let hi = self.end - after.len();
        self.rest = after;
        Some(Segment { lo, hi, value })
    }

    /// Returns the byte offset in the literal's text where the next segment begins, or that of the closing quote if no
    /// segment is left.
    pub fn next_offset(&self) -> usize
        ensures { result ≡ self.now.at }
    {
        self.end - self.rest.len()
    }

    /// Returns the segment whose value contains the byte `at` of the literal's value, and the byte's offset in the
    /// segment's value. `at` counts from the start of the next segment's value. Returns `None` if the literal's value
    /// has no byte `at`.
    #[inline(always)]
    fn giving(mut self, at: usize) -> Option<(Segment<'t>, usize)>
        ensures some { IfSome result (λ p. GivesByte self.entry at p.0 p.1) }
        ensures none { IfNone result (IsPastLeft self.entry at) }
    {
        let mut left = at;
        while let Some(segment) = self.next() {
            let len = segment.value.len();
            if left < len {
                return Some((segment, left));
            }
            left -= len;
        }
        None
    }

    /// Returns the start of the range of the literal's text that encodes the byte `at` of the literal's value. A byte
    /// of a plain character encodes itself, and an escape as a whole encodes its value.
    ///
    /// `at` counts from the start of the next segment's value. At the end of the value, and beyond it, the result is
    /// the offset of the closing quote.
    pub fn text_offset(self, at: usize) -> usize
        ensures { IsPlaceLeft self.entry at result }
    {
        let end = self.end;
        match self.giving(at) {
            Some((segment, within)) => segment.text_offset(within),
            None => end,
        }
    }

    /// Returns the end of the range of the literal's text that encodes the byte `at` of the literal's value. A byte of
    /// a plain character encodes itself, and an escape as a whole encodes its value. An escaped line end after the
    /// range isn't included.
    ///
    /// `at` counts from the start of the next segment's value. At the end of the value, and beyond it, the result is
    /// the offset of the closing quote.
    pub fn text_offset_after(self, at: usize) -> usize
        ensures { IsEndLeft self.entry at result }
    {
        let end = self.end;
        match self.giving(at) {
            Some((segment, within)) => segment.text_offset_after(within),
            None => end,
        }
    }

    /// Returns the byte offset in the literal's value of the byte of the literal's text at the byte offset `at`. It is the
    /// inverse of [`text_offset`](Segments::text_offset). In an escape, the result is the offset of the first byte of the
    /// escape's value. In an escaped line end, it is the offset of the byte after it.
    ///
    /// The result counts from the start of the next segment's value. Before the next segment it is 0. At the closing quote,
    /// and beyond it, it is the length of the value.
    pub fn value_offset(mut self, at: usize) -> usize
        ensures { IsOffsetLeft self.entry at result }
    {
        let mut offset = 0;
        while let Some(segment) = self.next() {
            if at < segment.hi {
                return offset + segment.value_offset(at);
            }
            offset += segment.value.len();
        }
        offset
    }
}

/// Yields the segments of the literal up to its closing quote.
impl<'t> Iterator for Segments<'t> {
    ghost use Rattle.std.specs.Iterator.{at_most};
    ghost use Rattle.rl_cursors.specs.Segments.{GivesSegment};

    type Item = Segment<'t>;

    ghost next_gives = { GivesSegment };

    ghost remaining = { λ s. at_most (length s.rest) };

    #[inline(always)]
    fn next(&mut self) -> Option<Segment<'t>> {
        Segments::next(self)
    }
}

/// Whether literals of the kind have quotes: strings, byte strings, C strings, bytes and characters.
fn is_quoted(kind: Kind) -> bool
    ensures { result ≡ is_quoted kind }
{
    !matches!(kind, Kind::Int | Kind::Float | Kind::Bool)
}

/// Returns the start of the range of the quoted literal `text` that encodes the byte `at` of its decoded value.
/// Returns `None` if the text isn't a quoted literal. [`Segments::text_offset`] describes the result.
///
/// # Example
///
/// ```
/// use rl_grammar::text_offset;
///
/// pub fn second_value_byte_offset(text: &str) -> Option<usize> {
///     text_offset(text, 1)
/// }
/// // second_value_byte_offset("\"\\u{e4}b\"") == Some(1)
/// // second_value_byte_offset("\"\\x41b\"") == Some(5)
/// // second_value_byte_offset("5") == None
/// ```
pub fn text_offset(text: &str, at: usize) -> Option<usize>
    ensures some { IfSome result (λ place. (kind : AnyKind) × IsBytePlace kind (chars text.now) at place) }
    ensures none { IfNone result (HasNoQuoted (chars text.now)) }
{
    Some(Segments::of(text)?.text_offset(at))
}
