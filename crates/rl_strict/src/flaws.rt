//! The kinds of flaws (errors in the text of a literal), and a flaw's byte range.

ghost use Rattle.std.specs.Prelude.{◌≡◌};
ghost use Rattle.std.specs.Str.{chars};
ghost use Rattle.rl_strict.specs.Flaws.{place_in};
ghost use Rattle.rl_strict.specs.Mirrors.UnitFlawAt.{found_flaw};
ghost use Rattle.rl_strict.specs.Mirrors.WordFlawAt.{after_letters, end_flaw_at, word_flaw_at};

use rl_syntax::Span;
use rl_syntax::text::split_char;
use std::fmt;

/// The reason why a text isn't a valid literal.
#[derive(Clone, Copy, PartialEq, Eq, Hash, Debug)]
#[non_exhaustive]
pub enum FlawKind {
    /// The text is empty, so it contains no token.
    Empty,
    /// The text before this character can begin a literal, but the character can't continue it.
    NotALiteral,
    /// The text ends inside a prefix, inside `true` or `false`, after a raw string's hashes, or after a minus.
    UnexpectedEnd,
    /// A raw string's hashes aren't followed by `"`.
    NoQuote,
    /// A minus isn't followed by a digit.
    NoNumber,
    /// The text of a quoted literal ends before its closing quote.
    Unclosed,
    /// The character after a backslash begins no known escape.
    UnknownEscape,
    /// A `\u` escape in a byte or a byte string. Only characters, strings and C strings allow it.
    NoUnicode,
    /// An escape lacks a hexadecimal digit.
    NoHexDigit,
    /// `\u` isn't followed by `{`.
    NoBrace,
    /// A `\u{}` escape without a digit between its braces.
    EmptyBraces,
    /// A `\u{..}` escape has a seventh digit between its braces.
    TooManyDigits,
    /// A `\x` escape above 7F in a character or a string.
    HexEscapeOutOfRange,
    /// A `\u{..}` escape above 10FFFF.
    UnicodeEscapeOutOfRange,
    /// A `\u{..}` escape of a surrogate (D800 to DFFF).
    Surrogate,
    /// A C string contains a NUL.
    Nul,
    /// A byte or a byte string contains a non-ASCII character.
    NotAscii,
    /// The character is allowed only as an escape, for example a tab between single quotes.
    MustEscape,
    /// A character or byte literal is empty: `''`.
    NoCharacter,
    /// A character or byte literal contains more than one character.
    TwoCharacters,
    /// The exponent of a float has no digit.
    NoExponentDigit,
    /// The character can't be part of a number or of a literal's suffix.
    BadSuffix,
    /// The integer is above 128 bits.
    TooLarge,
    /// A minus precedes the literal, but a literal token has no sign.
    Minus,
    /// A raw string begins with more than 255 hashes.
    TooManyHashes,
    /// A string contains a CR.
    CarriageReturn,
    /// Another closing quote follows the closing quote or the suffix, for example `"a"b"`.
    TextAfterQuote,
    /// A raw string has more hashes after its closing quote than before its opening quote.
    ExtraHash,
    /// The suffix of a quoted literal is `_` alone.
    UnderscoreSuffix,
    /// The prefix of a base, such as `0x`, isn't followed by a digit.
    NoDigits,
    /// A digit that the integer's base doesn't have, for example `2` in a binary integer.
    InvalidDigit,
    /// A float with a base prefix, such as `0x1.5`: floats are always decimal.
    BasedFloat,
    /// The dot of a float isn't followed by a digit.
    NoFractionDigit,
}

impl FlawKind {
    ghost use Rattle.rl_strict.specs.FlawWords.{flaw_id, flaw_message};

    /// Returns the kind's identifier for programs, for example `unknown-escape`.
    ///
    /// The identifier never changes, but [`message`](FlawKind::message) may.
    pub fn id(self) -> &'static str
        ensures { result.now ≡ flaw_id self }
    {
        match self {
            FlawKind::Empty => "empty",
            FlawKind::NotALiteral => "no-literal",
            FlawKind::UnexpectedEnd => "unfinished",
            FlawKind::NoQuote => "no-quote",
            FlawKind::NoNumber => "no-number",
            FlawKind::Unclosed => "unclosed-quote",
            FlawKind::UnknownEscape => "unknown-escape",
            FlawKind::NoUnicode => "unicode-escape-in-bytes",
            FlawKind::NoHexDigit => "no-hexadecimal-digit",
            FlawKind::NoBrace => "no-brace",
            FlawKind::EmptyBraces => "empty-braces",
            FlawKind::TooManyDigits => "too-many-digits",
            FlawKind::HexEscapeOutOfRange => "past-ascii",
            FlawKind::UnicodeEscapeOutOfRange => "past-unicode",
            FlawKind::Surrogate => "surrogate",
            FlawKind::Nul => "nul",
            FlawKind::NotAscii => "not-ascii",
            FlawKind::MustEscape => "must-escape",
            FlawKind::NoCharacter => "no-character",
            FlawKind::TwoCharacters => "two-characters",
            FlawKind::NoExponentDigit => "no-exponent-digit",
            FlawKind::BadSuffix => "bad-suffix",
            FlawKind::TooLarge => "integer-too-large",
            FlawKind::Minus => "minus",
            FlawKind::TooManyHashes => "too-many-hashes",
            FlawKind::CarriageReturn => "carriage-return",
            FlawKind::TextAfterQuote => "early-quote",
            FlawKind::ExtraHash => "extra-hash",
            FlawKind::UnderscoreSuffix => "underscore-suffix",
            FlawKind::NoDigits => "no-digits",
            FlawKind::InvalidDigit => "digit-of-base",
            FlawKind::BasedFloat => "based-float",
            FlawKind::NoFractionDigit => "no-fraction-digit",
        }
    }

    /// Returns the error message, for example `unknown escape`.
    pub fn message(self) -> &'static str
        ensures { result.now ≡ flaw_message self }
    {
        match self {
            FlawKind::Empty => "empty text",
            FlawKind::NotALiteral => "not a literal",
            FlawKind::UnexpectedEnd => "incomplete literal",
            FlawKind::NoQuote => "expected `\"`",
            FlawKind::NoNumber => "expected a digit after `-`",
            FlawKind::Unclosed => "unclosed quote",
            FlawKind::UnknownEscape => "unknown escape",
            FlawKind::NoUnicode => "`\\u` isn't allowed in bytes",
            FlawKind::NoHexDigit => "expected a hexadecimal digit",
            FlawKind::NoBrace => "expected `{`",
            FlawKind::EmptyBraces => "no digits between the braces",
            FlawKind::TooManyDigits => "more than six digits between the braces",
            FlawKind::HexEscapeOutOfRange => "`\\x` escape above 7F",
            FlawKind::UnicodeEscapeOutOfRange => "escape above 10FFFF",
            FlawKind::Surrogate => "a surrogate isn't a character",
            FlawKind::Nul => "NUL in a C string",
            FlawKind::NotAscii => "not an ASCII character",
            FlawKind::MustEscape => "must be written as an escape",
            FlawKind::NoCharacter => "no character between the quotes",
            FlawKind::TwoCharacters => "more than one character between the quotes",
            FlawKind::NoExponentDigit => "no digit in the exponent",
            FlawKind::BadSuffix => "not part of a number or its suffix",
            FlawKind::TooLarge => "integer above 128 bits",
            FlawKind::Minus => "a literal token has no sign",
            FlawKind::TooManyHashes => "more than 255 hashes",
            FlawKind::CarriageReturn => "CR in a string",
            FlawKind::TextAfterQuote => "text after the closing quote",
            FlawKind::ExtraHash => "more hashes than the literal began with",
            FlawKind::UnderscoreSuffix => "`_` isn't a suffix",
            FlawKind::NoDigits => "no digits after the base",
            FlawKind::InvalidDigit => "invalid digit for this base",
            FlawKind::BasedFloat => "a float must be decimal",
            FlawKind::NoFractionDigit => "expected a digit after the dot",
        }
    }
}

impl fmt::Display for FlawKind {
    ghost use Rattle.std.specs.Prelude.{Some};
    ghost use Rattle.std.specs.Fmt.{padded};
    ghost use Rattle.rl_strict.specs.FlawWords.{flaw_message};

    ghost output = { λ kind. Some (flaw_message kind) };

    ghost styled_output = { λ kind spec. Some (padded spec (flaw_message kind)) };

    fn fmt<W: fmt::Write>(&self, f: &mut fmt::Formatter<W>) -> fmt::Result {
        f.pad(self.message())
    }
}

impl std::error::Error for FlawKind {}

impl fmt::Display for Flaw {
    ghost use Rattle.std.specs.Prelude.{Some};
    ghost use Rattle.std.specs.Fmt.{padded};
    ghost use Rattle.rl_strict.specs.FlawWords.{flaw_message};

    ghost output = { λ flaw. Some (flaw_message flaw.kind) };

    ghost styled_output = { λ flaw spec. Some (padded spec (flaw_message flaw.kind)) };

    fn fmt<W: fmt::Write>(&self, f: &mut fmt::Formatter<W>) -> fmt::Result {
        f.pad(self.kind.message())
    }
}

impl std::error::Error for Flaw {}

/// A flaw that is found during parsing: its kind, and the text that begins at its byte offset.
#[derive(Clone, Copy)]
pub struct FlawAt<'t> {
    pub kind: FlawKind,
    /// The text that begins with the text to show: an escape, a character, a suffix, a number or a word.
    pub piece: &'t str,
    pub rest: &'t str,
}

/// Creates a flaw of the kind `kind`. The flaw, and the text to show for it, begin where `rest` begins.
pub fn make_flaw(kind: FlawKind, rest: &str) -> FlawAt<'_>
    ensures { (result.kind ≡ kind) × (result.rest.now ≡ rest.now) × (result.piece.now ≡ rest.now) }
{
    FlawAt {
        kind,
        piece: rest,
        rest,
    }
}

impl<'t> FlawAt<'t> {
    /// Returns the flaw with its field `piece` replaced by the argument.
    pub fn with_piece(self, piece: &'t str) -> FlawAt<'t>
        ensures { (result.kind ≡ self.entry.kind) × (result.rest.now ≡ self.entry.rest.now)
            × (result.piece.now ≡ piece.now) }
    {
        FlawAt {
            kind: self.kind,
            piece,
            rest: self.rest,
        }
    }
}

/// One error in the text of a literal: its kind, its byte range, and the piece of the text to show.
///
/// The text before `lo` is the longest prefix of the text that can still become a literal: some ending completes it, and with
/// the text's next character no ending does. For an integer above 128 bits, the text before `lo` is the number without its
/// suffix. A compiler would underline `from..hi`.
#[derive(Clone, Copy, PartialEq, Eq, Debug)]
pub struct Flaw {
    /// The kind of error.
    pub kind: FlawKind,
    /// The byte offset where the faulty piece begins. The piece is, for example, an escape, a character, a suffix, a whole number,
    /// or a whole word. In a character or byte literal, the piece may be all of the text after the opening quote.
    pub from: usize,
    /// The byte offset of the first character that can't continue a literal, or the text's end if the text is too short. For an
    /// integer above 128 bits it is the byte offset of the suffix.
    pub lo: usize,
    /// The byte offset after the character at `lo`, or the text's end.
    pub hi: usize,
}

impl Flaw {
    /// Returns the flaw's range `lo..hi` in the file, where `span` is the span of the literal's token.
    ///
    /// The offsets count from the span's first byte, and are limited to its end.
    pub fn in_span(self, span: Span) -> Span
        ensures { result ≡ record {
          file = span.file;
          lo = place_in span self.lo;
          hi = place_in span self.hi;
        } }
    {
        Span::new(span.file, place_in(span, self.lo), place_in(span, self.hi))
    }

    /// Returns the range `from..hi` in the file, which a compiler would underline. `span` is the span of the literal's token.
    pub fn piece_in_span(self, span: Span) -> Span
        ensures { result ≡ record {
          file = span.file;
          lo = place_in span self.from;
          hi = place_in span self.hi;
        } }
    {
        Span::new(
            span.file,
            place_in(span, self.from),
            place_in(span, self.hi),
        )
    }
}

/// Returns the byte offset `at` counted from the beginning of `span`, limited to the end of `span`.
fn place_in(span: Span, at: usize) -> usize
    ensures { result ≡ place_in span at }
{
    match span.lo.checked_add(at) {
        Some(place) if place < span.hi => place,
        _ => span.hi,
    }
}

/// Returns a flaw at the beginning of `text`: of the kind `at_end` if `text` is empty, of the kind `before` otherwise.
pub fn flaw_at_end_or_before(at_end: FlawKind, before: FlawKind, text: &str) -> FlawAt<'_>
    ensures { found_flaw result.kind (chars result.rest.now)
        ≡ end_flaw_at at_end before (chars text.now) }
{
    match split_char(text) {
        None => make_flaw(at_end, text),
        Some(_) => make_flaw(before, text),
    }
}

/// Returns the part of `text` after the longest common prefix of `word` and `text`.
fn skip_letters<'t>(word: &str, text: &'t str) -> &'t str
    ensures { chars result.now ≡ after_letters (chars word.now) (chars text.now) }
{
    let mut left = word;
    let mut rest = text;
    while let Some((letter, more)) = split_char(left) {
        match split_char(rest) {
            Some((next, after)) if next == letter => {
                left = more;
                rest = after;
            }
            _ => return rest,
        }
    }
    rest
}

/// Returns the flaw of a text that begins neither as a number nor as a quoted literal.
#[tactic(auto, unfolding(crate::specs::Mirrors::WordFlawAt::word_flaw_at))]
pub fn non_literal_flaw(text: &str) -> FlawAt<'_>
    ensures { found_flaw result.kind (chars result.rest.now) ≡ word_flaw_at (chars text.now) }
{
    match split_char(text) {
        None => make_flaw(FlawKind::Empty, text),
        Some(('b' | 'c', rest)) => flaw_at_end_or_before(
            FlawKind::UnexpectedEnd,
            FlawKind::NotALiteral,
            rest,
        ),
        Some(('t', _)) => flaw_at_end_or_before(
            FlawKind::UnexpectedEnd,
            FlawKind::NotALiteral,
            skip_letters("true", text),
        ),
        Some(('f', _)) => flaw_at_end_or_before(
            FlawKind::UnexpectedEnd,
            FlawKind::NotALiteral,
            skip_letters("false", text),
        ),
        Some(_) => make_flaw(FlawKind::NotALiteral, text),
    }
}
