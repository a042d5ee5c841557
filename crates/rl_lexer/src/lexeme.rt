//! Functions that lex the token at the start of a text: a literal, an identifier, a delimiter or another punctuation
//! character.
#![tactic(auto, using(rl_syntax::proofs::TailLemmas::tail_step))]

mod number;
mod quotes;
mod suffix;

ghost use Rattle.std.specs.Prelude.{◌≡◌, ◌<◌, ◌&&◌, ◌==◌, List, ℕ, length, drop, cond, option_map, IfSome, IfNone, IsFalse, IsTrue};
ghost use Rattle.std.specs.Char.{is_ascii, is_ascii_digit};
ghost use Rattle.std.specs.Str.{chars};
ghost use Rattle.rl_syntax.specs.Texts.{code, is_among, first_passes, IsTail, begins_char};
ghost use Rattle.rl_lexer.specs.Cuts.{is_opener};
ghost use Rattle.rl_lexer.specs.Lexemes.{delimiters, LexemeBefore, LiteralForm};
ghost use Rattle.rl_syntax.specs.Texts.{is_start};
ghost use Rattle.rl_lexer.specs.Cursors.{form_view};
ghost use Rattle.rl_lexer.specs.Mirrors.LexemeAt.{start_class, by_class, begins_hashed_quote, quoted_at, raw_at, single_at, literal_at, word_at, after_digit, lexeme_at, FormBefore, SlashHead, begins_word, is_always_token, is_prefix_letter, continues_word, makes_comment, mark_form};
ghost use Rattle.rl_lexer.specs.declared.lexeme.Lead.TheVariants.{Word, Mark, Prefix, Slash};

use number::{after_decimal, after_digits, ends_number};
pub(crate) use quotes::begins_hashed_quote;
use quotes::{after_character, after_quoted, after_raw_literal};
use rl_syntax::characters::is_id_start;
use rl_syntax::classes::skip_id_continue;
use rl_syntax::lanes::has_bit;
use rl_syntax::text::{begins_with_char, split_ascii, split_char, strip_byte, without_first_char};
pub(crate) use suffix::after_suffix;

/// The form of a token that [`Tokens`](crate::Tokens) returns, which its first characters decide. A token with the form
/// `Literal` isn't checked further, and may be an invalid literal.
#[derive(Clone, Copy, PartialEq, Eq, Debug)]
pub enum Form {
    /// A literal of any kind, except `true` and `false`.
    Literal,
    /// An identifier or a keyword, also `true` and `false`.
    Identifier,
    /// One of the six delimiters: `(`, `)`, `[`, `]`, `{` and `}`.
    Delimiter(char),
    /// A punctuation character that isn't a delimiter, as `+`.
    Mark(char),
}

/// Returns the form of the token at the start of a text, and the text after the token. Returns `None` if no token
/// begins the text.
///
/// Most tokens of a list are numbers, identifiers and punctuation characters. These tokens are recognized without a
/// call.
#[inline(always)]
pub(crate) fn first_lexeme(text: &str) -> Option<(Form, &str)>
    ensures found { IfSome result
        (λ p. FormBefore (chars text.now) (form_view p.0) (chars p.1.now)) }
    ensures none { IfNone result ((after : List ℕ) → LexemeBefore (chars text.now) after → ⊥) }
    ensures following { IfSome result (λ p. IsTail text.now p.1.now) }
    ensures shorter { IfSome result (λ p. length p.1.now < length text.now) }
{
    if let Some(following) = after_number(text) {
        return Some((Form::Literal, following));
    }
    // A quote begins neither an identifier nor a punctuation character.
    if strip_byte(text, b'"').is_none() {
        if let Some((form, following)) = word_or_mark(text) {
            return Some((form, following));
        }
    }
    rebuilt_lexeme(text)
}

/// Returns the result of [`first_lexeme`] without a call of [`word_or_mark`]. The caller has called `word_or_mark`
/// already, and the result was `None`.
#[inline(always)]
pub(crate) fn number_or_other(text: &str) -> Option<(Form, &str)>
    ensures found { IfSome result
        (λ p. FormBefore (chars text.now) (form_view p.0) (chars p.1.now)) }
    ensures none { IfNone result ((after : List ℕ) → LexemeBefore (chars text.now) after → ⊥) }
    ensures following { IfSome result (λ p. IsTail text.now p.1.now) }
    ensures shorter { IfSome result (λ p. length p.1.now < length text.now) }
{
    if let Some(following) = after_number(text) {
        return Some((Form::Literal, following));
    }
    rebuilt_lexeme(text)
}

/// Returns `text` without the number at its start, or `None` if `text` doesn't begin with a decimal digit.
#[inline(always)]
fn after_number(text: &str) -> Option<&str>
    ensures found { IfSome result
        (λ rest. FormBefore (chars text.now) LiteralForm (chars rest.now)) }
    ensures none { IfNone result (IsFalse (first_passes is_ascii_digit (chars text.now))) }
    ensures following { IfSome result (λ rest. IsTail text.now rest.now) }
    ensures shorter { IfSome result (λ rest. length rest.now < length text.now) }
{
    match split_ascii(text) {
        Some((byte, following)) if (byte as char).is_ascii_digit() => Some(after_digit(following)),
        _ => None,
    }
}

/// Returns the result of [`lexeme_but_number`] as a new value.
///
/// The memory for a call's result is zeroed when the calling function begins. As this call is in a function of its own,
/// only the texts that need the call cost that zeroing.
#[inline(always)]
fn rebuilt_lexeme(text: &str) -> Option<(Form, &str)>
    requires { IsFalse (first_passes is_ascii_digit (chars text.now)) }
    ensures found { IfSome result
        (λ p. FormBefore (chars text.now) (form_view p.0) (chars p.1.now)) }
    ensures none { IfNone result ((after : List ℕ) → LexemeBefore (chars text.now) after → ⊥) }
    ensures following { IfSome result (λ p. IsTail text.now p.1.now) }
    ensures shorter { IfSome result (λ p. length p.1.now < length text.now) }
{
    rebuilt(lexeme_but_number(text))
}

/// Returns the form of the token at the start of a text, and the text after the token. The first character, which must
/// not be a digit, selects the function that lexes the token.
#[inline(never)]
#[tactic(auto, using(crate::proofs::NumberEnds::quote_first, crate::proofs::NumberEnds::apostrophe_first, crate::proofs::NumberEnds::slash_first, crate::proofs::WordsAndMarks::stray_first, rl_syntax::proofs::TailLemmas::tail_step, rl_syntax::proofs::TailLemmas::some_tail, rl_syntax::proofs::TailLemmas::some_nearer))]
fn lexeme_but_number(text: &str) -> Option<(Form, &str)>
    requires { IsFalse (first_passes is_ascii_digit (chars text.now)) }
    ensures rest { option_map (λ p. (form_view p.0, chars p.1.now)) result
        ≡ lexeme_at (chars text.now) }
    ensures following { IfSome result (λ p. IsTail text.now p.1.now) }
    ensures shorter { IfSome result (λ p. length p.1.now < length text.now) }
{
    let Some((byte, following)) = split_ascii(text) else {
        return rebuilt(wide_identifier(text));
    };
    match byte {
        b'"' => quoted_literal(following),
        b'\'' => character_literal(following),
        b'/' => rebuilt(after_slash(following)),
        _ if is_always_token(byte) => Some((mark_form(byte as char), following)),
        _ if is_id_start(byte as char) => rebuilt(literal_or_identifier(byte as char, following)),
        _ => None,
    }
}

/// Returns a new value that equals `found`. So the result of one call isn't joined in memory with the results of other
/// calls.
#[inline(always)]
pub(crate) fn rebuilt<F>(found: Option<(F, &str)>) -> Option<(F, &str)>
    ensures { result ≡ found.entry }
{
    match found {
        Some((form, following)) => Some((form, following)),
        None => None,
    }
}

/// Returns the identifier at the start of a text whose first character is non-ASCII, and the text after the identifier.
/// Returns `None` if that character can't begin an identifier.
#[inline(never)]
#[tactic(auto, using(crate::proofs::WordsAndMarks::wide_word, crate::proofs::WordsAndMarks::wide_stray, rl_syntax::proofs::TailLemmas::tail_step))]
fn wide_identifier(text: &str) -> Option<(Form, &str)>
    requires { IsFalse (first_passes is_ascii (chars text.now)) }
    ensures rest { option_map (λ p. (form_view p.0, chars p.1.now)) result
        ≡ lexeme_at (chars text.now) }
    ensures following { IfSome result (λ p. IsTail text.now p.1.now) }
    ensures shorter { IfSome result (λ p. length p.1.now < length text.now) }
{
    let (c, following) = split_char(text)?;
    if !is_id_start(c) {
        return None;
    }
    Some((Form::Identifier, skip_id_continue(following)))
}

/// Returns the form of a token that begins with the letter `letter`, and the text after the token: a literal with a
/// prefix, or an identifier. `text` follows the letter. For a raw identifier the result is `None`.
#[inline(never)]
fn literal_or_identifier(letter: char, text: &str) -> Option<(Form, &str)>
    ensures rest { option_map (λ p. (form_view p.0, chars p.1.now)) result
        ≡ by_class (start_class letter) letter (chars text.now) }
    ensures following { IfSome result (λ p. IsTail text.now p.1.now) }
{
    match letter {
        'b' | 'c' if begins_with_char(text, '"') => quoted_literal(without_first_char(text)),
        'b' if begins_with_char(text, '\'') => character_literal(without_first_char(text)),
        'b' | 'c' if begins_raw_literal(text) => raw_literal(without_first_char(text)),
        'r' if begins_hashed_quote(text) => raw_literal(text),
        'r' if begins_marked_identifier(text) => None,
        _ => Some((Form::Identifier, skip_id_continue(text))),
    }
}

/// Returns the form of the token at the start of a text, and the text after the token, if the first one or two ASCII
/// bytes decide the form. The token is then an identifier that doesn't begin like a literal, a delimiter, or a
/// punctuation character that doesn't begin a comment. Otherwise the result is `None`, and the text may still begin
/// with a token.
#[inline(always)]
pub(crate) fn word_or_mark(text: &str) -> Option<(Form, &str)>
    ensures found { IfSome result
        (λ p. FormBefore (chars text.now) (form_view p.0) (chars p.1.now)) }
    ensures following { IfSome result (λ p. IsTail text.now p.1.now) }
    ensures shorter { IfSome result (λ p. length p.1.now < length text.now) }
{
    let (byte, following) = split_ascii(text)?;
    match lead_of(byte) {
        Lead::Word => Some((Form::Identifier, skip_id_continue(following))),
        Lead::Mark => Some((mark_form(byte as char), following)),
        Lead::Prefix if continues_word(following) => {
            Some((Form::Identifier, skip_id_continue(following)))
        }
        Lead::Slash if begins_other_than_comment(following) => Some((Form::Mark('/'), following)),
        _ => None,
    }
}

/// A class of ASCII characters, by the tokens that begin with them.
#[derive(Clone, Copy)]
enum Lead {
    /// A character that always begins an identifier: `_`, and each letter except `b`, `c` and `r`.
    Word,
    /// A character that always is a token by itself: a delimiter, or a punctuation character except `/`.
    Mark,
    /// A letter that begins a literal's prefix or an identifier: `b`, `c` or `r`.
    Prefix,
    /// The slash, which begins a comment or is a punctuation character.
    Slash,
    /// Every other ASCII character.
    Other,
}

/// Returns the class of an ASCII character. Masks of 64 bits contain the characters of the classes `Word` and `Mark`.
#[inline(always)]
fn lead_of(byte: u8) -> Lead
    requires { byte < 128 }
    ensures word { result ≡ Word → IsTrue (begins_word byte) }
    ensures mark { result ≡ Mark → IsTrue (is_always_token byte) }
    ensures prefix { result ≡ Prefix → IsTrue (is_prefix_letter byte) }
    ensures slash { result ≡ Slash → byte ≡ code "/" }
{
    if byte < 64 {
        if has_bit(LOW_MARKS, byte) {
            return Lead::Mark;
        }
        if byte == b'/' {
            return Lead::Slash;
        }
        return Lead::Other;
    }
    if has_bit(0x07fb_fff2_87ff_fffe, byte - 64) {
        return Lead::Word;
    }
    if has_bit(HIGH_MARKS, byte - 64) {
        return Lead::Mark;
    }
    if matches!(byte, b'b' | b'c' | b'r') {
        return Lead::Prefix;
    }
    Lead::Other
}

/// Whether `following`, the text after a letter `b`, `c` or `r`, begins with an ASCII character whose code is at least
/// 64 (`@`), except `r`. If the result is `true`, the letter begins an identifier or is one, and isn't a literal's
/// prefix.
///
/// Before a digit and before a non-ASCII character the result is `false`, although the letter begins an identifier
/// there too.
#[inline(always)]
fn continues_word(following: &str) -> bool
    ensures { IsTrue result → IsTrue (first_passes continues_word (chars following.now)) }
{
    match split_ascii(following) {
        Some((next, _)) => next >= 64 && next != b'r',
        None => false,
    }
}

/// Whether the text after a slash begins with an ASCII character other than `/` and `*`, so that the slash begins no
/// comment.
#[inline(always)]
fn begins_other_than_comment(following: &str) -> bool
    ensures { IsTrue result → IsFalse (first_passes makes_comment (chars following.now)) }
{
    match split_ascii(following) {
        Some((next, _)) => next != b'/' && next != b'*',
        None => false,
    }
}

/// A bit for each of the ASCII characters 0 to 63, set where [`is_always_token`] is true.
const LOW_MARKS: u64 = 0xfc00_7f7a_0000_0000;
/// A bit for each of the ASCII characters 64 to 127, set where [`is_always_token`] is true.
const HIGH_MARKS: u64 = 0x7800_0000_6800_0001;

/// Whether the ASCII character is a token by itself, whatever follows it: a delimiter, or a punctuation character
/// except `/`.
#[inline(always)]
#[tactic(auto, using(crate::proofs::WordsAndMarks::low_marks, crate::proofs::WordsAndMarks::high_marks))]
fn is_always_token(byte: u8) -> bool
    requires { byte < 128 }
    ensures { result ≡ is_always_token byte }
{
    if byte < 64 {
        has_bit(LOW_MARKS, byte)
    } else {
        has_bit(HIGH_MARKS, byte - 64)
    }
}

/// Returns the form of the delimiter or the punctuation character `c`.
#[inline(always)]
fn mark_form(c: char) -> Form
    ensures { form_view result ≡ mark_form c }
{
    if is_delimiter(c) {
        Form::Delimiter(c)
    } else {
        Form::Mark(c)
    }
}

// The functions `quoted_literal`, `character_literal` and `raw_literal` are alike. They are separate functions, because
// a function zeroes the memory for the results of all its calls when it begins.

/// Returns the form `Literal` and the text after a string literal, where `text` follows the opening `"`. Returns `None`
/// if the literal isn't closed.
#[inline(always)]
fn quoted_literal(text: &str) -> Option<(Form, &str)>
    ensures rest { option_map (λ p. (form_view p.0, chars p.1.now)) result
        ≡ literal_at (quoted_at (chars text.now)) }
    ensures following { IfSome result (λ p. IsTail text.now p.1.now) }
{
    Some((Form::Literal, after_quoted(text)?))
}

/// Returns the form `Literal` and the text after a character or byte literal, where `text` follows the opening `'`.
/// Returns `None` if no `'` follows the one character or the escape.
#[inline(always)]
fn character_literal(text: &str) -> Option<(Form, &str)>
    ensures rest { option_map (λ p. (form_view p.0, chars p.1.now)) result
        ≡ literal_at (single_at (chars text.now)) }
    ensures following { IfSome result (λ p. IsTail text.now p.1.now) }
{
    Some((Form::Literal, after_character(text)?))
}

/// Returns the form `Literal` and the text after a raw literal, where `text` follows the `r`. Returns `None` if the
/// literal isn't closed.
#[inline(always)]
fn raw_literal(text: &str) -> Option<(Form, &str)>
    ensures rest { option_map (λ p. (form_view p.0, chars p.1.now)) result
        ≡ literal_at (raw_at (chars text.now)) }
    ensures following { IfSome result (λ p. IsTail text.now p.1.now) }
{
    Some((Form::Literal, after_raw_literal(text)?))
}

/// Returns the slash as a punctuation character, and `text`, which follows the slash. Returns `None` if the slash
/// begins a comment.
#[inline(never)]
fn after_slash(text: &str) -> Option<(Form, &str)>
    ensures rest { option_map (λ p. (form_view p.0, chars p.1.now)) result
        ≡ by_class SlashHead 47 (chars text.now) }
    ensures following { IfSome result (λ p. IsTail text.now p.1.now) }
{
    match split_char(text) {
        Some(('/' | '*', _)) => None,
        _ => Some((Form::Mark('/'), text)),
    }
}

/// Returns the text after a number, where `text` follows the first digit of the number.
///
/// A prefix such as `0x` needs no test: the letter of the prefix and the digits after the letter are lexed like a
/// suffix. Most numbers end after a sequence of digits.
#[inline(always)]
fn after_digit(text: &str) -> &str
    ensures rest { (digit : ℕ) → chars result.now ≡ after_digit digit (chars text.now) }
    ensures following { IsTail text.now result.now }
{
    let rest = after_digits(text);
    if ends_number(rest) {
        return rest;
    }
    after_decimal(rest)
}

/// Whether the text begins with `r`, any number of hashes, and `"`.
fn begins_raw_literal(text: &str) -> bool
    ensures { result
        ≡ (begins_char (code "r") (chars text.now) && begins_hashed_quote (drop 1 (chars text.now))) }
{
    begins_with_char(text, 'r') && begins_hashed_quote(without_first_char(text))
}

/// Whether the text begins with `#` and a character that may begin an identifier.
pub(crate) fn begins_marked_identifier(text: &str) -> bool
    ensures { result
        ≡ (begins_char (code "#") (chars text.now)
        && first_passes is_start (drop 1 (chars text.now))) }
{
    match split_char(text) {
        Some(('#', following)) => match split_char(following) {
            Some((next, _)) => is_id_start(next),
            None => false,
        },
        _ => false,
    }
}

/// Returns `true` if the delimiter opens a group: `(`, `[` or `{`.
pub fn is_opener(c: char) -> bool
    ensures { result ≡ is_opener c }
{
    matches!(c, '(' | '[' | '{')
}

/// Whether the character is one of the six delimiters: `(`, `)`, `[`, `]`, `{` and `}`.
fn is_delimiter(c: char) -> bool
    ensures { result ≡ is_among delimiters c }
{
    matches!(c, '(' | ')' | '[' | ']' | '{' | '}')
}
