//! Punctuation tokens.

ghost use Rattle.std.specs.Prelude.{◌≡◌, IsTrue};
ghost use Rattle.rl_lexer.specs.Lexemes.{is_punct};
ghost use Rattle.rl_tokens.specs.Puncts.{mark_word};

use rl_syntax::Span;
use std::marker::Model;

/// A token of one punctuation character, with its span. `==` is two tokens.
///
/// # Example
///
/// ```
/// use rl_tokens::{ParseBuffer, Span, lex};
/// use std::alloc::Global;
///
/// pub fn punct_after_ident(alloc: Global, text: &str) -> Option<char> {
///     let stream = lex(alloc, text, 0).ok()?;
///     let mut input = ParseBuffer::new(stream.trees(), Span::call_site());
///     input.ident()?;
///     Some(input.punct()?.as_char())
/// }
/// // punct_after_ident(alloc, "port = 80") == Some('=')
/// ```
#[derive(Drop)]
pub struct Punct {
    ch: char,
    span: Span,
}

impl Model for Punct {
    ghost use Rattle.std.specs.Prelude.{IsTrue};
    ghost use Rattle.rl_tokens.specs.Puncts.{Mark};
    ghost use Rattle.rl_lexer.specs.Lexemes.{is_punct};

    ghost Value = { Mark };

    ghost view = { λ punct. record { ch = punct.ch; span = punct.span } };

    ghost invariant = { λ punct. IsTrue (is_punct punct.ch) };
}

impl Punct {
    /// Creates the token of the punctuation character `ch`, with the span `span`. [`Punct::is_char`] must be `true` for
    /// `ch`.
    pub fn new(ch: char, span: Span) -> Punct
        requires { IsTrue (is_punct ch) }
        ensures { result ≡ record { ch = ch; span = span } }
    {
        Punct { ch, span }
    }

    /// Returns `true` if `ch` is a punctuation character: one of ``~ ! @ # $ % ^ & * - = + | ; : , < . > / ?``.
    pub fn is_char(ch: char) -> bool
        ensures { result ≡ is_punct ch }
    {
        matches!(
            ch,
            '~' | '!'
                | '@'
                | '#'
                | '$'
                | '%'
                | '^'
                | '&'
                | '*'
                | '-'
                | '='
                | '+'
                | '|'
                | ';'
                | ':'
                | ','
                | '<'
                | '.'
                | '>'
                | '/'
                | '?'
        )
    }

    /// Returns the token's punctuation character. [`Punct::is_char`] is `true` for it.
    pub fn as_char(&self) -> char
        ensures ch { result ≡ self.now.ch }
        ensures punct { IsTrue (is_punct result) }
    {
        self.ch
    }

    /// Returns the punctuation token's span: a file, and the range of one byte in that file.
    pub fn span(&self) -> Span
        ensures { result ≡ self.now.span }
    {
        self.span
    }

    /// Sets the punctuation token's span to `span`, and leaves its character unchanged.
    pub fn set_span(&mut self, span: Span)
        ensures { self.new ≡ record self.old { span = span } }
    {
        self.span = span;
    }
}

/// Returns the name of the punctuation character `ch` in error messages: the character between two backticks.
pub(crate) fn word_of(ch: char) -> &'static str
    requires { IsTrue (is_punct ch) }
    ensures { result.now ≡ mark_word ch }
{
    match ch {
        '~' => "`~`",
        '!' => "`!`",
        '@' => "`@`",
        '#' => "`#`",
        '$' => "`$`",
        '%' => "`%`",
        '^' => "`^`",
        '&' => "`&`",
        '*' => "`*`",
        '-' => "`-`",
        '=' => "`=`",
        '+' => "`+`",
        '|' => "`|`",
        ';' => "`;`",
        ':' => "`:`",
        ',' => "`,`",
        '<' => "`<`",
        '.' => "`.`",
        '>' => "`>`",
        '/' => "`/`",
        _ => "`?`",
    }
}
