//! The cursor that lexes a text's tokens one at a time.

ghost use Rattle.std.specs.Prelude.{◌≡◌, ◌<◌, ◌+◌, ◌⊎◌, List, [], length, IfSome, IfNone};
ghost use Rattle.std.specs.Str.{chars};
ghost use Rattle.rl_lexer.specs.Skipping.{Skipped};
ghost use Rattle.rl_lexer.specs.Cuts.{BeginsLexeme, BeginsNoLexeme, OpenGroup, ErrorAt};

use crate::lex_error::LexError;
use crate::lexeme::{Form, first_lexeme};
use crate::no_token::error_kind;
use crate::whitespace::skip;
use std::marker::Model;

/// A token that [`Tokens`] returns: its form, its text and its byte range. The text is borrowed from the lexed text.
///
/// See the example of [`Tokens`].
#[derive(Clone, Copy)]
pub struct Lexeme<'t> {
    /// The form of the token.
    pub form: Form,
    /// The token's text, a slice of the whole text.
    pub text: &'t str,
    /// The byte offset in the whole text where the token begins.
    pub lo: usize,
    /// The byte offset in the whole text after the token's last byte.
    pub hi: usize,
}

/// A cursor that lexes a text's tokens one at a time.
///
/// White space and plain comments between the tokens are dropped. A delimiter is a token like any other: the caller, or
/// [`lex`], checks whether groups are closed. Nothing is allocated.
///
/// # Example
///
/// ```
/// use rl_tokens::Tokens;
///
/// pub fn second_token(text: &str) -> Option<&str> {
///     let mut tokens = Tokens::new(text);
///     tokens.next()?;
///     Some(tokens.next()?.text)
/// }
/// // second_token("a /* b */ 1.5") == Some("1.5")
/// ```
///
/// [`lex`]: crate::lex
#[derive(Drop)]
pub struct Tokens<'t> {
    text: &'t str,
    // The text from the next token on: white space and comments before that token are dropped already.
    rest: &'t str,
}

impl<'t> Model for Tokens<'t> {
    ghost use Rattle.rl_lexer.specs.Cursors.{CursorState, IsCursorState};

    ghost Value = { CursorState };

    ghost view = { λ t. record { text = t.text.now; rest = t.rest.now } };

    ghost invariant = { λ t. IsCursorState t.text.now t.rest.now };
}

impl<'t> Tokens<'t> {
    ghost use Rattle.rl_lexer.specs.Cursors.{IsCursorState, TakesNext, IsFirstError};

    /// Creates the cursor at the start of a text. White space and comments before the first token are dropped.
    pub fn new(text: &'t str) -> Tokens<'t>
        ensures text { result.text ≡ text.now }
        ensures skipped { Skipped (chars text.now) (chars result.rest) }
        ensures following { IsCursorState text.now result.rest }
    {
        Tokens {
            text,
            rest: skip(text),
        }
    }

    /// Consumes the next token and returns it.
    ///
    /// Returns `None` at the end of the text, and where no token begins, since the text has an error. The cursor
    /// doesn't move then.
    #[inline(always)]
    pub fn next(&mut self) -> Option<Lexeme<'t>>
        // The returned token is the next one of the text.
        ensures next { IfSome result (λ l. TakesNext self.old l self.new) }
        ensures shorter { IfSome result (λ l. length self.new.rest < length self.old.rest) }
        ensures none { IfNone result (BeginsNoLexeme (chars self.old.rest)) }
        ensures stays { IfNone result (self.new ≡ self.old) }
    {
        let (form, following) = first_lexeme(self.rest)?;
        let lo = self.text.len() - self.rest.len();
        let hi = self.text.len() - following.len();
        let text = &self.rest[..self.rest.len() - following.len()];
        self.rest = skip(following);
        Some(Lexeme { form, text, lo, hi })
    }

    /// Returns a copy of the cursor, to look ahead with. Consuming tokens from the copy doesn't move this cursor.
    #[inline(always)]
    pub fn fork(&self) -> Tokens<'t>
        ensures { result ≡ self.now }
    {
        Tokens {
            text: self.text,
            rest: self.rest,
        }
    }

    /// Returns the lexer's error at the cursor, with its byte offset in the whole text. Returns `None` at the end of
    /// the text, and before a token.
    ///
    /// Groups aren't counted here, so the kind is one of the first six of [`LexKind`](crate::LexKind).
    ///
    /// # Example
    ///
    /// ```
    /// use rl_tokens::{LexKind, Tokens};
    ///
    /// pub fn lex_error_kind(text: &str) -> Option<LexKind> {
    ///     Some(Tokens::new(text).error()?.kind)
    /// }
    /// // lex_error_kind("\"a") == Some(UnclosedQuote)
    /// ```
    pub fn error(&self) -> Option<LexError>
        // The error is at the cursor, where the text that isn't consumed begins, whichever groups are open.
        ensures error { IfSome result (λ e. (groups : List OpenGroup)
            → ErrorAt e.kind groups (chars self.now.rest)) }
        ensures place { IfSome result (λ e. e.at + length self.now.rest ≡ length self.now.text) }
        // The error is the first error of the text, provided that the text before the cursor can be lexed.
        ensures first { IfSome result (λ e. IsFirstError self.now e.kind e.at) }
        ensures stopped { IfSome result (λ e. BeginsNoLexeme (chars self.now.rest)) }
        // If the result is `None`, the cursor is at the end of the text, or before a token.
        ensures none { IfNone result ((self.now.rest ≡ []) ⊎ BeginsLexeme (chars self.now.rest)) }
    {
        if self.rest.is_empty() {
            return None;
        }
        if first_lexeme(self.rest).is_some() {
            return None;
        }
        let kind = error_kind(self.rest);
        let at = self.text.len() - self.rest.len();
        Some(LexError::new(kind, at))
    }

    /// Returns the text after the consumed tokens, without leading white space and comments. The result is empty at the
    /// end of the text, and otherwise begins with a token or an error.
    pub fn rest(&self) -> &'t str
        ensures { result.now ≡ self.now.rest }
    {
        self.rest
    }
}

/// Yields the tokens up to the end of the text or its first error. [`Tokens::error`] then returns that error.
impl<'t> Iterator for Tokens<'t> {
    ghost use Rattle.std.specs.Iterator.{at_most};
    ghost use Rattle.rl_lexer.specs.Cursors.{GivesNext};

    type Item = Lexeme<'t>;

    ghost next_gives = { GivesNext };

    ghost remaining = { λ t. at_most (length t.rest) };

    #[inline(always)]
    fn next(&mut self) -> Option<Lexeme<'t>> {
        Tokens::next(self)
    }
}
