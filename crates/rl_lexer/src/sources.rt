//! The cursor that lexes a whole Rust source's tokens one at a time.

ghost use Rattle.std.specs.Prelude.{◌≡◌, ◌↔◌, ◌<◌, ◌+◌, ◌⊎◌, ℕ, List, [], length, IfSome, IfNone, IsTrue};
ghost use Rattle.std.specs.Str.{chars};
ghost use Rattle.rl_syntax.specs.Texts.{IsTail};
ghost use Rattle.rl_lexer.specs.Sources.{source_view, SourceKind, SourceBefore, BeginsNoSource, SourceErrorAt, IsLiteralText};

use crate::lex_error::LexError;
use crate::no_token::source_error_kind;
use crate::source::{
    SourceForm, after_first_line, first_source_token, is_literal, skip_unlikely, without_preamble,
};
use crate::whitespace::skip;
use std::marker::Model;

/// A token that [`Sources`] returns: its form, its text and its byte range. The text is borrowed from the source.
#[derive(Clone, Copy)]
pub struct SourceToken<'t> {
    /// The form of the token.
    pub form: SourceForm,
    /// The token's text, a slice of the whole source.
    pub text: &'t str,
    /// The byte offset in the source where the token begins.
    pub lo: usize,
    /// The byte offset in the source after the token's last byte.
    pub hi: usize,
}

impl SourceToken<'_> {
    /// Returns `true` if the token is a literal, `true` or `false`.
    #[inline(always)]
    pub fn is_literal(&self) -> bool
        ensures { IsTrue result
            ↔ IsLiteralText (source_view self.now.form) (chars self.now.text.now) }
    {
        match self.form {
            SourceForm::Token(form) => is_literal(form, self.text),
            _ => false,
        }
    }
}

/// A cursor that lexes a whole Rust source's tokens one at a time: those of [`Tokens`], and lifetimes, raw identifiers,
/// doc comments and stray characters.
///
/// White space and plain comments between the tokens are dropped, and so are a byte order mark and an interpreter's
/// line before the first token. A delimiter is a token like any other: groups aren't counted. Nothing is allocated.
///
/// # Example
///
/// ```
/// use rl_tokens::{SourceForm, Sources};
///
/// pub fn leading_doc_comment(source: &str) -> Option<&str> {
///     let token = Sources::new(source).next()?;
///     match token.form {
///         SourceForm::DocComment => Some(token.text),
///         _ => None,
///     }
/// }
/// // leading_doc_comment("/// Docs.") == Some("/// Docs.")
/// ```
///
/// [`Tokens`]: crate::Tokens
#[derive(Drop)]
pub struct Sources<'t> {
    text: &'t str,
    // The source from the next token on: white space and comments before that token are dropped already.
    rest: &'t str,
}

impl<'t> Model for Sources<'t> {
    ghost use Rattle.rl_lexer.specs.Cursors.{CursorState, IsCursorState};

    ghost Value = { CursorState };

    ghost view = { λ t. record { text = t.text.now; rest = t.rest.now } };

    ghost invariant = { λ t. IsCursorState t.text.now t.rest.now };
}

impl<'t> Sources<'t> {
    ghost use Rattle.rl_lexer.specs.Cursors.{IsCursorState};
    ghost use Rattle.std.specs.List.{list_all};
    ghost use Rattle.rl_lexer.specs.Sources.{IsCutUpTo, TakesSource, PassesTo, TakesLiteralAfter, IsFirstSourceError, IsAfterLine, is_in_line};

    /// Creates the cursor at the start of a source. A byte order mark, an interpreter's line, white space and plain
    /// comments before the first token are dropped.
    pub fn new(text: &'t str) -> Sources<'t>
        ensures text { result.text ≡ text.now }
        ensures begun { IsCutUpTo (chars text.now) [] (chars result.rest) }
        ensures following { IsCursorState text.now result.rest }
    {
        Sources {
            text,
            rest: skip(without_preamble(text)),
        }
    }

    /// Creates a cursor over `text` at the position where `rest` begins. `rest` is the end of `text`, as
    /// [`Sources::rest`] of another cursor returns it. White space and comments at the start of `rest` aren't dropped.
    #[inline(always)]
    pub fn resume(text: &'t str, rest: &'t str) -> Sources<'t>
        requires { IsCursorState text.now rest.now }
        ensures { result ≡ record { text = text.now; rest = rest.now } }
    {
        Sources { text, rest }
    }

    /// Consumes the next token and returns it.
    ///
    /// Returns `None` at the end of the source, and where no token begins, since the source has an error. The cursor
    /// doesn't move then.
    #[inline(always)]
    pub fn next(&mut self) -> Option<SourceToken<'t>>
        // The returned token is the next one of the source.
        ensures next { IfSome result (λ l. TakesSource self.old l self.new) }
        ensures shorter { IfSome result (λ l. length self.new.rest < length self.old.rest) }
        ensures none { IfNone result (BeginsNoSource (chars self.old.rest)) }
        ensures stays { IfNone result (self.new ≡ self.old) }
    {
        let (form, following) = first_source_token(self.rest)?;
        let lo = self.text.len() - self.rest.len();
        let hi = self.text.len() - following.len();
        let text = &self.rest[..self.rest.len() - following.len()];
        self.rest = skip(following);
        Some(SourceToken { form, text, lo, hi })
    }

    /// Consumes tokens up to and including the next literal, and returns that literal: a literal token, valid or not,
    /// `true` or `false`.
    ///
    /// Returns `None` if the end of the source or an error comes first. The cursor is then at the end or before the
    /// error, which [`Sources::error`] returns.
    ///
    /// See the example of [`Sources`].
    pub fn next_literal(&mut self) -> Option<SourceToken<'t>>
        // The consumed tokens are the next ones of the source. The last one is the literal, and the others aren't
        // literals.
        ensures found { IfSome result (λ l. TakesLiteralAfter self.old l self.new) }
        ensures shorter { IfSome result (λ l. length self.new.rest < length self.old.rest) }
        // If the result is `None`, no consumed token is a literal, and no token begins the remaining text.
        ensures passed { IfNone result (PassesTo self.old self.new) }
        ensures none { IfNone result (BeginsNoSource (chars self.new.rest)) }
    {
        loop {
            self.rest = skip_unlikely(self.rest);
            let token = self.next()?;
            if token.is_literal() {
                return Some(token);
            }
        }
    }

    /// Returns the lexer's error at the cursor, with its byte offset in the source. Returns `None` at the end of the
    /// source, and before a token. The kind is `UnclosedComment` or `UnclosedQuote`.
    pub fn error(&self) -> Option<LexError>
        ensures error { IfSome result (λ e. SourceErrorAt e.kind (chars self.now.rest)) }
        ensures place { IfSome result (λ e. e.at + length self.now.rest ≡ length self.now.text) }
        // The error is the first error of the source, provided that the source before the cursor can be lexed.
        ensures first { IfSome result (λ e. IsFirstSourceError self.now e.kind e.at) }
        // If the result is `None`, the cursor is at the end of the source, or before a token.
        ensures none { IfNone result ((self.now.rest ≡ [])
            ⊎ ((kind : SourceKind) × (after : List ℕ)
            × SourceBefore (chars self.now.rest) kind after)) }
    {
        if self.rest.is_empty() || first_source_token(self.rest).is_some() {
            return None;
        }
        let kind = source_error_kind(self.rest);
        let at = self.text.len() - self.rest.len();
        Some(LexError::new(kind, at))
    }

    /// Returns the text after the consumed tokens, without leading white space and comments. The result is empty at the
    /// end of the source, and otherwise begins with a token or an error.
    pub fn rest(&self) -> &'t str
        ensures { result.now ≡ self.now.rest }
    {
        self.rest
    }

    /// Returns the lines after the cursor's line: the text after the first LF of [`rest`](Sources::rest). Returns
    /// `None` if `rest` contains no LF.
    ///
    /// After an error, lexing can resume with these lines: [`Sources::new`] lexes them. Its byte offsets then count
    /// from the start of the lines. Their offset in the source is the source's length without the length of the lines.
    ///
    /// # Example
    ///
    /// ```
    /// use rl_tokens::Sources;
    /// use std::alloc::Global;
    ///
    /// pub fn literal_and_error_offsets(alloc: Global, source: &str) -> Option<Vec<usize>> {
    ///     let mut places = Vec::new(alloc);
    ///     let mut lines = source;
    ///     loop {
    ///         let front = source.len() - lines.len();
    ///         let mut tokens = Sources::new(lines);
    ///         while let Some(literal) = tokens.next_literal() {
    ///             places.push(front + literal.lo).ok()?;
    ///         }
    ///         if let Some(error) = tokens.error() {
    ///             places.push(front + error.at).ok()?;
    ///         }
    ///         match tokens.following_lines() {
    ///             Some(following) => lines = following,
    ///             None => return Some(places),
    ///         }
    ///     }
    /// }
    /// // literal_and_error_offsets(alloc, "f(\"a);\nlet b = 'x';\ng('ab');") == Some([2, 15, 22])
    /// ```
    pub fn following_lines(&self) -> Option<&'t str>
        ensures lines { IfSome result
            (λ lines. IsAfterLine (chars self.now.rest) (chars lines.now)) }
        ensures none { IfNone result (IsTrue (list_all is_in_line (chars self.now.rest))) }
        ensures following { IfSome result (λ lines. IsTail self.now.rest lines.now) }
        ensures shorter { IfSome result (λ lines. length lines.now < length self.now.rest) }
    {
        after_first_line(self.rest)
    }
}

/// Yields the tokens up to the end of the source or its first error. [`Sources::error`] then returns that error.
impl<'t> Iterator for Sources<'t> {
    ghost use Rattle.std.specs.Iterator.{at_most};
    ghost use Rattle.rl_lexer.specs.Sources.{GivesSource};

    type Item = SourceToken<'t>;

    ghost next_gives = { GivesSource };

    ghost remaining = { λ t. at_most (length t.rest) };

    #[inline(always)]
    fn next(&mut self) -> Option<SourceToken<'t>> {
        Sources::next(self)
    }
}
