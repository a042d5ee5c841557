//! A cursor over the literals and the errors of a source. Lexing resumes after each error.

ghost use Rattle.std.specs.Prelude.{◌≡◌, ◌≢◌, ◌+◌, ◌-◌, ◌<◌, ◌^◌, [], length, IfSome, IfNone, IfOk, IfErr};
ghost use Rattle.std.specs.Str.{chars};
ghost use Rattle.rl_syntax.specs.Texts.{IsTail};
ghost use Rattle.rl_lexer.specs.Cursors.{IsCursorState};
ghost use Rattle.rl_lexer.specs.Sources.{BeginsNoSource, PassesTo, TakesLiteralAfter};
ghost use Rattle.rl_cursors.specs.Recoveries.{StepsRecovery};
ghost use Rattle.rl_cursors.specs.Mirrors.Closing.{AreUnclosed};

use crate::lines::lines_after;
use crate::source_literals::SourceStep;
use crate::unclosed::Unclosed;
use rl_lenient::parse_literal;
use rl_lexer::{LexError, SourceToken, Sources, source_error_kind};
use std::marker::Model;

/// Consumes tokens up to the next literal and returns it, as [`Sources::next_literal`] does. Returns `None` if the end or the
/// first error of the source comes before it.
///
/// A literal that begins with a delimiter in `unclosed` is known to be unclosed. Its closing delimiter isn't searched for.
fn next_known<'t>(tokens: &mut Sources<'t>, unclosed: Unclosed) -> Option<SourceToken<'t>>
    requires cursor { IsCursorState tokens.old.text tokens.old.rest }
    requires unclosed { AreUnclosed unclosed (chars tokens.old.rest) }
    ensures found { IfSome result (λ l. TakesLiteralAfter tokens.old l tokens.new) }
    ensures shorter { IfSome result (λ l. length tokens.new.rest < length tokens.old.rest) }
    ensures passed { IfNone result (PassesTo tokens.old tokens.new) }
    ensures none { IfNone result (BeginsNoSource (chars tokens.new.rest)) }
{
    loop {
        if unclosed.begin(tokens.rest()) {
            return None;
        }
        let token = tokens.next()?;
        if token.is_literal() {
            return Some(token);
        }
    }
}

/// Returns the next literal, or `None` if the end or the first error of the source comes before it. While `unclosed` is empty,
/// [`Sources::next_literal`] finds the literal.
fn next_of<'t>(tokens: &mut Sources<'t>, unclosed: Unclosed) -> Option<SourceToken<'t>>
    requires cursor { IsCursorState tokens.old.text tokens.old.rest }
    requires unclosed { AreUnclosed unclosed (chars tokens.old.rest) }
    ensures found { IfSome result (λ l. TakesLiteralAfter tokens.old l tokens.new) }
    ensures shorter { IfSome result (λ l. length tokens.new.rest < length tokens.old.rest) }
    ensures passed { IfNone result (PassesTo tokens.old tokens.new) }
    ensures none { IfNone result (BeginsNoSource (chars tokens.new.rest)) }
{
    if unclosed.is_none_open() {
        return tokens.next_literal();
    }
    next_known(tokens, unclosed)
}

/// A cursor over the literals and the errors of a source. Each error is reported, and lexing resumes after it. Nothing is
/// allocated.
///
/// After an unclosed quote, lexing resumes at the end of the quote's line, as in a source that begins there. After the quote of
/// an unclosed character or byte literal, an escaped line end continues the line. An unclosed block comment extends to the
/// text's end.
///
/// The running time is linear in the text's length, since the closing delimiter of an unclosed literal is searched for once.
/// After an unclosed raw string, a raw string with fewer hashes is searched for again.
#[derive(Drop)]
pub struct Recovery<'t> {
    text: &'t str,
    // The part of the text, up to its end, in which lexing resumed last.
    part: &'t str,
    // The end of `part` that isn't lexed yet.
    rest: &'t str,
    // The opening delimiters that are known to have no closing delimiter in `rest`.
    unclosed: Unclosed,
}

impl<'t> Model for Recovery<'t> {
    ghost use Rattle.rl_cursors.specs.Recoveries.{RecoveryState};

    ghost Value = { RecoveryState };

    ghost use Rattle.rl_cursors.specs.Mirrors.Closing.{IsRecoveryState};

    ghost view = { λ t. record {
      whole = t.text.now;
      part = record { text = t.part.now; rest = t.rest.now };
    } };

    ghost invariant = { λ t. IsRecoveryState t.text.now t.part.now t.rest.now t.unclosed };
}

impl<'t> Recovery<'t> {
    ghost use Rattle.rl_lexer.specs.Sources.{IsCutUpTo};
    ghost use Rattle.rl_cursors.specs.Recoveries.{TakesLiteral, TakesUpAfter, StopsAt, ReportsUnclosed, EndsAfter};

    /// Creates a cursor at the start of a source.
    pub fn new(text: &'t str) -> Recovery<'t>
        ensures whole { result.whole ≡ text.now }
        ensures text { result.part.text ≡ text.now }
        ensures begun { IsCutUpTo (chars text.now) [] (chars result.part.rest) }
        ensures following { IsCursorState text.now result.part.rest }
    {
        let tokens = Sources::new(text);
        Recovery {
            text,
            part: text,
            rest: tokens.rest(),
            unclosed: Unclosed::nothing(),
        }
    }

    /// Creates a cursor that resumes a source. `rest` is the result of [`rest`](Sources::rest) of another cursor over the same
    /// text.
    pub fn resume(text: &'t str, rest: &'t str) -> Recovery<'t>
        requires { IsCursorState text.now rest.now }
        ensures { result
            ≡ record { whole = text.now; part = record { text = text.now; rest = rest.now } } }
    {
        Recovery {
            text,
            part: text,
            rest,
            unclosed: Unclosed::nothing(),
        }
    }

    /// Returns a copy of the cursor at the same position. The two cursors advance independently.
    pub fn fork(&self) -> Recovery<'t>
        ensures { result ≡ self.now }
    {
        Recovery {
            text: self.text,
            part: self.part,
            rest: self.rest,
            unclosed: self.unclosed,
        }
    }

    /// Returns the unread rest of the text, which doesn't begin with white space or a comment.
    pub fn rest(&self) -> &'t str
        ensures { result.now ≡ self.now.part.rest }
    {
        self.rest
    }

    /// Moves the cursor to the part of the text where lexing resumes after the error at the start of `rest`, or to the text's
    /// end if lexing doesn't resume.
    fn go_on(&mut self, rest: &'t str)
        requires following { IsTail self.old.part.rest rest.now }
        requires none { BeginsNoSource (chars rest.now) }
        ensures goes_on { TakesUpAfter rest.now self.new.part }
        ensures shorter { rest.now ≢ [] → length self.new.part.rest < length rest.now }
        ensures same { self.new.whole ≡ self.old.whole }
    {
        let unclosed = self.unclosed.after(rest);
        match lines_after(rest) {
            Some(lines) => {
                let tokens = Sources::new(lines);
                self.part = lines;
                self.rest = tokens.rest();
                self.unclosed = unclosed;
            }
            None => {
                self.part = "";
                self.rest = "";
            }
        }
    }

    /// Returns the error at the start of `rest`, where no token begins, and moves the cursor after it. Returns `None` if `rest`
    /// is empty.
    fn stop(&mut self, rest: &'t str) -> Option<LexError>
        requires following { IsTail self.old.part.rest rest.now }
        requires none { BeginsNoSource (chars rest.now) }
        ensures error { IfSome result (λ e. StopsAt rest.now self.old e self.new) }
        ensures shorter { IfSome result (λ e. length self.new.part.rest < length rest.now) }
        ensures none { IfNone result (rest.now ≡ []) }
        ensures ends { IfNone result (self.new ≡ record {
          whole = self.old.whole;
          part = record { text = self.old.part.text; rest = rest.now };
        }) }
    {
        let at = self.text.len() - rest.len();
        if rest.is_empty() {
            self.rest = rest;
            return None;
        }
        self.go_on(rest);
        Some(LexError::new(source_error_kind(rest), at))
    }

    /// Consumes and returns the next literal, as [`Sources::next_literal`] does, or the error before it. After an error, lexing
    /// resumes after it. The result is `None` at the text's end. Offsets are in bytes of the whole text.
    pub fn next_literal(&mut self) -> Option<Result<SourceToken<'t>, LexError>>
        ensures found { IfSome result (λ r. IfOk r (λ l. TakesLiteral self.old l self.new)) }
        // The error is the next error of the source. The tokens before the error aren't literals.
        ensures error { IfSome result (λ r. IfErr r (λ e. ReportsUnclosed self.old e self.new)) }
        ensures shorter { IfSome result
            (λ r. length self.new.part.rest < length self.old.part.rest) }
        ensures none { IfNone result (EndsAfter self.old self.new) }
    {
        let before = self.text.len() - self.part.len();
        let mut tokens = Sources::resume(self.part, self.rest);
        match next_of(&mut tokens, self.unclosed) {
            Some(token) => {
                self.rest = tokens.rest();
                Some(Ok(placed(before, token)))
            }
            None => match self.stop(tokens.rest()) {
                Some(error) => Some(Err(error)),
                None => None,
            },
        }
    }
}

/// Returns the token with its byte offsets increased by `before`.
fn placed(before: usize, token: SourceToken<'_>) -> SourceToken<'_>
    requires lo { before + token.lo < 2 ^ 64 }
    requires hi { before + token.hi < 2 ^ 64 }
    ensures { result ≡ record {
      form = token.entry.form;
      text = token.entry.text;
      lo = before + token.entry.lo;
      hi = before + token.entry.hi;
    } }
{
    SourceToken {
        form: token.form,
        text: token.text,
        lo: before + token.lo,
        hi: before + token.hi,
    }
}

/// Returns the next literal of a source and its parse result, or the error before the literal. After an error, lexing resumes
/// after it. The result is `End` at the text's end. Nothing is allocated.
#[inline(always)]
pub fn next_recovered_literal<'t>(source: &mut Recovery<'t>) -> SourceStep<'t>
    ensures { StepsRecovery source.old result source.new }
{
    match source.next_literal() {
        Some(Ok(token)) => SourceStep::Literal(token, parse_literal(token.text)),
        Some(Err(error)) => SourceStep::Rejected(error),
        None => SourceStep::End,
    }
}
