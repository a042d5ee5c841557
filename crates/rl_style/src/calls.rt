//! Finds out whether a token is inside a macro call, a `macro_rules!` definition or an attribute.

ghost use Rattle.std.specs.Prelude.{◌≡◌};
ghost use Rattle.rl_lexer.specs.Cursors.{form_view};
ghost use Rattle.rl_lexer.specs.Sources.{PlainKind, source_view};
ghost use Rattle.rl_style.specs.Calls.{after_closer, after_bracket, after_mark, after_opener, after_any_other, after_word, advance_calls, calls_seen, deeper, is_in_call, is_keyword};

use rl_lexer::{Form, SourceForm, SourceToken};

/// The position of the next token relative to macro calls. A macro's definition and an attribute count as calls.
#[derive(Clone, Copy)]
pub enum Calls<'t> {
    /// The next token is outside of macro calls.
    Outside,
    /// The next token follows the given identifier, which may be a macro's name.
    AfterWord(&'t str),
    /// The next token follows a macro's name and `!`, and perhaps identifiers after them, as in `macro_rules! m`.
    AfterBang,
    /// The next token follows `#`, or `#!`.
    AfterHash,
    /// The next token is inside a macro call, nested in the given number of brackets.
    Inside(usize),
}

/// Whether the identifier is a keyword in all editions of Rust. No macro has this name, so `!` after it is an operator or the
/// never type.
#[inline(never)]
fn is_keyword(word: &str) -> bool
    ensures { result ≡ is_keyword word.now }
{
    matches!(
        word,
        "as" | "break"
            | "const"
            | "continue"
            | "crate"
            | "else"
            | "enum"
            | "extern"
            | "false"
            | "fn"
            | "for"
            | "if"
            | "impl"
            | "in"
            | "let"
            | "loop"
            | "match"
            | "mod"
            | "move"
            | "mut"
            | "pub"
            | "ref"
            | "return"
            | "self"
            | "Self"
            | "static"
            | "struct"
            | "super"
            | "trait"
            | "true"
            | "type"
            | "unsafe"
            | "use"
            | "where"
            | "while"
    )
}

/// Returns `depth + 1`. If `depth` is the greatest `usize`, the result is `depth`.
fn deeper(depth: usize) -> usize
    ensures { result ≡ deeper depth }
{
    if depth < usize::MAX { depth + 1 } else { depth }
}

/// Returns the position relative to macro calls, after the identifier `word`.
#[inline(always)]
fn after_word<'t>(calls: Calls<'t>, word: &'t str) -> Calls<'t>
    ensures { calls_seen result ≡ after_word (calls_seen calls.entry) word.now }
{
    match calls {
        Calls::AfterBang | Calls::Inside(_) => calls,
        _ => Calls::AfterWord(word),
    }
}

/// Returns the position relative to macro calls, after the punctuation character `mark`.
#[inline(always)]
fn after_mark(calls: Calls<'_>, mark: char) -> Calls<'_>
    ensures { calls_seen result ≡ after_mark (calls_seen calls.entry) mark }
{
    match calls {
        Calls::Inside(_) => calls,
        Calls::AfterHash if mark == '!' => calls,
        Calls::AfterWord(word) if mark == '!' && !is_keyword(word) => Calls::AfterBang,
        _ if mark == '#' => Calls::AfterHash,
        _ => Calls::Outside,
    }
}

/// Returns the position relative to macro calls, after the opening bracket `bracket`.
fn after_opener(calls: Calls<'_>, bracket: char) -> Calls<'_>
    ensures { calls_seen result ≡ after_opener (calls_seen calls.entry) bracket }
{
    match calls {
        Calls::Inside(depth) => Calls::Inside(deeper(depth)),
        Calls::AfterBang => Calls::Inside(1),
        Calls::AfterHash if bracket == '[' => Calls::Inside(1),
        _ => Calls::Outside,
    }
}

/// Returns the position relative to macro calls, after a closing bracket.
fn after_closer(calls: Calls<'_>) -> Calls<'_>
    ensures { calls_seen result ≡ after_closer (calls_seen calls.entry) }
{
    match calls {
        Calls::Inside(depth) if depth > 1 => Calls::Inside(depth - 1),
        _ => Calls::Outside,
    }
}

/// Returns the position relative to macro calls, after the opening or closing bracket `bracket`.
#[inline(always)]
fn after_bracket(calls: Calls<'_>, bracket: char) -> Calls<'_>
    ensures { calls_seen result ≡ after_bracket (calls_seen calls.entry) bracket }
{
    if matches!(bracket, '(' | '[' | '{') {
        return after_opener(calls, bracket);
    }
    after_closer(calls)
}

/// Returns the position relative to macro calls, after a token that isn't an identifier, a punctuation character or a bracket.
#[inline(always)]
fn after_any_other(calls: Calls<'_>) -> Calls<'_>
    ensures { calls_seen result ≡ after_any_other (calls_seen calls.entry) }
{
    match calls {
        Calls::Inside(_) => calls,
        _ => Calls::Outside,
    }
}

/// Returns the position relative to macro calls, after a token of the lexer with the given form and text.
#[inline(always)]
fn after_lexeme<'t>(calls: Calls<'t>, form: Form, text: &'t str) -> Calls<'t>
    ensures { calls_seen result ≡ advance_calls (calls_seen calls.entry) (PlainKind (form_view form)) text.now }
{
    match form {
        Form::Identifier => after_word(calls, text),
        Form::Delimiter(bracket) => after_bracket(calls, bracket),
        Form::Mark(mark) => after_mark(calls, mark),
        Form::Literal => after_any_other(calls),
    }
}

/// Returns the position relative to macro calls, after one more token of a source.
#[inline(always)]
pub fn advance_calls<'t>(calls: Calls<'t>, token: SourceToken<'t>) -> Calls<'t>
    ensures { calls_seen result ≡ advance_calls (calls_seen calls.entry) (source_view token.entry.form) token.entry.text.now }
{
    match token.form {
        SourceForm::Token(form) => after_lexeme(calls, form, token.text),
        SourceForm::RawIdentifier => after_word(calls, token.text),
        _ => after_any_other(calls),
    }
}

/// Returns `true` if the next token is inside a macro call.
#[inline(always)]
pub fn is_in_call(calls: Calls<'_>) -> bool
    ensures { result ≡ is_in_call (calls_seen calls.entry) }
{
    matches!(calls, Calls::Inside(_))
}
