//! Reads the next entry of a configuration, or the error at its position.

ghost use Rattle.std.specs.Prelude.{◌≡◌, ◌⊎◌, ◌<◌, ◌≤◌, IsTrue, length, IfOk, IfErr, IfSome, IfNone, OnOk, MatchBool};
ghost use Rattle.rl_syntax.specs.Texts.{IsTail, code};
ghost use Rattle.rl_cursors.specs.SettingSteps.{TakesMark, HasNo};
ghost use Rattle.rl_cursors.specs.EntrySteps.{
  IsDotForm,
  IsCommaForm,
  JoinsName,
  TakesDottedName,
  has_line_end,
  TakesSeparator,
  SetsEntry,
  TakesEntry,
  LacksJoin,
  LacksPart,
  LacksDottedName,
  LacksSeparator,
  LacksEntryValue,
  RejectsNextEntry,
  StepsEntries,
};

use crate::next_literals::NextLiteral;
use crate::settings::{is_mark, missed, take_literal, take_mark, take_name};
use crate::syntax_error::{Part, SyntaxError};
use rl_lexer::{Lexeme, Tokens};

/// The name of a configuration entry: an identifier, or several identifiers with dots between them, as `server.port`. Neither
/// white space nor a comment is next to a dot.
#[derive(Clone, Copy)]
pub struct DottedName<'t> {
    /// The text of the name, a slice of the input text.
    pub text: &'t str,
    /// The byte offset in the input text where the name begins.
    pub lo: usize,
    /// The byte offset in the input text after the name.
    pub hi: usize,
}

/// An entry that was consumed from a configuration: a name, `=` and a literal.
#[derive(Clone, Copy)]
pub struct NextEntry<'t> {
    /// The name of the entry.
    pub name: DottedName<'t>,
    /// The literal after the `=` of the entry.
    pub value: NextLiteral<'t>,
}

/// The error at a position where an entry of a configuration was expected.
#[derive(Clone, Copy)]
pub struct EntryRejection<'t> {
    /// The name before the error, if there is one. A caller checks first whether this name is repeated, since the error is
    /// after it.
    pub name: Option<DottedName<'t>>,
    /// The kind of error, and its range.
    pub error: SyntaxError,
}

/// The result of reading one entry of a configuration.
#[derive(Clone, Copy)]
pub enum EntryStep<'t> {
    /// The end of the configuration.
    End,
    /// An entry, which is consumed together with the comma after it, if there is one.
    Entry(NextEntry<'t>),
    /// An error at the position of an entry. Nothing is consumed.
    Rejected(EntryRejection<'t>),
}

/// Consumes a dot and an identifier that continue a name, which ends at the byte offset `hi`. `end` is the length of the input
/// text.
///
/// Returns `None` if the next token isn't a dot.
#[inline(always)]
fn take_part<'t>(
    tokens: &mut Tokens<'t>,
    end: usize,
    hi: usize,
) -> Result<Option<Lexeme<'t>>, SyntaxError>
    requires { end ≡ length tokens.old.text }
    ensures joins { IfOk result (λ part. IfSome part (λ part. JoinsName hi tokens.old part tokens.new)) }
    ensures shorter { IfOk result (λ part. IfSome part (λ part. length tokens.new.rest < length tokens.old.rest)) }
    ensures none { IfOk result (λ part. IfNone part (HasNo IsDotForm tokens.old)) }
    ensures stays { IfOk result (λ part. IfNone part (tokens.new ≡ tokens.old)) }
    ensures missed { IfErr result (λ e. LacksJoin hi tokens.old e ⊎ LacksPart hi tokens.old e) }
{
    let mut ahead = tokens.fork();
    let Some(dot) = ahead.next() else {
        return Ok(None);
    };
    if !is_mark(dot.form, '.') {
        return Ok(None);
    }
    if dot.lo != hi {
        return Err(missed(tokens, end, Part::Name));
    }
    let part = take_name(&mut ahead, end)?;
    if part.lo != dot.hi {
        return Err(missed(tokens, end, Part::Name));
    }
    *tokens = ahead;
    Ok(Some(part))
}

/// Consumes the next name: an identifier, and each dot and identifier after it. `end` is the length of the input text.
fn take_dotted_name<'t>(tokens: &mut Tokens<'t>, end: usize) -> Result<DottedName<'t>, SyntaxError>
    requires { end ≡ length tokens.old.text }
    ensures taken { IfOk result (λ name. TakesDottedName tokens.old name tokens.new) }
    ensures shorter { OnOk result (length tokens.new.rest < length tokens.old.rest) }
    ensures missed { IfErr result (LacksDottedName tokens.old) }
{
    let rest = tokens.rest();
    let first = take_name(tokens, end)?;
    let mut hi = first.hi;
    while let Some(part) = take_part(tokens, end, hi)? {
        hi = part.hi;
    }
    Ok(DottedName {
        text: &rest[..hi - first.lo],
        lo: first.lo,
        hi,
    })
}

/// Whether the text contains an LF between the byte offset `lo` and the next token of `tokens`.
fn has_line_end(text: &str, lo: usize, tokens: &Tokens<'_>) -> bool
    requires text { text.now ≡ tokens.now.text }
    requires fits { length tokens.now.rest ≤ length tokens.now.text }
    ensures { result ≡ has_line_end lo tokens.now }
{
    let start = text.len() - tokens.rest().len();
    match text.as_bytes()[..start].get(lo..) {
        Some(between) => between.contains(&b'\n'),
        None => false,
    }
}

/// Consumes the next token if it is a comma, and returns whether it is one.
#[inline(always)]
fn pass_comma(tokens: &mut Tokens<'_>) -> bool
    ensures passed { MatchBool result (TakesMark (code ",") tokens.old tokens.new)
        (HasNo IsCommaForm tokens.old) }
    ensures stays { IsTrue result ⊎ (tokens.new ≡ tokens.old) }
    ensures no_longer { length tokens.new.rest ≤ length tokens.old.rest }
{
    let mut ahead = tokens.fork();
    let Some(token) = ahead.next() else {
        return false;
    };
    if !is_mark(token.form, ',') {
        return false;
    }
    *tokens = ahead;
    true
}

/// Consumes the comma after a value, which ends at the byte offset `hi`. The comma may be missing at the end of `text`, or at
/// the end of the value's line.
#[inline(always)]
fn take_separator(tokens: &mut Tokens<'_>, text: &str, hi: usize) -> Result<(), SyntaxError>
    requires text { text.now ≡ tokens.old.text }
    requires fits { length tokens.old.rest ≤ length tokens.old.text }
    ensures taken { OnOk result (TakesSeparator hi tokens.old tokens.new) }
    ensures no_longer { OnOk result (length tokens.new.rest ≤ length tokens.old.rest) }
    ensures missed { IfErr result (LacksSeparator hi tokens.old) }
{
    if pass_comma(tokens) {
        return Ok(());
    }
    if tokens.rest().is_empty() {
        return Ok(());
    }
    if has_line_end(text, hi, tokens) {
        return Ok(());
    }
    Err(missed(tokens, text.len(), Part::Comma))
}

/// Consumes the part of an entry after its name: `=`, a literal, and a comma, unless the line or the text ends after the
/// literal.
#[inline(always)]
fn take_entry_value<'t>(tokens: &mut Tokens<'t>, text: &str) -> Result<NextLiteral<'t>, SyntaxError>
    requires { text.now ≡ tokens.old.text }
    ensures taken { IfOk result (λ value. SetsEntry tokens.old value tokens.new) }
    ensures shorter { OnOk result (length tokens.new.rest < length tokens.old.rest) }
    ensures missed { IfErr result (LacksEntryValue tokens.old) }
{
    take_mark(tokens, text.len(), '=', Part::Equals)?;
    let value = take_literal(tokens, text.len())?;
    take_separator(tokens, text, value.token.hi)?;
    Ok(value)
}

/// Consumes the next entry of a configuration. On an error, `tokens` may have advanced.
#[inline(always)]
fn take_entry<'t>(tokens: &mut Tokens<'t>, text: &str) -> Result<NextEntry<'t>, EntryRejection<'t>>
    requires { text.now ≡ tokens.old.text }
    ensures taken { IfOk result (λ entry. TakesEntry tokens.old entry tokens.new) }
    ensures shorter { OnOk result (length tokens.new.rest < length tokens.old.rest) }
    ensures rejected { IfErr result (RejectsNextEntry tokens.old) }
{
    let name = match take_dotted_name(tokens, text.len()) {
        Ok(name) => name,
        Err(error) => return Err(EntryRejection { name: None, error }),
    };
    match take_entry_value(tokens, text) {
        Ok(value) => Ok(NextEntry { name, value }),
        Err(error) => {
            let name = Some(name);
            Err(EntryRejection { name, error })
        }
    }
}

/// Consumes the next entry of a configuration, or returns the error at its position. `text` is the whole configuration.
///
/// An entry is a name, `=` and a literal, which may begin with a minus. A comma, a line end or the text's end follows the
/// literal. The line ends if an LF is between the literal and the next token, even inside a comment.
///
/// On an error nothing is consumed. The error is the first missing part of the entry, or the lexer's error at this position. If
/// a group is in the part's place, the error's range is the whole group. A dot that doesn't touch an identifier on both sides
/// is an error for the missing name. Nothing is allocated, so the caller checks for repeated names.
///
/// If [`first_error`](crate::first_error) returns `None` for the text, each group is closed. A caller removes a byte order mark
/// at the text's start with [`rl_lexer::without_byte_order_mark`].
pub fn next_config_entry<'t>(tokens: &mut Tokens<'t>, text: &str) -> EntryStep<'t>
    requires { text.now ≡ tokens.old.text }
    ensures { StepsEntries tokens.old result tokens.new }
{
    if tokens.rest().is_empty() {
        return EntryStep::End;
    }
    let mut ahead = tokens.fork();
    match take_entry(&mut ahead, text) {
        Ok(entry) => {
            *tokens = ahead;
            EntryStep::Entry(entry)
        }
        Err(rejection) => EntryStep::Rejected(rejection),
    }
}
