//! Functions that return the next literal of a list of literals, or the list's error.

ghost use Rattle.std.specs.Prelude.{◌≡◌, ◌≢◌, ◌<◌, [], None, length, IfSome, IfNone};
ghost use Rattle.rl_lexer.specs.Cursors.{form_view};
ghost use Rattle.rl_cursors.specs.declared.next_literals.NextLiteral.{NextLiteral};
ghost use Rattle.rl_cursors.specs.declared.next_literals.ListStep.TheVariants.{Literal};
ghost use Rattle.rl_cursors.specs.NextLiterals.{TakesNextLiteral, HasNoNextLiteral, IsReadLiteral, token_rejection, RejectsNext, StepsList};

use rl_lenient::found::parse_bool_literal;
use rl_lenient::{Found, parse_literal, parse_with_added_minus};
use rl_lexer::{Form, LexKind, Lexeme, Tokens};

/// The next literal of a list: its token, the minus before it, and its parse result. The token may be an invalid
/// literal, which has no parse result.
#[derive(Clone, Copy)]
pub struct NextLiteral<'t> {
    /// The literal's token, without the minus before it.
    pub token: Lexeme<'t>,
    /// The byte offset of the minus before a number, or `None` without a minus.
    pub minus_at: Option<usize>,
    /// The literal's parse result, or `None` if the token is an invalid literal.
    ///
    /// With a minus, the byte offsets in the result count from the minus, as if it were directly before the number.
    pub found: Option<Found>,
}

/// The reason why a list doesn't continue with a literal.
#[derive(Clone, Copy, PartialEq, Eq, Debug)]
pub enum RejectionKind {
    /// An error of the lexer: no token begins at this position.
    Lex(LexKind),
    /// The next token is an opening delimiter. A list of literals contains no groups.
    Group,
    /// The next token is a closing delimiter, although no group is open.
    UnmatchedClose,
    /// The next token is an identifier or a punctuation character that doesn't begin a literal, as `a` or `+`.
    NotALiteral,
}

/// An error of a list where a literal was expected: its kind, and its byte offset.
#[derive(Clone, Copy, PartialEq, Eq, Debug)]
pub struct Rejection {
    /// The kind of the error.
    pub kind: RejectionKind,
    /// The byte offset of the error in the whole text.
    pub at: usize,
}

/// The result of [`next_list_literal`], which advances over a list of literals by one literal.
#[derive(Clone, Copy)]
pub enum ListStep<'t> {
    /// The end of the list.
    End,
    /// The next literal, which was consumed.
    Literal(NextLiteral<'t>),
    /// An error of the list. No token was consumed.
    Rejected(Rejection),
}

/// Creates a literal without a minus, from its token and its parse result.
#[inline(always)]
fn alone<'t>(token: Lexeme<'t>, found: Option<Found>) -> NextLiteral<'t>
    ensures { result ≡ record { token = token.entry; minus_at = None; found = found } }
{
    NextLiteral {
        token,
        minus_at: None,
        found,
    }
}

/// Consumes the next literal of a list, which is one or two tokens, and returns it. If another token or the end
/// follows, the result is `None`, and up to two tokens may be consumed nevertheless.
#[inline(always)]
fn take_literal<'t>(tokens: &mut Tokens<'t>) -> Option<NextLiteral<'t>>
    ensures next { IfSome result (λ l. TakesNextLiteral tokens.old l tokens.new) }
    ensures shorter { IfSome result (λ l. length tokens.new.rest < length tokens.old.rest) }
    ensures none { IfNone result (HasNoNextLiteral tokens.old) }
{
    let token = tokens.next()?;
    match token.form {
        Form::Literal => Some(alone(token, parse_literal(token.text))),
        Form::Identifier => {
            let found = parse_bool_literal(token.text)?;
            Some(alone(token, Some(found)))
        }
        Form::Mark('-') => {
            let number = tokens.next()?;
            let Form::Literal = number.form else {
                return None;
            };
            let found = parse_with_added_minus(number.text)?;
            Some(NextLiteral {
                token: number,
                minus_at: Some(token.lo),
                found: Some(found),
            })
        }
        _ => None,
    }
}

/// Consumes the next literal of a list and returns it. A literal is a literal token, valid or not; `true` or `false`;
/// or a minus and a number that are parsed together.
///
/// Returns `None` if another token or the end follows. No token is consumed then.
#[inline(always)]
pub fn next_literal<'t>(tokens: &mut Tokens<'t>) -> Option<NextLiteral<'t>>
    ensures next { IfSome result (λ l. TakesNextLiteral tokens.old l tokens.new) }
    ensures shorter { IfSome result (λ l. length tokens.new.rest < length tokens.old.rest) }
    ensures read { IfSome result IsReadLiteral }
    ensures none { IfNone result (HasNoNextLiteral tokens.old) }
    ensures stays { IfNone result (tokens.new ≡ tokens.old) }
{
    let mut ahead = tokens.fork();
    let literal = take_literal(&mut ahead)?;
    *tokens = ahead;
    Some(literal)
}

/// Returns the reason why a token of the form `form` doesn't begin a literal.
fn token_rejection(form: Form) -> RejectionKind
    ensures { result ≡ token_rejection (form_view form) }
{
    match form {
        Form::Delimiter('(' | '[' | '{') => RejectionKind::Group,
        Form::Delimiter(_) => RejectionKind::UnmatchedClose,
        _ => RejectionKind::NotALiteral,
    }
}

/// Returns the error of a list at the cursor's position, where neither a literal nor the end of the text follows.
#[inline(never)]
fn rejection_at(tokens: &Tokens<'_>) -> Rejection
    requires { tokens.now.rest ≢ [] }
    ensures { RejectsNext tokens.now result }
{
    if let Some(error) = tokens.error() {
        return Rejection {
            kind: RejectionKind::Lex(error.kind),
            at: error.at,
        };
    }
    match tokens.fork().next() {
        Some(token) => Rejection {
            kind: token_rejection(token.form),
            at: token.lo,
        },
        None => unreachable!(),
    }
}

/// Consumes the next literal of a list as [`next_literal`] does, and returns it. If another token, an error or the end
/// of the list follows, consumes nothing, and returns the list's error or end. Nothing is allocated.
#[inline(always)]
pub fn next_list_literal<'t>(tokens: &mut Tokens<'t>) -> ListStep<'t>
    ensures steps { StepsList tokens.old result tokens.new }
    ensures shorter { (literal : NextLiteral) → result ≡ Literal literal
        → length tokens.new.rest < length tokens.old.rest }
{
    if tokens.rest().is_empty() {
        return ListStep::End;
    }
    match next_literal(tokens) {
        Some(literal) => ListStep::Literal(literal),
        None => ListStep::Rejected(rejection_at(tokens)),
    }
}
