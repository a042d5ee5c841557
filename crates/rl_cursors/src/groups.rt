//! Checks that each group of a text (parentheses, brackets or braces) is closed by its own delimiter, and how deep they nest.

ghost use Rattle.std.specs.Prelude.{◌≡◌, ◌≤◌, ◌<◌, ◌∷◌, [], length, Some, IfSome, IfNone, MatchOption, MatchBool};
ghost use Rattle.std.specs.Str.{chars};
ghost use Rattle.rl_lexer.specs.Cursors.{form_view};
ghost use Rattle.rl_lexer.specs.Cuts.{is_pair, closes, popped, after_form, EndsInGroup, HasFirstError};
ghost use Rattle.rl_cursors.specs.WholeCuts.{IsCutWhole};

use rl_lexer::{Form, LexError, LexKind, Tokens, is_opener};

/// The maximum number of nested groups.
const MAX_OPEN: usize = 128;

/// A group that is open: its opening delimiter and its position.
#[derive(Clone, Copy)]
struct Opened {
    /// The opening delimiter of the group: `(`, `[` or `{`.
    opener: char,
    /// The byte offset of the group's opening delimiter.
    at: usize,
}

/// The groups that are open, innermost first. They are the last elements of the array, from the index `start` on.
#[derive(Drop)]
struct Groups {
    groups: [Opened; MAX_OPEN],
    start: usize,
    ghost within: { start ≤ 128 },
}

/// Whether the delimiter `closer` closes a group that `opener` opens.
fn is_pair(opener: char, closer: char) -> bool
    ensures { result ≡ is_pair opener closer }
{
    match opener {
        '(' => closer == ')',
        '[' => closer == ']',
        '{' => closer == '}',
        _ => false,
    }
}

impl Groups {
    ghost use Rattle.rl_cursors.specs.Groups.{open_in, StopsForm, IsInnermost};

    /// Creates the state without open groups.
    fn new() -> Groups
        ensures { open_in result ≡ [] }
    {
        Groups {
            groups: [Opened { opener: '(', at: 0 }; MAX_OPEN],
            start: MAX_OPEN,
        }
    }

    /// Returns the innermost open group, or `None` if no group is open.
    fn innermost(&self) -> Option<Opened>
        ensures { IsInnermost (open_in self.now) result }
    {
        if self.start >= MAX_OPEN {
            return None;
        }
        Some(self.groups[self.start])
    }

    /// Opens a group inside the open ones. Returns `false`, and opens no group, if 128 groups are open already.
    fn open_group(&mut self, opener: char, at: usize) -> bool
        ensures { MatchBool result
            ((length (open_in self.old) < 128)
            × (open_in self.new ≡ record { opener = opener; at = at } ∷ open_in self.old))
            (length (open_in self.old) ≡ 128) }
    {
        if self.start == 0 {
            return false;
        }
        self.start -= 1;
        self.groups[self.start] = Opened { opener, at };
        true
    }

    /// Closes the innermost open group if `closer` is its closing delimiter. Returns whether the group was closed.
    fn close_group(&mut self, closer: char) -> bool
        ensures closes { result ≡ closes (open_in self.old) closer }
        ensures popped { MatchBool result (open_in self.new ≡ popped (open_in self.old)) (self.new ≡ self.old) }
    {
        if self.start >= MAX_OPEN {
            return false;
        }
        if !is_pair(self.groups[self.start].opener, closer) {
            return false;
        }
        self.start += 1;
        true
    }

    /// Updates the open groups for a token of the form `form` at the byte offset `at`. Returns the kind of error if the token
    /// is a delimiter that the open groups don't allow.
    fn pass(&mut self, form: Form, at: usize) -> Option<LexKind>
        ensures passed { IfNone result
            (after_form (open_in self.old) (form_view form) at ≡ Some (open_in self.new)) }
        ensures rejected { IfSome result (StopsForm (open_in self.old) (form_view form)) }
    {
        let Form::Delimiter(c) = form else {
            return None;
        };
        if is_opener(c) {
            if self.open_group(c, at) {
                None
            } else {
                Some(LexKind::TooDeep)
            }
        } else if self.close_group(c) {
            None
        } else {
            Some(LexKind::UnmatchedClose)
        }
    }

    /// Returns the error for a text that ends while a group is open, or `None` if no group is open.
    fn error_at_end(&self) -> Option<LexError>
        ensures { MatchOption result (open_in self.now ≡ []) (EndsInGroup (open_in self.now)) }
    {
        match self.innermost() {
            Some(group) => Some(LexError::new(LexKind::UnclosedGroup, group.at)),
            None => None,
        }
    }
}

/// Returns the first error of a text's tokens and groups, or `None` if the text has none.
///
/// The possible errors are the lexer's errors, a group with a wrong closing delimiter, and a group inside 128 others. If the
/// text has none of these errors, and groups are open at its end, the error is the innermost open group. `lex` of `rl_tokens`
/// returns this error too. Nothing is allocated.
pub fn first_error(text: &str) -> Option<LexError>
    ensures error { IfSome result (λ e. HasFirstError (chars text.now) e.kind e.at) }
    ensures whole { IfNone result (IsCutWhole (chars text.now)) }
{
    let mut tokens = Tokens::new(text);
    let mut groups = Groups::new();
    while let Some(token) = tokens.next() {
        if let Some(kind) = groups.pass(token.form, token.lo) {
            return Some(LexError::new(kind, token.lo));
        }
    }
    match tokens.error() {
        Some(error) => Some(error),
        None => groups.error_at_end(),
    }
}
