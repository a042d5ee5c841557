//! Follows the tokens of a source, and finds out which of them are in macro calls.

ghost use Rattle.std.specs.Prelude.{◌≡◌, IfSome, IsTrue, slice_range};
ghost use Rattle.rl_scan.specs.Accepted.{IsInCallAt};

use rl_lexer::{SourceToken, Sources};
use rl_style::{Calls, advance_calls, is_in_call};
use std::marker::Model;

/// A second reader of a source, which says what is in macro calls. It only moves if a finding depends on that.
#[derive(Drop)]
pub(crate) struct Follower<'t> {
    source: &'t str,
    tokens: Sources<'t>,
    calls: Calls<'t>,
}

impl<'t> Model for Follower<'t> {
    ghost use Rattle.std.specs.Prelude.{List, ℕ};
    ghost use Rattle.rl_style.specs.Calls.{calls_seen};
    ghost use Rattle.rl_scan.specs.Accepted.{HasFollowed};

    ghost Value = { List ℕ };

    ghost view = { λ f. f.source.now };

    ghost invariant = { λ f. HasFollowed f.source.now f.tokens (calls_seen f.calls) };
}

impl<'t> Follower<'t> {
    /// Creates a reader at the start of a source.
    pub(crate) fn new(source: &'t str) -> Follower<'t>
        ensures { result ≡ source.now }
    {
        Follower {
            source,
            tokens: Sources::new(source),
            calls: Calls::Outside,
        }
    }

    /// Returns the text before the byte offset `lo`.
    pub(crate) fn text_before(&self, lo: usize) -> Option<&'t str>
        ensures { IfSome result (λ before. before.now ≡ slice_range self.now 0 lo) }
    {
        self.source.get(..lo)
    }

    /// Returns the next token, and whether it is in a macro call.
    #[inline(always)]
    fn next(&mut self) -> Option<(SourceToken<'t>, bool)>
        ensures inside { IfSome result (λ p. IsTrue p.1 → IsInCallAt self.old p.0.lo) }
        ensures same { self.new ≡ self.old }
    {
        let Some(token) = self.tokens.next() else {
            return None;
        };
        let is_inside = is_in_call(self.calls);
        self.calls = advance_calls(self.calls, token);
        Some((token, is_inside))
    }

    /// Whether the token at the byte offset `lo` is in a macro call. The offsets of later calls are greater.
    pub(crate) fn is_in_call_at(&mut self, lo: usize) -> bool
        ensures inside { IsTrue result → IsInCallAt self.old lo }
        ensures same { self.new ≡ self.old }
    {
        for _ in 0..u64::MAX {
            let Some((token, is_inside)) = self.next() else {
                return false;
            };
            if token.lo >= lo {
                return token.lo == lo && is_inside;
            }
        }
        false
    }
}
