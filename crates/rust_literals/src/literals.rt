//! An iterator over the literals of a text.

ghost use Rattle.std.proofs.Props.{props};
ghost use Rattle.std.specs.Prelude.{◌≤◌, ◌+◌, length};

use crate::flat::take_next;
use crate::lit::Lit;
use crate::read::read_after;
use rl_tokens::{Error, Tokens};
use std::alloc::{Allocator, Global};
use std::vec::IntoIter;

/// An iterator over the literals of a text, which may contain only literals, white space and plain comments. The
/// iterator returns the literals that [`read_all`](crate::read_all) returns, without a list of them in memory.
///
/// It is proved that a loop `while let Some(literal) = literals.next()?` ends: each literal lowers the number `left_of`
/// (`Iterating.antt`).
///
/// # Example
///
/// ```
/// use rust_literals::{Lit, Literals};
/// use std::alloc::Global;
///
/// pub fn second_string(alloc: Global, text: &str) -> Option<String> {
///     let mut literals = Literals::new(alloc, text, 0);
///     literals.next().ok()?;
///     match literals.next().ok()?? {
///         Lit::Str(literal) => literal.value(alloc).ok(),
///         _ => None,
///     }
/// }
/// // second_string(alloc, "1 \"a\" 'b'") == Some("a")
/// ```
#[derive(Drop)]
pub struct Literals<'t, A: Allocator = Global> {
    alloc: A,
    text: &'t str,
    file: u32,
    tokens: Tokens<'t>,
    // The number of literals that were read token by token so far.
    count: usize,
    // The literals that the iterator still has to return, if the whole text was lexed into token trees. The whole text
    // is lexed after an allocation failed, or if the next tokens aren't a literal.
    waiting: Option<IntoIter<Lit<A>, A>>,
    ghost room: { count + length tokens.rest ≤ length text.now } by { Prim.hlevel props },
}

impl<'t, A: Allocator + Copy> Literals<'t, A> {
    ghost use Rattle.std.specs.Prelude.{◌≡◌, ◌<◌, ℕ, List, [], None, IfOk, OnSome};
    ghost use Rattle.rust_literals.specs.declared.lit.Lit.{Lit};
    ghost use Rattle.rust_literals.specs.Iterating.{HasReturned, ReturnsNext, left_of};

    /// Creates an iterator over the literals of `text`, from its start. The spans of the literals are `file` and byte
    /// ranges of the text.
    pub fn new(alloc: A, text: &'t str, file: u32) -> Literals<'t, A>
        // The new iterator hasn't returned any literal.
        ensures { HasReturned text.now file [] result }
    {
        Literals {
            alloc,
            text,
            file,
            tokens: Tokens::new(text),
            count: 0,
            waiting: None,
        }
    }

    /// Lexes the whole text into token trees, and returns the first literal after those that the iterator has returned.
    /// The iterator keeps the literals after that one.
    fn take_waiting(&mut self) -> Result<Option<Lit<A>>, Error<A>>
        ensures returns { self.old.waiting ≡ None → (text : List ℕ) (file : ℕ) (taken : List (Lit A))
            → HasReturned text file taken self.old → ReturnsNext text file taken result self.new }
        ensures shorter { self.old.waiting ≡ None → IfOk result (λ found.
            OnSome found (left_of self.new < left_of self.old)) }
    {
        let mut waiting = read_after(self.alloc, self.text, self.file, self.count)?.into_iter();
        let first = waiting.next();
        self.waiting = Some(waiting);
        Ok(first)
    }

    /// Reads the next literal token by token and returns it. If the next tokens aren't a literal, or if an allocation
    /// fails, the whole text is lexed into token trees instead.
    fn lex_next(&mut self) -> Result<Option<Lit<A>>, Error<A>>
        ensures returns { self.old.waiting ≡ None → (text : List ℕ) (file : ℕ) (taken : List (Lit A))
            → HasReturned text file taken self.old → ReturnsNext text file taken result self.new }
        ensures shorter { self.old.waiting ≡ None → IfOk result (λ found.
            OnSome found (left_of self.new < left_of self.old)) }
    {
        if self.tokens.rest().is_empty() {
            return Ok(None);
        }
        let mut ahead = self.tokens.fork();
        match take_next(self.alloc, &mut ahead, self.file) {
            Ok(Some(literal)) => {
                self.tokens = ahead;
                self.count += 1;
                Ok(Some(literal))
            }
            _ => self.take_waiting(),
        }
    }

    /// Returns the next literal of the text, or `None` after the last one.
    ///
    /// # Errors
    ///
    /// Returns the error of [`read_all`](crate::read_all) for the text, after all literals before the error. The next
    /// call returns the error again.
    pub fn next(&mut self) -> Result<Option<Lit<A>>, Error<A>>
        // The result is the literal after the returned literals, or `None` if the text contains no more literals, or
        // the text's error.
        ensures returns { (text : List ℕ) (file : ℕ) (taken : List (Lit A)) → HasReturned text file taken self.old
            → ReturnsNext text file taken result self.new }
        // Each returned literal lowers the number `left_of`, so a loop over the literals ends.
        ensures shorter { IfOk result (λ found. OnSome found (left_of self.new < left_of self.old)) }
    {
        match &mut self.waiting {
            Some(waiting) => Ok(waiting.next()),
            None => self.lex_next(),
        }
    }
}
