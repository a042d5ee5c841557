//! The literals of a list, one by one, up to the first error.

ghost use Rattle.std.specs.Prelude.{◌≡◌, ℕ, List, IsTrue, IsFalse, false};
ghost use Rattle.std.specs.Str.{chars};
ghost use Rattle.rl_syntax.specs.Printed.{Entry, Printed};
ghost use Rattle.rl_lexer.specs.Skipping.{Skipped};
ghost use Rattle.rl_cursors.specs.declared.next_literals.ListStep.TheVariants.{End};
ghost use Rattle.rl_cursors.specs.NextLiterals.{StepsList};
ghost use Rattle.rl_cursors.specs.Lists.{is_rejected, ItemsLeft, TakesItem};

use crate::next_literals::{ListStep, next_list_literal};
use rl_lexer::Tokens;
use std::marker::Model;

/// A cursor over the literals of a list. It never allocates.
#[derive(Drop)]
pub struct ListLiterals<'t> {
    tokens: Tokens<'t>,
    is_done: bool,
}

impl<'t> Model for ListLiterals<'t> {
    ghost use Rattle.rl_cursors.specs.Lists.{ListState};

    ghost Value = { ListState };

    ghost view = { λ l. record { cursor = l.tokens; is_done = l.is_done } };
}

impl<'t> ListLiterals<'t> {
    /// Creates the cursor at the start of a text.
    pub fn new(text: &'t str) -> ListLiterals<'t>
        ensures text { result.cursor.text ≡ text.now }
        ensures skipped { Skipped (chars text.now) (chars result.cursor.rest) }
        ensures going { IsFalse result.is_done }
        // If the text is a printed list of literals, all its items are left.
        ensures left { (entries : List Entry) (last : List ℕ) → Printed (chars text.now) entries last
            → ItemsLeft 0 entries result }
    {
        ListLiterals {
            tokens: Tokens::new(text),
            is_done: false,
        }
    }

    /// Returns the next literal, which is consumed, or the error of the list, or its end.
    ///
    /// After an error, all further results are [`ListStep::End`].
    #[inline(always)]
    pub fn next(&mut self) -> ListStep<'t>
        ensures steps { IsFalse self.old.is_done → StepsList self.old.cursor result self.new.cursor }
        ensures rejected { IsFalse self.old.is_done → self.new.is_done ≡ is_rejected result }
        ensures done { IsTrue self.old.is_done → result ≡ End }
        ensures stays { IsTrue self.old.is_done → self.new ≡ self.old }
        // If items of a printed list are left, the step takes the first of them. If none is left, the step is the end.
        ensures item { (at : ℕ) (entries : List Entry) → ItemsLeft at entries self.old
            → TakesItem at entries result self.new }
    {
        if self.is_done {
            return ListStep::End;
        }
        let step = next_list_literal(&mut self.tokens);
        if let ListStep::Rejected(_) = step {
            self.is_done = true;
        }
        step
    }

    /// Returns a copy of the cursor. The two cursors advance independently.
    pub fn fork(&self) -> ListLiterals<'t>
        ensures { result ≡ self.now }
    {
        ListLiterals {
            tokens: self.tokens.fork(),
            is_done: self.is_done,
        }
    }

    /// Returns the rest of the text, which begins with the next literal, or with the list's error.
    pub fn rest(&self) -> &'t str
        ensures { result.now ≡ self.now.cursor.rest }
    {
        self.tokens.rest()
    }
}
