//! Theorems about the definitions. Each function here does nothing: its contract states the theorem.

ghost use Rattle.rl_flaws.specs.Laws.{ATextBeginsAsOneKind, ATokenBeginsAsItsKind, TheFirstFlawExplainsTheText, ATokenHasNoFlaw, TheRestHasOneNextFlaw, ALiteralHasOneTypeError, AnErrorExcludesAType};

/// A text begins as at most one kind of literal. So [`guess_kind`](crate::guess_kind) returns the only possible kind.
pub fn a_text_begins_as_one_kind()
    ensures { ATextBeginsAsOneKind }
{}

/// A valid literal token begins as a literal of its own kind, and [`guess_kind`](crate::guess_kind) returns this kind for its
/// text.
pub fn a_token_begins_as_its_kind()
    ensures { ATokenBeginsAsItsKind }
{}

/// The first flaw that a [`Flaws`](crate::Flaws) cursor returns explains why the text isn't a literal token.
/// [`read`](rl_strict::read) returns this flaw as its error, since only one flaw explains a text.
pub fn the_first_flaw_explains_the_text()
    ensures { TheFirstFlawExplainsTheText }
{}

/// A valid literal token has no flaw: a [`Flaws`](crate::Flaws) cursor over its text returns none.
pub fn a_token_has_no_flaw()
    ensures { ATokenHasNoFlaw }
{}

/// The unchecked part of a text has at most one next flaw, with one kind, one range and one piece of text to show.
/// [`Flaws::next`](crate::Flaws::next) returns this flaw.
pub fn the_rest_has_one_next_flaw()
    ensures { TheRestHasOneNextFlaw }
{}

/// Rust has no type for a literal for which [`type_error`](crate::type_error) returns an error.
pub fn a_literal_with_a_type_error_has_no_type()
    ensures { AnErrorExcludesAType }
{}

/// At most one reason explains why Rust has no type for a literal: the one that [`type_error`](crate::type_error) returns.
pub fn a_literal_has_one_type_error()
    ensures { ALiteralHasOneTypeError }
{}
