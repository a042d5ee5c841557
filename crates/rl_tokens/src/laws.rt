//! Theorems about lexing. Each function here does nothing when it is called: its contract is a theorem about all texts.

ghost use Rattle.rl_lexer.specs.Cuts.{OneError};
ghost use Rattle.rl_tokens.specs.WrittenLists.{AStrListIsPrinted};
ghost use Rattle.rl_tokens.specs.Laws.{ARestOfARestIsARest, AMarkHasOneRest, JointMarksHaveOneRest, APeekedMarkIsAtTheFront, AGroupHasOneInside, AGroupIsNoMark, AStepIsLighter, AMarkIsLighter, AnInsideIsLighter};
ghost use Rattle.rl_tokens.specs.Lexing.{ATextLexesOrHasAnError, NeverBoth, OneList};
ghost use Rattle.rl_tokens.specs.PrintedTrees.{PrintedLiteralsLexToTheirTrees, ReprintedLiteralsLexToThemselves};

pub use rl_lexer::laws::{
    a_source_has_one_lexing, literals_dont_begin_with_a_minus, text_tokens_are_source_tokens,
};
pub use rl_syntax::laws::{
    a_minus_tells_the_sign, a_negated_strict_number_is_a_syn_literal,
    a_strict_literal_contains_no_cr, a_strict_literal_is_a_syn_literal, a_text_has_one_reading,
    a_text_has_one_strict_reading, a_written_value_is_a_strict_literal,
    a_written_value_is_a_syn_literal, both_grammars_agree, readings_of_a_text_are_equal,
    true_and_false_are_strict_literals,
};

/// Proves that a printed list of literals is lexed into exactly the token trees of the list's items. The literals are
/// those that Rust's grammar accepts, and separators are between them.
pub fn printed_literals_lex_to_their_trees()
    ensures { PrintedLiteralsLexToTheirTrees }
{}

/// Proves that the texts of lexed literals, with separators between them, are lexed into the same literals. The
/// literals were lexed from any text. The separators aren't empty.
pub fn reprinted_literals_lex_to_themselves()
    ensures { ReprintedLiteralsLexToThemselves }
{}

/// Proves that each text is lexed into token trees, or has a first error. No memory is needed for this.
pub fn a_text_lexes_or_has_an_error()
    ensures { ATextLexesOrHasAnError }
{}

/// Proves that a text is lexed into at most one list of token trees, has at most one first error, and never has both.
pub fn a_text_is_lexed_in_one_way()
    ensures one_list { OneList }
    ensures one_error { OneError }
    ensures never_both { NeverBoth }
{}

/// Proves that the token trees after two steps of a parser are the end of the token trees before both steps.
pub fn steps_join()
    ensures { ARestOfARestIsARest }
{}

/// Proves that one list of token trees follows a punctuation character, punctuation characters with nothing between them,
/// or a group, and one list is inside the group. A group isn't a punctuation character, and `peek_punct` returns `true` exactly
/// before the character.
pub fn one_list_follows_a_token()
    ensures mark { AMarkHasOneRest }
    ensures joint { JointMarksHaveOneRest }
    ensures peeked { APeekedMarkIsAtTheFront }
    ensures group { AGroupHasOneInside }
    ensures other { AGroupIsNoMark }
{}

/// Proves that each step of a parser leaves fewer tokens, and that fewer tokens are inside a group than with it. So
/// `weight`, the number of tokens, is a measure of parsers that recurse into groups.
pub fn tokens_are_a_measure()
    ensures step { AStepIsLighter }
    ensures mark { AMarkIsLighter }
    ensures inside { AnInsideIsLighter }
{}

/// Proves that the text that [`write_str_list`](crate::write_str_list) returns is a printed list of literals.
pub fn a_str_list_is_printed()
    ensures { AStrListIsPrinted }
{}
