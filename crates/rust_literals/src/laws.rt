//! Theorems about literals and their parsers. Each function here does nothing when it is called: its contract is a
//! theorem.

ghost use Rattle.rust_literals.specs.Laws.{APeekTellsALiteral, APeekTellsABool, APeekTellsTheKind, KindAndTokenMakeTheLiteral, ALiteralLeavesFewerTrees, ALitFrontIsOne, AParserOfLitIsExact, ALitHasOneValue, ALitHasItsParts, ATextIsOneList, APrintedListIsRead, AStrListIsRead, StringsHaveOneListOfValues};

use std::alloc::Allocator;

/// Proves that for each of the nine literal types, `peek` is `true` exactly if the type's parser returns a literal. The
/// condition is that no allocation fails. If `peek` is `false`, the parser's error isn't an allocation failure.
pub fn peek_agrees_with_the_parsers<A: Allocator>()
    ensures literal { APeekTellsALiteral A }
    ensures truth { APeekTellsABool A }
    ensures typed { APeekTellsTheKind A }
{}

/// Proves that two literals with the same kind and the same token are equal in all parts. So the kind and the token
/// also determine a copy of a literal, and a literal with another span.
pub fn kind_and_token_make_the_literal<A: Allocator>()
    ensures { KindAndTokenMakeTheLiteral A }
{}

/// Proves that a literal at the start of a list of token trees consists of one token tree or more: the list of the
/// token trees after the literal is shorter.
pub fn a_literal_consumes_a_token<A: Allocator>()
    ensures { ALiteralLeavesFewerTrees A }
{}

/// Proves that token trees begin with at most one literal, and that the parser of `Lit` returns it or reports an
/// allocation failure.
pub fn a_literal_at_the_front_is_one<A: Allocator>()
    ensures front { ALitFrontIsOne A }
    ensures exact { AParserOfLitIsExact A }
{}

/// Proves that a literal has one kind, one value and one suffix, and that these are those of its text.
pub fn a_literal_has_one_value<A: Allocator>()
    ensures one { ALitHasOneValue A }
    ensures parts { ALitHasItsParts A }
{}

/// Proves that a printed list of literals is read as the literals of its items, and that a text is at most one list of
/// literals.
pub fn a_printed_list_is_read<A: Allocator>()
    ensures one { ATextIsOneList A }
    ensures printed { APrintedListIsRead A }
{}

/// Proves that the text that [`write_str_list`](rl_tokens::write_str_list) returns is read as string literals with the
/// values that were written.
pub fn a_written_list_of_strings_is_read<A: Allocator>()
    ensures read { AStrListIsRead A }
    ensures one { StringsHaveOneListOfValues A }
{}
