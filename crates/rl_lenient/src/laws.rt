//! Laws of the definitions of `syn`'s grammar of literals. Each function does nothing, and its contract is the law.

ghost use Rattle.rl_lenient.specs.Laws.{BytesWithoutReturnsAreStrict, Utf8DecodingKeepsALeadingMinus, AFoundLiteralReads};
ghost use Rattle.rl_lenient.specs.PartLaws.{AnIntegerHasOneBase, AFloatHasOneOfEachPart};

/// `syn`'s and Rust's grammar agree on whether a text without CR is a byte literal, or a byte string literal that
/// isn't raw, and on its value and its suffix. Only literals with a suffix that Rust's grammar allows are compared.
pub fn byte_literals_without_cr_are_strict()
    ensures { BytesWithoutReturnsAreStrict }
{}

/// Decoding a minus and the bytes after it gives the minus and the decoded characters of the bytes.
pub fn utf8_decoding_keeps_a_leading_minus()
    ensures { Utf8DecodingKeepsALeadingMinus }
{}

/// If [`parse_literal`](crate::parse_literal) returns a literal for a text, the text is parsed with that literal's value and suffix.
pub fn a_parsed_literal_has_the_value_of_its_text()
    ensures { AFoundLiteralReads }
{}

/// All parse results of a text as an integer literal agree on its base and on its digits, as they are written.
pub fn an_integer_has_one_base()
    ensures { AnIntegerHasOneBase }
{}

/// All parse results of a text as a float literal agree on its parts: the digits before the dot, the digits after it,
/// and the exponent.
pub fn a_float_has_one_of_each_part()
    ensures { AFloatHasOneOfEachPart }
{}
