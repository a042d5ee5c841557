//! Theorems about the definitions. Each function here does nothing: its contract states the theorem.

ghost use Rattle.rl_strict.specs.Laws.{StrictDigitsRepresentTheirNumber, StrictDigitsAreDecimal, NoZeroLeadsStrictDigits, ZeroIsOneStrictDigit, ATextHasOneFlaw, ATextHasOneSignedFlaw, ATextHasOneValueFlaw, ATokenReadsOrIsPastTheLimit, AnUnreadTokenIsPastTheLimit, ABadQuoteHasNoReading, ABadQuoteIsNoToken, ATextInAFileHasOneFlaw, ATextInAFileHasOneSignedFlaw, ATextInAFileHasOneValueFlaw, ATextInAFileHasOneSignedValueFlaw};

/// The decimal digits of an integer of any size, as the strict grammar defines them, represent that integer. The digits are
/// ASCII digits only. The digits of 0 are `0`, and the digits of any other integer don't begin with `0` (code 48).
pub fn strict_digits_represent_their_number()
    ensures spells { StrictDigitsRepresentTheirNumber }
    ensures digits { StrictDigitsAreDecimal }
    ensures no_zero { NoZeroLeadsStrictDigits }
    ensures zero { ZeroIsOneStrictDigit }
{}

/// A text has at most one flaw that explains why it isn't a literal token: one kind, one byte range, and one range of text
/// to show. So [`explain`](crate::explain) returns the only possible flaw.
pub fn a_text_has_one_flaw()
    ensures { ATextHasOneFlaw }
{}

/// A text has at most one flaw that explains why it is neither a literal token nor a minus and a number. [`read`](crate::read)
/// with `signed = true` returns this flaw.
pub fn a_text_has_one_signed_flaw()
    ensures { ATextHasOneSignedFlaw }
{}

/// A text has at most one flaw that explains why it has no value. An integer above 128 bits,
/// with or without a minus before it, has no value. [`explain_missing_value`](crate::explain_missing_value) returns this flaw.
pub fn a_text_has_one_value_flaw()
    ensures { ATextHasOneValueFlaw }
{}

/// A literal token, or a minus and a number, parses by `syn`'s grammar or is an integer above 128 bits. So if a text doesn't
/// parse, [`explain_missing_value`](crate::explain_missing_value) returns a reason, unless the text is a float only by its suffix
/// ([`is_float_by_suffix`](crate::is_float_by_suffix)).
pub fn a_strict_literal_is_a_syn_literal_or_above_128_bits()
    ensures either { ATokenReadsOrIsPastTheLimit }
    ensures unread { AnUnreadTokenIsPastTheLimit }
{}

/// In a source, single quotes around no character or several characters aren't a literal token, and don't parse by `syn`'s
/// grammar. Examples are `''`, `'ab'`, `b'hello'`, and `'1a`.
pub fn a_bad_quote_is_not_a_literal()
    ensures reading { ABadQuoteHasNoReading }
    ensures token { ABadQuoteIsNoToken }
{}

/// A literal's text in a file, where rustc reads CR LF as LF, has at most one flaw that explains why it isn't a literal
/// token. Each byte offset in the text as rustc reads it corresponds to one byte offset in the file. [`read`](crate::read)
/// with `LineEnds::File` returns this flaw.
pub fn a_text_in_a_file_has_one_flaw()
    ensures { ATextInAFileHasOneFlaw }
{}

/// A literal's text in a file has at most one flaw that explains why it is neither a literal token nor a minus and a number.
/// [`read`](crate::read) with `LineEnds::File` and `signed = true` returns this flaw.
pub fn a_text_in_a_file_has_one_signed_flaw()
    ensures { ATextInAFileHasOneSignedFlaw }
{}

/// A literal's text in a file has at most one flaw that explains why it has no value.
/// [`explain_missing_value`](crate::explain_missing_value) with `LineEnds::File` returns this flaw.
pub fn a_text_in_a_file_has_one_value_flaw()
    ensures { ATextInAFileHasOneValueFlaw }
{}

/// A literal's text in a file has at most one flaw that explains why it has no value, if a minus before a number is allowed.
/// [`explain_missing_value`](crate::explain_missing_value) with `LineEnds::File` and `signed = true` returns this flaw.
pub fn a_text_in_a_file_has_one_signed_value_flaw()
    ensures { ATextInAFileHasOneSignedValueFlaw }
{}
