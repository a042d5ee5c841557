//! Laws of the definitions of written literals. Each function does nothing, and its contract is the law.

ghost use Rattle.rl_writing.specs.Laws.{ANumeralHasDigitsOfItsBase, ANumeralRepresentsItsNumber, ANumeralHasNoZeroInFront, FewDigitsAreNotGrouped, EnoughDigitsAreGrouped, RawStringsOfOneValueContainOneText};

/// The written digits of a number are digits of the base, and represent the number.
pub fn a_numeral_represents_its_number()
    ensures digits { ANumeralHasDigitsOfItsBase }
    ensures value { ANumeralRepresentsItsNumber }
{}

/// The written digits of a number don't begin with a zero, except for the number 0.
pub fn a_numeral_has_no_zero_in_front()
    ensures { ANumeralHasNoZeroInFront }
{}

/// An integer with fewer digits than the style's field `least` is written without underscores. An integer with `least` digits
/// or more is written as if `least` were 0.
pub fn few_digits_are_not_grouped()
    ensures few { FewDigitsAreNotGrouped }
    ensures others { EnoughDigitsAreGrouped }
{}

/// All raw strings of one kind and value have one text between their quotes. If no raw string can contain this text, no raw
/// string has the value.
pub fn raw_strings_of_one_value_contain_one_text()
    ensures { RawStringsOfOneValueContainOneText }
{}
