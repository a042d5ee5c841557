//! Theorems about the values of attributes and about settings. Each function here does nothing when it is called: its
//! contract is a theorem.

ghost use Rattle.rl_attributes.specs.Laws.{AStringIsParsedFromItsText, ABoolIsParsedFromItsText, TheTextTellsTheKind, TheTextTellsTheSuffix, AMalformedLiteralHasNoReading, OnlyAnAllocationFailureRejectsAString, ABoolIsAccepted, KnownNamesAreTheSettings, ARejectedStringIsAtTheValue, ARejectedBoolIsAtTheValue, ARejectedUnsignedIsAtTheValue};

use std::alloc::Allocator;

/// Proves that if an attribute's value is a string without a suffix, the text of the value is parsed as that string.
pub fn a_string_is_parsed_from_its_text<A: Allocator, B: Allocator>()
    ensures { AStringIsParsedFromItsText A B }
{}

/// Proves that if an attribute's value is a `bool`, the text of the value is parsed as that `bool`.
pub fn a_bool_is_parsed_from_its_text<A: Allocator>()
    ensures { ABoolIsParsedFromItsText A }
{}

/// Proves that the kind of an attribute's value is the kind as which the text of the value is parsed.
pub fn the_text_tells_the_kind<A: Allocator>()
    ensures { TheTextTellsTheKind A }
{}

/// Proves that the suffix of an attribute's value is the suffix with which the text of the value is parsed.
pub fn the_text_tells_the_suffix<A: Allocator>()
    ensures { TheTextTellsTheSuffix A }
{}

/// Proves that if an attribute's value is `Verbatim`, which is reported as malformed, the text of the value isn't a
/// valid literal or is an integer above 128 bits.
pub fn a_malformed_literal_has_no_reading<A: Allocator>()
    ensures { AMalformedLiteralHasNoReading A }
{}

/// Proves that the only error for a setting whose value is a string, and which must be a string, is an allocation
/// failure.
pub fn only_an_allocation_failure_rejects_a_string<A: Allocator>()
    ensures { OnlyAnAllocationFailureRejectsAString A }
{}

/// Proves that there is no error for a setting whose value is a `bool`, and which must be a `bool`.
pub fn a_bool_is_accepted<A: Allocator>()
    ensures { ABoolIsAccepted A }
{}

/// Proves that a name is known to a list of settings exactly if one of the settings has that name.
pub fn known_names_are_the_settings()
    ensures { KnownNamesAreTheSettings }
{}

/// Proves that the error for a value that isn't the string, the `bool` or the unsigned integer that its setting expects is at
/// the value. The lemma `a_rejected_number_is_at_the_value` states the same of numbers.
pub fn a_rejected_value_is_where_the_error_is<A: Allocator>()
    ensures string { ARejectedStringIsAtTheValue A }
    ensures truth { ARejectedBoolIsAtTheValue A }
    ensures unsigned { ARejectedUnsignedIsAtTheValue A }
{}
