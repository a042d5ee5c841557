//! Laws of the definitions of literals. Each function does nothing, and its contract is the law.

ghost use Rattle.rl_syntax.specs.Laws.{ATextHasOneReading, ATextIsStrictInOneWay, AStrictTextHasNoReturn, TheTruthWordsAreStrict, AStrictTextReads, AStrictNumberReadsAfterAMinus, AWrittenValueIsStrict, AWrittenValueReads, AMinusTellsTheSign, BothGrammarsAgree, ReadingsOfATextAreOne, StrictReadingsOfATextAreOne, AReadingIsTheStrictOne};

/// By `syn`'s grammar, a text has at most one parse result: one kind, one value and one suffix.
pub fn a_text_has_one_reading()
    ensures { ATextHasOneReading }
{}

/// By Rust's grammar, a text has at most one parse result: one kind, one value and one suffix.
pub fn a_text_has_one_strict_reading()
    ensures { ATextIsStrictInOneWay }
{}

/// A literal of Rust's grammar contains no CR, neither in its body nor in its suffix.
pub fn a_strict_literal_contains_no_cr()
    ensures { AStrictTextHasNoReturn }
{}

/// The texts `true` and `false` are literals of Rust's grammar. Each has its `bool` as its value, and no suffix.
pub fn true_and_false_are_strict_literals()
    ensures { TheTruthWordsAreStrict }
{}

/// A literal of Rust's grammar is a literal of `syn`'s grammar too, with the same kind, value and suffix. An integer
/// must be within 128 bits.
pub fn a_strict_literal_is_a_syn_literal()
    ensures { AStrictTextReads }
{}

/// By `syn`'s grammar, a number of Rust's grammar with a minus directly before it is a number too. The digits of its
/// value begin with `-`, and its suffix is the suffix of the number without the minus. An integer must be within 128
/// bits.
pub fn a_negated_strict_number_is_a_syn_literal()
    ensures { AStrictNumberReadsAfterAMinus }
{}

/// The written form of a value is a literal of Rust's grammar. It has that value and no suffix.
pub fn a_written_value_is_a_strict_literal()
    ensures { AWrittenValueIsStrict }
{}

/// By `syn`'s grammar, the written form of a value is a literal with that value and no suffix.
pub fn a_written_value_is_a_syn_literal()
    ensures { AWrittenValueReads }
{}

/// The value of an integer literal is negative exactly if its text begins with a minus.
pub fn a_minus_tells_the_sign()
    ensures { AMinusTellsTheSign }
{}

/// If a text is a literal of `syn`'s and of Rust's grammar, the two grammars give it one kind, one value and one
/// suffix.
pub fn both_grammars_agree()
    ensures { BothGrammarsAgree }
{}

/// Two parse results of a text are equal records of a kind, a value and a suffix. Each of the two may be by `syn`'s or
/// by Rust's grammar.
pub fn readings_of_a_text_are_equal()
    ensures readings { ReadingsOfATextAreOne }
    ensures strict { StrictReadingsOfATextAreOne }
    ensures both { AReadingIsTheStrictOne }
{}
