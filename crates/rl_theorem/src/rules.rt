//! The laws of the grammars' rules. `specs/RustRules.antt` and `specs/SynRules.antt` have the rules, and
//! `specs/Notation.antt` has the notation. Each function does nothing, and its contract is the law.

ghost use Rattle.rl_theorem.specs.RustRules.{StrictIsByTheRules};
ghost use Rattle.rl_theorem.specs.SynRules.{ReadsIsByTheRules};

/// By Rust's grammar, a text is a literal exactly if it is one by the rules of the Rust Reference. Its kind, value and
/// suffix are equal.
pub fn rust_literals_are_by_the_rules()
    ensures { StrictIsByTheRules }
{}

/// By `syn`'s grammar, a text is a literal exactly if it is one by the rules of `syn`. Its kind, value and suffix are
/// equal.
pub fn syn_literals_are_by_the_rules()
    ensures { ReadsIsByTheRules }
{}
