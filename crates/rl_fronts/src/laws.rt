//! Laws of the literal at the start of token trees. Each function does nothing, and its contract is the law.

ghost use Rattle.rl_fronts.specs.Laws.{AFrontIsOne, AGroupIsNoFront, AParserOfAKindIsExact};

use std::alloc::Allocator;

/// Token trees begin with at most one literal, and one list of token trees follows it. A group isn't a literal.
pub fn a_front_is_one()
    ensures front { AFrontIsOne }
    ensures group { AGroupIsNoFront }
{}

/// If token trees begin with a literal of a kind, the parser of the kind returns this literal, or an allocation failed.
/// The parsers are [`take_literal_of_kind`](crate::take_literal_of_kind) and those of the types of literals.
pub fn a_parser_of_a_kind_is_exact<A: Allocator>()
    ensures { AParserOfAKindIsExact A }
{}
