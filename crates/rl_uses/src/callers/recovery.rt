//! An example of a function that calls `leading_literal` of `rl_cursors`.

ghost use Rattle.std.specs.Prelude.{◌≡◌, IfSome, IfNone};
ghost use Rattle.rl_cursors.specs.declared.leading.LeadingLiteral.{LeadingLiteral};
ghost use Rattle.rl_cursors.specs.Leading.{Leads, LeadsNone};

use rl_cursors::leading_literal;

/// Returns the text of the literal at the start of `text`, or `None` if `text` doesn't begin with a literal.
pub fn literal_at_start(text: &str) -> Option<&str>
    ensures found { IfSome result
        (λ literal. (l : LeadingLiteral) × Leads text.now l × (literal.now ≡ l.text.now)) }
    ensures none { IfNone result (LeadsNone text.now) }
{
    Some(leading_literal(text)?.text)
}
