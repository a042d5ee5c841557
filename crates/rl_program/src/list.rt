//! Writes the output lines of the literals in a list. Each literal is dropped after its line is written.

ghost use Rattle.std.specs.Prelude.{IfErr, IfOk, IfSome, string_bytes};
ghost use Rattle.std.specs.Str.{chars};
ghost use Rattle.rl_program.specs.declared.command.Command.TheVariants.{Read};
ghost use Rattle.rl_program.specs.Runs.{Shows, IsRejectionOf};
ghost use Rattle.rl_program.specs.Lists.{Lengthens};

use crate::lit_line::push_literal_line;
use crate::program_error::ProgramError;
use rust_literals::{Lit, Literals};
use std::alloc::Allocator;

/// Returns `lines` with the output line of the literal appended. Returns `None` if the allocation for it fails, or if `lines` is
/// `None`.
fn with_line<A: Allocator + Copy>(
    alloc: A,
    lines: Option<String<A>>,
    literal: Lit<A>,
) -> Option<String<A>>
    ensures { IfSome result (Lengthens lines literal) }
{
    let mut longer = lines?;
    let pushed = push_literal_line(alloc, &mut longer, &literal);
    // The literal is dropped by a function call, because dropping it in place would double the number of steps to
    // prove.
    drop(literal);
    match pushed {
        Ok(()) => Some(longer),
        Err(_) => None,
    }
}

/// Parses a text as a list of literals, and returns their output lines.
pub fn literal_lines<A: Allocator + Copy>(
    alloc: A,
    text: &str,
) -> Result<String<A>, ProgramError<A>>
    ensures lines { IfOk result
        (λ lines. Shows Read (chars text.now) (chars (string_bytes lines))) }
    ensures rejection { IfErr result (IsRejectionOf Read text.now) }
{
    let mut lines = Some(String::new(alloc));
    let mut literals = Literals::new(alloc, text, 0);
    loop {
        match literals.next() {
            Ok(Some(literal)) => lines = with_line(alloc, lines, literal),
            Ok(None) => return lines.ok_or(ProgramError::Memory),
            Err(error) => return Err(ProgramError::Literal(error)),
        }
    }
}
