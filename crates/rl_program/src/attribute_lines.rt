//! Writes the output lines of attributes.

ghost use Rattle.std.specs.Prelude.{IfOk, IfErr, OnOk, string_bytes};
ghost use Rattle.std.specs.Str.{chars};
ghost use Rattle.rl_program.specs.Lines.{Appends};
ghost use Rattle.rl_program.specs.declared.command.Command.TheVariants.{Attr};
ghost use Rattle.rl_program.specs.EntryLines.{IsLineOfEntry, AreLinesOfEntries};
ghost use Rattle.rl_program.specs.Runs.{Shows, IsRejectionOf};

use crate::attr::{Entry, read};
use crate::lit_line::push_literal_line;
use crate::program_error::ProgramError;
use std::alloc::{AllocError, Allocator};

/// Appends the output line of an attribute: its name, a space, and the output line of its literal.
fn push_entry<A: Allocator + Copy>(
    alloc: A,
    out: &mut String<A>,
    entry: &Entry<A>,
) -> Result<(), AllocError>
    ensures { OnOk result (Appends (IsLineOfEntry entry.now)
        (chars (string_bytes out.old)) (chars (string_bytes out.new))) }
{
    out.push_str(entry.name.as_str())?;
    out.push_str(" ")?;
    push_literal_line(alloc, out, &entry.value)
}

/// Returns the output lines of attributes, in order. Each has the attribute's name, a space, and the output line of its literal.
///
/// # Errors
///
/// Returns an error if an allocation fails.
pub fn entry_lines<A: Allocator + Copy>(
    alloc: A,
    entries: &[Entry<A>],
) -> Result<String<A>, AllocError>
    ensures { IfOk result (λ lines. AreLinesOfEntries entries.now (chars (string_bytes lines))) }
{
    let mut lines = String::new(alloc);
    for entry in entries {
        push_entry(alloc, &mut lines, entry)?;
    }
    Ok(lines)
}

/// Parses a text as attributes, and returns their output lines.
pub fn attribute_lines<A: Allocator + Copy>(
    alloc: A,
    text: &str,
) -> Result<String<A>, ProgramError<A>>
    ensures lines { IfOk result
        (λ lines. Shows Attr (chars text.now) (chars (string_bytes lines))) }
    ensures rejection { IfErr result (IsRejectionOf Attr text.now) }
{
    let attrs = match read(alloc, text, 0) {
        Ok(attrs) => attrs,
        Err(error) => return Err(ProgramError::Literal(error)),
    };
    let lines = entry_lines(alloc, attrs.entries())?;
    Ok(lines)
}
