//! Runs a command of `rl_tool` with any reader and writer.

ghost use Rattle.std.specs.Prelude.{◌≡◌, IfErr, IfOk, IfSome, OnOk, string_bytes};
ghost use Rattle.std.specs.Str.{chars, IsUtf8};
ghost use Rattle.rl_program.specs.declared.command.Command.TheVariants.{Text};
ghost use Rattle.rl_tokens.specs.Errors.{memory_at};
ghost use Rattle.rust_literals.specs.Literals.{IsReadFrom};
ghost use Rattle.rust_literals.specs.LitParts.{ReadsAsNumber};
ghost use Rattle.rl_program.specs.Runs.{whole_token, Shows, Prints, IsLiteralError, IsErrorOf, IsRejectionOf};

use crate::attribute_lines::attribute_lines;
use crate::command::Command;
use crate::list::literal_lines;
use crate::lit_line::output_line;
use crate::program_error::ProgramError;
use crate::streams::{read_whole, text_of, write_whole};
use rl_tokens::{Literal, Span};
use rust_literals::Lit;
use std::alloc::Allocator;
use std::io::{Read, Write};

/// Returns the whole input as one token. The bytes of the input are dropped.
fn token_of<A: Allocator + Copy>(alloc: A, bytes: Vec<u8, A>) -> Result<Literal<A>, ProgramError<A>>
    ensures utf8 { OnOk result (IsUtf8 bytes.items) }
    ensures token { IfOk result (λ token. token ≡ whole_token bytes.items) }
    ensures rejection { IfErr result (IsRejectionOf Text bytes.items) }
{
    let text = text_of(bytes.as_slice())?;
    let span = Span::new(0, 0, text.len());
    match Literal::from_text(alloc, text, span) {
        Ok(token) => Ok(token),
        Err(_) => Err(ProgramError::Memory),
    }
}

/// Parses a token as a literal. A failed allocation is an error of the literal.
fn literal_of<A: Allocator + Copy>(alloc: A, token: Literal<A>) -> Result<Lit<A>, ProgramError<A>>
    ensures reads { IfOk result (IsReadFrom token) }
    ensures rejection { IfErr result
        (IsLiteralError (λ e. (e ≡ memory_at token.span) × ReadsAsNumber (chars token.text))) }
{
    match Lit::new(alloc, token) {
        Ok(literal) => Ok(literal),
        Err(kept) => Err(ProgramError::Literal(kept.error)),
    }
}

/// Parses the whole input as one literal, and returns its output line.
fn literal_line<A: Allocator + Copy>(
    alloc: A,
    bytes: Vec<u8, A>,
) -> Result<String<A>, ProgramError<A>>
    ensures utf8 { OnOk result (IsUtf8 bytes.items) }
    ensures line { IfOk result
        (λ line. Shows Text (chars bytes.items) (chars (string_bytes line))) }
    ensures rejection { IfErr result (IsRejectionOf Text bytes.items) }
{
    let token = token_of(alloc, bytes)?;
    let literal = literal_of(alloc, token)?;
    let line = output_line(alloc, &literal)?;
    Ok(line)
}

/// Parses the whole input as the command requests, and returns its output lines.
fn lines_of_input<A: Allocator + Copy>(
    alloc: A,
    command: Command,
    bytes: Vec<u8, A>,
) -> Result<String<A>, ProgramError<A>>
    ensures utf8 { OnOk result (IsUtf8 bytes.items) }
    ensures lines { IfOk result
        (λ lines. Shows command (chars bytes.items) (chars (string_bytes lines))) }
    ensures rejection { IfErr result (IsRejectionOf command bytes.items) }
{
    match command {
        Command::Text => literal_line(alloc, bytes),
        Command::Read => literal_lines(alloc, text_of(bytes.as_slice())?),
        Command::Attr => attribute_lines(alloc, text_of(bytes.as_slice())?),
    }
}

/// Reads the whole input, and writes the output lines of its literals or attributes.
///
/// All lines are formatted before the first one is written, so that nothing is written if the input has an error. After a failed
/// write, a beginning of the lines has been written.
///
/// # Errors
///
/// Returns `NotText` if the whole input was read and isn't UTF-8. Returns `Literal` with the error of `Lit::new`, `read_all` or
/// `attr::read`. Returns `Memory` if another allocation fails. Returns `Read` or `Write` if a call of the reader or the writer
/// fails. `Read` is also the error if the input hasn't ended after 4,294,967,295 reads.
pub fn run<A: Allocator + Copy, R: Read, W: Write>(
    alloc: A,
    command: Command,
    input: &mut R,
    out: &mut W,
) -> Result<(), ProgramError<A>>
    ensures printed { OnOk result (IfSome (R.remaining input.old)
        (λ bytes. Prints command bytes (W.contents out.old) (W.contents out.new))) }
    ensures error { IfErr result
        (IsErrorOf command (R.remaining input.old) (W.contents out.old) (W.contents out.new)) }
{
    let bytes = read_whole(alloc, input)?;
    let lines = match lines_of_input(alloc, command, bytes) {
        Ok(lines) => lines,
        Err(error) => return Err(error),
    };
    write_whole(out, lines.as_bytes())
}
