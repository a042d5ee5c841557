//! Reads a whole input, and writes all bytes of an output.

ghost use Rattle.std.specs.Prelude.{◌≡◌, ◌⊎◌, OnOk, OnErr, IfOk, IfErr, IfSome};
ghost use Rattle.std.specs.Str.{IsUtf8};
ghost use Rattle.std.specs.Io.KnownBytes.{Appends};
ghost use Rattle.rl_program.specs.Streams.{AppendsBeginning};
ghost use Rattle.rl_program.specs.declared.program_error.ProgramError.TheVariants.{Read, Write, NotText, Memory};

use crate::program_error::ProgramError;
use std::alloc::Allocator;
use std::io::{ErrorKind, Read, Write};

/// The number of bytes that one call of the reader requests.
const TURN: usize = 8192;

/// The maximum number of calls of the reader.
const TURNS: u32 = u32::MAX;

const _: () = prove!(TURNS == 4_294_967_295);

/// Returns all bytes of the input.
///
/// The reader is called at most 4,294,967,295 times.
///
/// # Errors
///
/// Returns `Read` if a call of the reader fails with any error, or if the last allowed call still returns bytes. Returns `Memory`
/// if an allocation fails.
pub fn read_whole<A: Allocator, R: Read>(
    alloc: A,
    input: &mut R,
) -> Result<Vec<u8, A>, ProgramError<A>>
    ensures bytes { IfOk result
        (λ bytes. IfSome (R.remaining input.old) (λ all. bytes.items ≡ all)) }
    ensures errors { IfErr result (λ error. (error ≡ Read) ⊎ (error ≡ Memory)) }
{
    let mut bytes = Vec::new(alloc);
    let mut turn = [0_u8; TURN];
    for _ in 0..TURNS {
        match input.read(&mut turn) {
            Ok(0) => return Ok(bytes),
            Ok(count) => {
                if bytes.extend_from_slice(&turn[..count]).is_err() {
                    return Err(ProgramError::Memory);
                }
            }
            Err(_) => return Err(ProgramError::Read),
        }
    }
    Err(ProgramError::Read)
}

/// Returns the bytes as text.
///
/// # Errors
///
/// Returns `NotText` if the bytes aren't UTF-8.
pub fn text_of<A: Allocator>(bytes: &[u8]) -> Result<&str, ProgramError<A>>
    ensures text { IfOk result (λ text. text.now ≡ bytes.now) }
    ensures utf8 { OnOk result (IsUtf8 bytes.now) }
    ensures rejection { IfErr result (λ error. (error ≡ NotText) × (IsUtf8 bytes.now → ⊥)) }
{
    match std::str::from_utf8(bytes) {
        Ok(text) => Ok(text),
        Err(_) => Err(ProgramError::NotText),
    }
}

/// The reason why bytes couldn't be written.
#[derive(Clone, Copy, PartialEq, Eq, Debug)]
pub enum WriteError {
    /// The reader at the other end of the pipe is closed.
    Closed,
    /// A call of the writer failed, or wrote no byte.
    Failed,
}

/// Returns the error for a failed call of the writer.
fn write_error(kind: ErrorKind) -> WriteError {
    match kind {
        ErrorKind::BrokenPipe => WriteError::Closed,
        _ => WriteError::Failed,
    }
}

/// Writes all bytes to `out`.
///
/// # Errors
///
/// Returns an error if a call of the writer fails or writes no byte. A beginning of the bytes may have been written then.
pub fn write_bytes<W: Write>(out: &mut W, bytes: &[u8]) -> Result<(), WriteError>
    ensures all { OnOk result (Appends (W.contents out.old) (W.contents out.new) bytes.now) }
    ensures beginning { OnErr result
        (AppendsBeginning (W.contents out.old) (W.contents out.new) bytes.now) }
{
    let mut rest = bytes;
    while !rest.is_empty() {
        match out.write(rest) {
            Ok(0) => return Err(WriteError::Failed),
            Ok(count) => rest = &rest[count..],
            Err(error) => return Err(write_error(error.kind())),
        }
    }
    Ok(())
}

/// Writes all bytes to `out`. On a failure the error is the variant `Write` of `ProgramError`.
///
/// # Errors
///
/// Returns `Write` if a call of the writer fails or writes no byte. A beginning of the bytes may have been written
/// then.
pub fn write_whole<A: Allocator, W: Write>(out: &mut W, bytes: &[u8]) -> Result<(), ProgramError<A>>
    ensures all { OnOk result (Appends (W.contents out.old) (W.contents out.new) bytes.now) }
    ensures beginning { IfErr result (λ error. (error ≡ Write)
        × AppendsBeginning (W.contents out.old) (W.contents out.new) bytes.now) }
{
    match write_bytes(out, bytes) {
        Ok(()) => Ok(()),
        Err(_) => Err(ProgramError::Write),
    }
}
