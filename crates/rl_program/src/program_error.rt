//! The errors that end a program's run.

ghost use Rattle.std.specs.Prelude.{Some};
ghost use Rattle.rl_program.specs.ProgramErrors.{error_line};

use crate::exit::RunError;
use crate::rejection::Rejection;
use rl_tokens::Error;
use std::alloc::{AllocError, Allocator, Global};
use std::fmt;

/// The reason why a program's run failed.
#[derive(Drop)]
#[derive_where(Debug)]
pub enum ProgramError<A: Allocator = Global> {
    /// A call of the reader failed, or the input has no end.
    Read,
    /// A call of the writer failed, or wrote no byte.
    Write,
    /// The input isn't UTF-8.
    NotText,
    /// An allocation failed, but not for a literal.
    Memory,
    /// The text of a literal was rejected. The field is the error, with its position.
    Literal(Error<A>),
}

/// Defines the program's exit status: 2 if reading or writing failed, else 1.
impl<A: Allocator> RunError for ProgramError<A> {
    ghost use Rattle.rl_program.specs.ProgramErrors.{program_status};

    ghost error_status = { program_status };

    fn status(&self) -> u8 {
        match self {
            ProgramError::Read | ProgramError::Write => 2,
            _ => 1,
        }
    }
}

/// Converts a failed allocation to `Memory`.
impl<A: Allocator> From<AllocError> for ProgramError<A> {
    ghost use Rattle.std.specs.Prelude.{◌≡◌};
    ghost use Rattle.rl_program.specs.declared.program_error.ProgramError.TheVariants.{Memory};

    ghost from_gives = { λ rejected error. error ≡ Memory };

    fn from(_: AllocError) -> Self {
        Self::Memory
    }
}

/// Writes the line by which a program reports the error. Positions are in bytes.
impl<A: Allocator> fmt::Display for ProgramError<A> {
    ghost output = { λ error. Some (error_line error) };

    fn fmt<W: fmt::Write>(&self, f: &mut fmt::Formatter<W>) -> fmt::Result {
        match self {
            ProgramError::Read => write!(f, "error: read failed"),
            ProgramError::Write => write!(f, "error: write failed"),
            ProgramError::NotText => write!(f, "error: input is not UTF-8"),
            ProgramError::Memory => write!(f, "error: out of memory"),
            ProgramError::Literal(error) => write!(f, "{}", Rejection(error)),
        }
    }
}
