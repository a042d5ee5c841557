//! The reason why a call of `rl_scan` ends early.

use rl_program::{RunError, WriteError};
use std::alloc::{AllocError, AllocFailed, Allocator, Global};
use std::fmt;

/// The reason why a call of `rl_scan` ends early.
#[derive(Drop)]
pub enum Failure<A: Allocator = Global> {
    /// There are no arguments, not even the program's name.
    NoArguments,
    /// An allocation failed.
    Memory,
    /// The walk entered too many directories.
    TooManyDirectories,
    /// The reader of the output has closed it.
    Closed,
    /// Writing the output failed.
    Write,
    /// Any other error. The field is its line, without the program's name.
    Said(String<A>),
}

/// The result of a function that appends to a text.
pub(crate) type Appended = Result<(), AllocError>;

/// The result of a function that prints.
pub(crate) type Done<A> = Result<(), Failure<A>>;

impl<A: Allocator> Failure<A> {
    /// Creates the error with the line `words`.
    pub(crate) fn said(alloc: A, words: &str) -> Failure<A> {
        match String::from_str(alloc, words) {
            Ok(line) => Failure::Said(line),
            Err(_) => Failure::Memory,
        }
    }
}

impl<A: Allocator> From<AllocError> for Failure<A> {
    fn from(_: AllocError) -> Self {
        Failure::Memory
    }
}

impl<T: Drop, A: Allocator> From<AllocFailed<T>> for Failure<A> {
    fn from(_: AllocFailed<T>) -> Self {
        Failure::Memory
    }
}

impl<A: Allocator> From<WriteError> for Failure<A> {
    fn from(error: WriteError) -> Self {
        match error {
            WriteError::Closed => Failure::Closed,
            WriteError::Failed => Failure::Write,
        }
    }
}

impl<A: Allocator> RunError for Failure<A> {
    ghost use Rattle.std.specs.Prelude.{ℕ};

    ghost error_status = { λ _. 2 };

    fn status(&self) -> u8 {
        2
    }
}

impl<A: Allocator> fmt::Display for Failure<A> {
    fn fmt<W: fmt::Write>(&self, f: &mut fmt::Formatter<W>) -> fmt::Result {
        match self {
            Failure::NoArguments => write!(f, "rl_scan: there are no arguments"),
            Failure::Memory => write!(f, "rl_scan: out of memory"),
            Failure::TooManyDirectories => write!(f, "rl_scan: too many directories"),
            Failure::Closed | Failure::Write => write!(f, "rl_scan: write failed"),
            Failure::Said(line) => {
                // A runner of GitHub would take a line with `##[` for a command.
                let mut is_first = true;
                for part in line.as_str().split("##[") {
                    let lead = if is_first { "rl_scan: " } else { "##\\u{5b}" };
                    write!(f, "{lead}{part}")?;
                    is_first = false;
                }
                Ok(())
            }
        }
    }
}
