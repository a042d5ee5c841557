//! Runs commands with a reader and a writer that fail after some bytes.

use crate::Page;
use crate::lists::put_bytes;
use crate::noted::parts_of;
use rl_program::run::run;
use rl_program::{Command, RunError};
use std::alloc::Global;
use std::io::{self, ErrorKind, Read, Write};

/// A reader that fails after some bytes.
#[derive(Drop)]
struct Input<'a> {
    bytes: &'a [u8],
    left: usize,
}

impl Read for Input<'_> {
    fn read(&mut self, buf: &mut [u8]) -> io::Result<usize> {
        if self.left == 0 {
            return Err(ErrorKind::Interrupted.into());
        }
        let count = self.left.min(buf.len());
        self.left -= count;
        self.bytes.read(&mut buf[..count])
    }
}

/// A writer that fails after some bytes, or writes no byte after them if `is_full`.
#[derive(Drop)]
struct Output {
    held: Vec<u8>,
    left: usize,
    is_full: bool,
}

impl Write for Output {
    fn write(&mut self, buf: &[u8]) -> io::Result<usize> {
        if self.left == 0 && !self.is_full {
            return Err(ErrorKind::BrokenPipe.into());
        }
        let count = self.left.min(buf.len());
        self.left -= count;
        self.held.extend_from_slice(&buf[..count])?;
        Ok(count)
    }

    fn flush(&mut self) -> io::Result<()> {
        Ok(())
    }
}

/// Returns the number that `word` is in base ten, or the largest number for another text.
fn limit_of(word: &str) -> usize {
    word.parse::<usize>().unwrap_or(usize::MAX)
}

/// Runs a command, and prints its output, its exit status and its error.
///
/// `words` are separated by colons: the command's name, the number of bytes after which reading fails, the number of bytes after
/// which writing fails, and `full`. With `full`, the writer then writes no byte and doesn't fail.
pub(crate) fn told(words: &str, bytes: &[u8], out: &mut Page) {
    let (name, limits) = parts_of(words, ':');
    if let Some(command) = Command::from_name(name) {
        put_run(command, limits, bytes, out)
    }
}

/// Runs a command with the limits of the reader and of the writer.
fn put_run(command: Command, limits: &str, bytes: &[u8], out: &mut Page) {
    let (readable, writable) = parts_of(limits, ':');
    let mut input = Input {
        bytes,
        left: limit_of(readable),
    };
    let mut output = output_of(writable, out.alloc);
    put_ended(
        run(out.alloc, command, &mut input, &mut output),
        output,
        out,
    )
}

/// Creates a writer with a limit, and with `full` after a colon.
fn output_of(words: &str, alloc: Global) -> Output {
    let (writable, end) = parts_of(words, ':');
    Output {
        held: Vec::new(alloc),
        left: limit_of(writable),
        is_full: end == "full",
    }
}

/// Prints the output of a command, its exit status and its error.
fn put_ended<E: RunError + Drop>(answer: Result<(), E>, output: Output, out: &mut Page) {
    put_bytes(output.held.as_slice(), out);
    match answer {
        Ok(()) => out.put("0\n"),
        Err(error) => {
            out.put_display(&error.status(), " ");
            out.put_display(&error, "\n")
        }
    }
}
