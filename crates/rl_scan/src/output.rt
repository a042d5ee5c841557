//! Output that is written in pieces, so that memory doesn't grow with its length.

use crate::escapes::{Before, Escapes, push_char, push_number, push_text};
use crate::failure::Done;
use rl_program::write_bytes;
use std::alloc::Allocator;
use std::io::Write;

/// The length, in bytes, of output that is written at once.
const FULL: usize = 65_536;

/// A stream, and the output that isn't written to it yet.
#[derive(Drop)]
pub(crate) struct Output<'p, A: Allocator, W> {
    stream: &'p mut W,
    pub text: String<A>,
}

impl<'p, A: Allocator + Copy, W: Write> Output<'p, A, W> {
    pub(crate) fn new(alloc: A, stream: &'p mut W) -> Output<'p, A, W> {
        Output {
            stream,
            text: String::new(alloc),
        }
    }

    /// Writes the output.
    pub(crate) fn send(&mut self) -> Done<A> {
        write_bytes(self.stream, self.text.as_bytes())?;
        self.text.clear();
        Ok(())
    }

    /// Writes the output if there is enough of it.
    pub(crate) fn send_if_full(&mut self) -> Done<A> {
        if self.text.len() < FULL {
            return Ok(());
        }
        self.send()
    }

    /// Prints a text with escapes. `before` describes the characters before it.
    pub(crate) fn print(&mut self, escapes: Escapes, before: Before, text: &str) -> Done<A> {
        if text.len() < FULL {
            push_text(&mut self.text, escapes, before, text)?;
            return Ok(());
        }
        let mut last = before;
        for c in text.chars() {
            last = push_char(&mut self.text, escapes, last, c)?;
            self.send_if_full()?;
        }
        Ok(())
    }

    /// Prints a text without escapes. A long text is written without a copy.
    pub(crate) fn print_bare(&mut self, text: &str) -> Done<A> {
        if text.len() < FULL {
            self.text.push_str(text)?;
            return Ok(());
        }
        self.send()?;
        write_bytes(self.stream, text.as_bytes())?;
        Ok(())
    }

    /// Prints a text as a JSON string. `name` precedes it.
    pub(crate) fn print_json(&mut self, name: &str, text: &str) -> Done<A> {
        self.text.push_str(name)?;
        self.text.push('"')?;
        self.print(Escapes::Json, Before::Other, text)?;
        self.text.push('"')?;
        Ok(())
    }

    /// Prints bytes as a JSON array.
    pub(crate) fn print_array(&mut self, bytes: &[u8]) -> Done<A> {
        let mut is_first = true;
        self.text.push('[')?;
        for byte in bytes {
            if !is_first {
                self.text.push(',')?;
            }
            push_number(&mut self.text, usize::from(*byte))?;
            self.send_if_full()?;
            is_first = false;
        }
        self.text.push(']')?;
        Ok(())
    }
}
