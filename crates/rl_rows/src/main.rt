//! The program `rl_rows`, for tests. It reads lines of input, each of which is a test, and prints their results. Stored tests and
//! comparisons with other programs use it. It contains an allocator whose allocations fail on request.
#![tactic(auto)]

mod answer;
mod borrowed;
mod failing;
mod hostile;
mod lists;
mod literals;
mod memory;
mod noted;
mod page;
mod pairs;
mod plain;
mod row;
mod streams;
mod turns;
mod values;

pub use crate::failing::Failing;
pub use crate::page::Page;
use std::alloc::Global;
use std::io;
use std::io::{BufRead, BufReader, BufWriter, Write};

fn main(rt: HostRuntime) -> io::Result<()> {
    let alloc = rt.alloc();
    let mut out = BufWriter::new(alloc, io::writer(&rt))?;
    answer_all(alloc, BufReader::new(alloc, rt.reader())?, &mut out)?;
    out.flush()
}

/// Runs the tests in the lines of an input, and writes their results.
fn answer_all<R: BufRead + Drop, W: Write>(alloc: Global, input: R, out: &mut W) -> io::Result<()> {
    for line in input.split(alloc, b'\n') {
        answer_to(alloc, line, out)?;
    }
    Ok(())
}

/// Runs the test in a line of input, and writes its result.
fn answer_to<W: Write>(alloc: Global, line: io::Result<Vec<u8>>, out: &mut W) -> io::Result<()> {
    write_answer(row::told(alloc, line?)?, out)
}

/// Writes the result of a test.
fn write_answer<W: Write>(answer: String, out: &mut W) -> io::Result<()> {
    out.write_all(answer.as_bytes())
}
