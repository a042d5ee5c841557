//! Tests of the commands and of the parser of attributes, whose allocations fail one after another.

use crate::Page;
use crate::memory::format_results::format_result;
use crate::memory::trial::{Scarce, Trial};
use crate::noted::HERE;
use rl_attributes::Attrs;
use rl_program::run::run;
use rl_program::{Command, Rejection};
use rl_tokens::{Parse, ParseBuffer};

/// Runs a command on the text, and appends its result and the number of written bytes.
pub(crate) fn command<A: Scarce>(name: &str, trial: &Trial<A>, text: &str, page: &mut Page) {
    let mut written = Vec::new(page.alloc);
    if let Some(command) = Command::from_name(name) {
        let mut input = text.as_bytes();
        let answer = run(trial.begins(), command, &mut input, &mut written);
        format_result(answer, page)
    }
    page.put(", ");
    page.put_number(written.len(), " written")
}

/// Parses the text as attributes, and appends the result and the number of token trees that aren't consumed.
pub(crate) fn attributes<A: Scarce>(trial: &Trial<A>, text: &str, page: &mut Page) {
    if let Some(stream) = trial.trees(text, page) {
        let mut input = ParseBuffer::new(stream.trees(), HERE);
        match Attrs::parse(trial.begins(), &mut input) {
            Ok(attrs) => {
                page.put_number(attrs.entries().len(), " taken, ");
                drop(attrs)
            }
            Err(error) => {
                page.put_display(&Rejection(&error), ", ");
                drop(error)
            }
        }
        page.put_number(input.rest().len(), " left");
        drop(stream)
    }
}
