//! Runs tests of calls whose allocations fail. A row of such a test has a type, the name of a function, and a text, with spaces
//! between.

use crate::hostile::put_times;
use crate::memory::held::{Held, run_held};
use crate::memory::tokens::parsed;
use crate::memory::trial::{Scarce, Trial};
use crate::memory::{free, made, runs, tokens};
use crate::noted::parts_of;
use crate::{Failing, Page};
use rust_literals::{
    Lit, LitBool, LitByte, LitByteStr, LitCStr, LitChar, LitFloat, LitInt, LitStr,
};
use std::cell::Cell;

/// A row of a test: a function to call, and the text that it is called with.
#[derive(Drop)]
pub(crate) struct Row<'t> {
    /// The type of the function.
    of: &'t str,
    /// The name of the function.
    pub(crate) call: &'t str,
    /// The text that the function is called with.
    pub(crate) text: &'t str,
}

impl<'t> Row<'t> {
    /// Parses a row: a type, the name of a function, and a text, with spaces between. A row of the parser of attributes has no
    /// name of a function.
    pub(crate) fn of_words(words: &'t str) -> Row<'t> {
        let (of, rest) = parts_of(words, ' ');
        let (call, text) = if of == "attributes" {
            ("", rest)
        } else {
            parts_of(rest, ' ')
        };
        Row { of, call, text }
    }
}

/// Calls the function of a row once, and appends its result.
fn run<A: Scarce>(row: &Row<'_>, trial: &Trial<A>, page: &mut Page) {
    match row.of {
        "free" => free::call(row.call, trial, row.text, page),
        "run" => runs::command(row.call, trial, row.text, page),
        "attributes" => runs::attributes(trial, row.text, page),
        _ => run_method(row, trial, page),
    }
}

/// Calls a function of a type once, and appends its result.
fn run_method<A: Scarce>(row: &Row<'_>, trial: &Trial<A>, page: &mut Page) {
    match row.of {
        "Literal" => tokens::literal_call(row.call, trial, row.text, page),
        "Ident" => tokens::word(trial, row.text, page),
        "TokenStream" => tokens::stream_call(row.call, trial, row.text, page),
        _ => run_named(row, trial, page),
    }
}

/// Calls a function of a literal once, by the function's name, and appends its result.
fn run_named<A: Scarce>(row: &Row<'_>, trial: &Trial<A>, page: &mut Page) {
    match row.call {
        "new" => made::new(row.of, trial, row.text, page),
        "from_token" => made::from_token(row.of, trial, row.text, page),
        call if call == "value" || call.starts_with("parse") => run_held::<Lit<A>, A>(
            row, trial, page,
        ),
        _ => run_literal(row, trial, page),
    }
}

/// Calls a function of a literal once, by the literal's type, and appends its result.
fn run_literal<A: Scarce>(row: &Row<'_>, trial: &Trial<A>, page: &mut Page) {
    match row.of {
        "LitInt" => run_type::<LitInt<A>, A>(row, trial, page),
        "LitFloat" => run_type::<LitFloat<A>, A>(row, trial, page),
        "LitBool" => run_type::<LitBool, A>(row, trial, page),
        "Lit" => run_type::<Lit<A>, A>(row, trial, page),
        _ => run_quoted(row, trial, page),
    }
}

/// Calls a function of a quoted literal once, by the literal's type, and appends its result.
fn run_quoted<A: Scarce>(row: &Row<'_>, trial: &Trial<A>, page: &mut Page) {
    match row.of {
        "LitStr" => run_type::<LitStr<A>, A>(row, trial, page),
        "LitByteStr" => run_type::<LitByteStr<A>, A>(row, trial, page),
        "LitCStr" => run_type::<LitCStr<A>, A>(row, trial, page),
        "LitByte" => run_type::<LitByte<A>, A>(row, trial, page),
        _ => run_type::<LitChar<A>, A>(row, trial, page),
    }
}

/// Calls a function of one type of literal, and appends its result. The text is parsed as that type.
fn run_type<T: Held<A> + Drop, A: Scarce>(row: &Row<'_>, trial: &Trial<A>, page: &mut Page) {
    match row.call {
        "Parse::parse" | "peek" => parsed::<T, A>(row.call, trial, row.text, page),
        _ => run_held::<T, A>(row, trial, page),
    }
}

/// Returns the result of a row's call while the allocations from `first` to `last` fail. `asked` receives the number of requested
/// allocations.
fn tried(row: &Row<'_>, first: u64, last: u64, asked: &Cell<u64>, page: &Page) -> Page {
    let failing = Failing::new(page.alloc);
    let mut told = Page::new(page.alloc);
    let trial = Trial {
        scant: &failing,
        first,
        last,
    };
    run(row, &trial, &mut told);
    asked.set(failing.stop_failing());
    if failing.blocks_in_use() > 0 {
        told.put("; kept memory");
    }
    told
}

/// Appends `front`, a result and a line end.
fn put_line(front: &str, told: &Page, page: &mut Page) {
    page.put(front);
    page.put_with_ending(told.text.as_str(), "\n")
}

/// Appends a line with the result of a row's call while the allocations from `first` to `last` fail. Returns the number of requested
/// allocations.
fn put_result(row: &Row<'_>, first: u64, last: u64, page: &mut Page) -> u64 {
    let asked = Cell::new(0);
    let told = tried(row, first, last, &asked, page);
    put_line("  ", &told, page);
    asked.get()
}

/// Prints the result of a row's call without failures.
pub(crate) fn put_ample(words: &str, page: &mut Page) {
    put_result(&Row::of_words(words), 1, 0, page);
}

/// Prints the result of a row's call without failures. Then prints it for each allocation, while this one and all later ones fail.
/// For the parser of attributes, each allocation also fails by itself.
pub(crate) fn put_results(words: &str, page: &mut Page) {
    let row = Row::of_words(words);
    for n in 1..=put_result(&row, 1, 0, page) {
        if row.of == "attributes" {
            put_result(&row, n, n, page);
        }
        put_result(&row, n, u64::MAX, page);
    }
}

/// Whether a result is a failed allocation that left all borrowed values unchanged.
fn is_failure(told: &str) -> bool {
    told.starts_with("out of memory") && !told.contains("; now") && !told.contains("; kept")
}

/// Appends a line with the result of a row's call while the allocations from `first` to `last` fail, unless `page` has that line.
/// `ample` is the result without failures.
fn put_failure(row: &Row<'_>, first: u64, last: u64, ample: &str, page: &mut Page) {
    let told = tried(row, first, last, &Cell::new(0), page);
    let mut line = Page::new(page.alloc);
    if told.text.as_str() == ample {
        line.put("  failed: the same answer\n")
    } else if is_failure(told.text.as_str()) {
        put_line("  failed: ", &told, &mut line)
    } else {
        put_line("  OTHER: ", &told, &mut line)
    }
    if !page.text.as_str().contains(line.text.as_str()) {
        page.put(line.text.as_str())
    }
}

/// Prints the result of a row's call without failures, and then while each allocation fails: this one only, and this one with all
/// later ones. Equal results are printed once.
pub(crate) fn put_failures(words: &str, page: &mut Page) {
    let row = Row::of_words(words);
    let asked = Cell::new(0);
    let ample = tried(&row, 1, 0, &asked, page);
    put_line("  ample: ", &ample, page);
    for n in 1..=asked.get().max(1) {
        put_failure(&row, n, n, ample.text.as_str(), page);
        put_failure(&row, n, u64::MAX, ample.text.as_str(), page)
    }
}

/// Prints the length of the value of a string, whose body is the text repeated ten thousand times. All allocations except the first
/// fail.
pub(crate) fn lent(text: &str, page: &mut Page) {
    let mut quoted = Page::new(page.alloc);
    quoted.put("\"");
    put_times(10_000, text, &mut quoted);
    quoted.put("\"");
    let row = Row {
        of: "LitStr",
        call: "value",
        text: quoted.text.as_str(),
    };
    let ample = tried(&row, 1, 0, &Cell::new(0), page);
    page.put("  ");
    page.put_number(ample.text.as_str().len(), " bytes\n");
    put_failure(&row, 2, u64::MAX, ample.text.as_str(), page)
}
