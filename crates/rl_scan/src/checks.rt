//! Checks the values of options, and the whole command line.

use crate::args::{Args, is_among};
use crate::failure::Failure;
use crate::ids::check_id;
use crate::literal::Literal;
use crate::modes::Mode;
use crate::options::{OPTIONS, OptionRow, Value, row_named};
use rl_files::visible_text;
use std::alloc::Allocator;

/// The kinds of literals that `--find` searches.
const TEXT_KINDS: [&str; 5] = ["Str", "ByteStr", "CStr", "Byte", "Char"];

/// Whether a list of words, separated by commas, contains a word in any case.
pub(crate) fn list_contains(list: &str, word: &str) -> bool {
    list.split(',').any(|part| part.eq_ignore_ascii_case(word))
}

/// Whether the path is that of standard input.
pub(crate) fn is_input(path: &str) -> bool {
    path == "-" || path == "/dev/stdin"
}

/// Whether a text such as `skip or all` lists the word.
fn lists(text: &str, word: &str, in_any_case: bool) -> bool {
    for part in text.split(' ') {
        let listed = part.strip_suffix(',').unwrap_or(part);
        let is_equal = listed == word || in_any_case && listed.eq_ignore_ascii_case(word);
        if is_equal && listed != "or" {
            return true;
        }
    }
    false
}

/// Returns the number of lines in a value.
pub(crate) fn number_in(value: &str) -> Option<usize> {
    if !value.as_bytes().iter().all(|b| b.is_ascii_digit()) {
        return None;
    }
    match value.parse::<usize>() {
        Ok(number) => Some(number),
        Err(_) => None,
    }
}

/// Returns the extension in a value of `--extension`, without its dot.
pub(crate) fn extension_in(value: &str) -> &str {
    value.strip_prefix('.').unwrap_or(value)
}

/// Returns the part of a value that the option doesn't accept.
fn wrong_part<'a>(row: &OptionRow, value: &'a str) -> Option<&'a str> {
    let is_right = match row.value {
        Value::Word(words) => lists(words, value, false),
        Value::Kinds(kinds) => return value.split(',').find(|part| !lists(kinds, part, true)),
        Value::Number(_) => number_in(value).is_some(),
        Value::Integer(_) => Literal::parse(value).bare_integer().is_some(),
        Value::Extension(_) => {
            value != "." && !(value.contains(',') || value.contains('*') || value.contains('/'))
        }
        _ => true,
    };
    if is_right { None } else { Some(value) }
}

/// Checks a pattern of `--exclude`.
fn check_pattern<A: Allocator + Copy>(alloc: A, pattern: &str) -> Result<(), Failure<A>> {
    let shown = visible_text(alloc, pattern)?;
    if pattern.starts_with('!') || pattern.contains('[') || pattern.contains('\\') {
        return Err(Failure::Said(format!(in alloc;
            "invalid pattern '{shown}': --exclude supports *, ?, ** and /, but not [, \\ or ! at the start"
        )?));
    }
    if pattern.starts_with("./")
        || pattern.starts_with("../")
        || pattern == "/"
        || pattern.ends_with(' ')
    {
        return Err(Failure::Said(format!(in alloc;
            "the pattern '{shown}' of --exclude matches nothing: it is relative to a PATH, such as src or /src"
        )?));
    }
    Ok(())
}

/// Checks that a value of `--rule` is a single rule.
fn check_rule<A: Allocator + Copy>(alloc: A, rule: &str) -> Result<(), Failure<A>> {
    if rule.contains('\n') || rule.contains(',') {
        let shown = visible_text(alloc, rule)?;
        return Err(Failure::Said(format!(in alloc;
            "the value '{shown}' of --rule is more than one rule: pass --rule for each"
        )?));
    }
    Ok(())
}

pub(crate) fn check_value<A: Allocator + Copy>(
    alloc: A,
    row: &OptionRow,
    value: &str,
) -> Result<(), Failure<A>> {
    let (name, expected) = (row.name, row.expected());
    if let Some(part) = wrong_part(row, value) {
        let shown = visible_text(alloc, part)?;
        return Err(Failure::Said(format!(in alloc;
            "unknown value '{shown}' of {name}: expected {expected}"
        )?));
    }
    if value.is_empty() && row.has_value() {
        return Err(Failure::Said(format!(in alloc; "the value of {name} is empty")?));
    }
    if matches!(row.value, Value::Id(_) | Value::Rule(_)) && row_named(value).is_some() {
        return Err(Failure::Said(format!(in alloc;
            "{name} needs a value before {value}: {expected}"
        )?));
    }
    match row.value {
        Value::Pattern(_) => check_pattern(alloc, value),
        Value::Rule(_) => check_rule(alloc, value),
        _ => Ok(()),
    }
}

/// Returns the first option without an effect in the mode.
fn vain_option<A: Allocator + Copy>(args: &Args<'_, A>, mode: Mode) -> Option<OptionRow> {
    for row in &OPTIONS {
        let is_vain = mode != Mode::Page && !mode.is_among(row.modes) && args.has(row.name);
        if is_vain && !(row.name == "--format" && args.form() == "text") {
            return Some(*row);
        }
    }
    None
}

/// Returns the contradiction between options of the whole command line.
fn contradiction<A: Allocator + Copy>(args: &Args<'_, A>) -> Option<&'static str> {
    let searches_no_text = match args.last("--only") {
        Some(list) => !TEXT_KINDS.iter().any(|kind| list_contains(list, kind)),
        None => false,
    };
    if args.has("--find") && searches_no_text {
        return Some(
            "-e, --find searches only Str, ByteStr, CStr, Byte and Char, and --only has none of these kinds",
        );
    }
    let prints_no_form = args.has("--files")
        || args.has("--count")
        || args.has("--files-with-matches");
    if args.form() != "text" && prints_no_form {
        return Some(
            "--json and --format json, github can't be used with -c, --count, -l, --files-with-matches, --files",
        );
    }
    if args.has("--stats") && args.has("--files") {
        return Some("--stats can't be used with --files, which reads none");
    }
    None
}

/// Whether standard input is read as a source or as a list of paths.
fn reads_input<A: Allocator + Copy>(args: &Args<'_, A>) -> bool {
    let mut is_read = args.paths.is_empty() && !args.has("--files-from");
    for path in args.paths.as_slice() {
        is_read = is_read || is_input(path);
    }
    for given in args.given.as_slice() {
        is_read = is_read || given.name == "--files-from" && is_input(given.value);
    }
    is_read
}

/// Returns the contradiction between options that select a style and other arguments.
fn style_contradiction<A: Allocator + Copy>(args: &Args<'_, A>) -> Option<&'static str> {
    let style = args.last("--style")?;
    if is_input(style) && reads_input(args) {
        return Some(
            "--style - reads standard input, so pass a PATH or --files-from FILE other than -",
        );
    }
    if args.has("--rule") {
        return Some("--rule can't be used with --style");
    }
    None
}

/// Checks the whole command line.
///
/// # Errors
///
/// Returns an error if options contradict each other, if an option has no effect in the mode, or if an allocation fails.
pub(crate) fn check_command_line<A: Allocator + Copy>(
    alloc: A,
    args: &Args<'_, A>,
) -> Result<(), Failure<A>> {
    if let Some(words) = contradiction(args) {
        return Err(Failure::said(alloc, words));
    }
    let mode = args.mode();
    if let Some(row) = vain_option(args, mode) {
        let (name, words, hint) = (row.name, mode.words(), row.modes.hint);
        return Err(Failure::Said(format!(in alloc; "{name} has no effect {words}: {hint}")?));
    }
    if let Some(words) = style_contradiction(args) {
        return Err(Failure::said(alloc, words));
    }
    for given in args.given.as_slice() {
        if given.name == "--allow" {
            check_id(alloc, mode, given.value)?;
        }
    }
    Ok(())
}
