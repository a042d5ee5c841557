//! Runs `rl_tool` with its arguments, and determines its exit status.

ghost use Rattle.std.specs.Prelude.{◌≡◌, MatchOption, Some, None};
ghost use Rattle.rl_program.specs.CommandLine.{is_help_word, is_version_word, text_of_word as word_text, requested_text as asked, EndsAs, EndsHelp};

use crate::command::Command;
use crate::exit::Ending;
use crate::program_error::ProgramError;
use crate::run::run;
use crate::streams::write_whole;
use std::alloc::Allocator;
use std::io::{Read, Write};

/// The line that explains the usage of `rl_tool`.
const USAGE: &str = "usage: rl_tool text|read|attr";

/// The output of `rl_tool --help`.
const HELP: &str = "usage: rl_tool text|read|attr
Prints the literals that standard input holds.

Each has a line: its kind, its value, and its suffix or `-`.

Commands:
  text  all of the input is one literal
  read  literals, with white space and comments between them
  attr  settings, `name = literal`, with commas between them; the name first

Options:
  -h, --help     this
  -V, --version  the version

Status:
  0  all lines were written
  1  the input was rejected
  2  wrong arguments, or a stream failed

Examples:
  printf '0x1F_u8 \"a\\\\n\"' | rl_tool read
";

/// The output of `rl_tool --version`.
const VERSION: &str = "rl_tool 0.2.0\n";

/// Whether an argument is `--help` or `-h`.
fn requests_help(word: &str) -> bool
    ensures { result ≡ is_help_word word.now }
{
    word == "--help" || word == "-h"
}

/// Whether an argument is `--version` or `-V`.
fn requests_version(word: &str) -> bool
    ensures { result ≡ is_version_word word.now }
{
    word == "--version" || word == "-V"
}

/// Returns the text that an argument requests, the help or the version, or `None` for another argument.
fn text_of_word(word: &str) -> Option<&'static str>
    ensures { MatchOption result (word_text word.now ≡ None) (λ text. word_text word.now ≡ Some text.now) }
{
    if requests_help(word) {
        return Some(HELP);
    }
    if requests_version(word) {
        return Some(VERSION);
    }
    None
}

/// Returns the text that the program's arguments request, the help or the version, or `None` for other arguments.
fn requested_text<A: Allocator>(args: &[String<A>]) -> Option<&'static str>
    ensures { MatchOption result (asked args.now ≡ None) (λ text. asked args.now ≡ Some text.now) }
{
    match args {
        [_, word] => text_of_word(word.as_str()),
        _ => None,
    }
}

/// Writes a text to the output, and returns the result of the call.
fn show_text<A: Allocator, W: Write>(out: &mut W, text: &str) -> Ending<ProgramError<A>>
    ensures { EndsHelp text.now (W.contents out.old) (W.contents out.new) result }
{
    match write_whole(out, text.as_bytes()) {
        Ok(()) => Ending::Done,
        Err(error) => Ending::Failed(error),
    }
}

/// Runs `rl_tool` with the arguments `args`, and returns the result of the call. The first argument is the program's name.
///
/// The second argument is a command for [`run`], or `--help` or `--version`, which write a text. Other arguments have the usage as
/// their result.
pub fn run_with_arguments<A: Allocator + Copy, R: Read, W: Write>(
    alloc: A,
    args: &[String<A>],
    input: &mut R,
    out: &mut W,
) -> Ending<ProgramError<A>>
    ensures { EndsAs args.now (R.remaining input.old)
        (W.contents out.old) (W.contents out.new) result }
{
    if let Some(text) = requested_text(args) {
        return show_text(out, text);
    }
    let Some(command) = Command::parse_arguments(args) else {
        return Ending::Usage(USAGE);
    };
    match run(alloc, command, input, out) {
        Ok(()) => Ending::Done,
        Err(error) => Ending::Failed(error),
    }
}
