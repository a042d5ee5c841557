//! The work of a call of `rl_scan` on each file.

ghost use Rattle.std.specs.Prelude.{◌≡◌, IsFalse, IsTrue};
ghost use Rattle.rl_scan.specs.Accepted.{Allows};
ghost use Rattle.rl_scan.specs.declared.modes.Mode.TheVariants.{Bad};

use crate::args::{Args, is_among};
use crate::checks::number_in;
use crate::context::Around;
use crate::failure::Appended;
use crate::finding::Finding;
use crate::ids::character_of;
use crate::modes::{Mode, REWRITING};
use crate::position::Position;
use rl_flaws::Edition;
use rl_restyle::{Choice, Macros};
use rl_style::Style;
use rl_syntax::Kind;
use std::alloc::Allocator;

/// The format of findings.
#[derive(Clone, Copy)]
pub(crate) enum Form {
    Text,
    Json,
    Github,
}

/// The values of options that may be repeated.
#[derive(Clone, Copy)]
pub(crate) struct Lists<'a> {
    /// The texts to search for.
    pub finds: &'a [&'a str],
    /// The integers to search for.
    pub numbers: &'a [u128],
    /// The identifiers of findings that don't count.
    pub allowed: &'a [&'a str],
    /// The kinds of the literals that count, or none if all count. `None` is a literal without a value.
    pub kinds: &'a [Option<Kind>],
}

/// The work of a call of `rl_scan` on each file.
#[derive(Clone, Copy)]
pub(crate) struct Job<'a> {
    pub mode: Mode,
    pub lists: Lists<'a>,
    /// Whether any suffix and any value is accepted.
    pub any_suffix: bool,
    /// Whether stray characters are errors.
    pub strays: bool,
    /// Whether any suffix and any value is accepted in macro calls.
    pub follows: bool,
    pub edition: Edition,
    /// Whether a search ignores the case of ASCII letters.
    pub ignores_case: bool,
    pub whole_words: bool,
    /// Whether literals are printed as written.
    pub as_written: bool,
    pub form: Form,
    pub color: bool,
    /// The numbers of lines around each finding, if its line is printed.
    pub around: Option<Around>,
    pub lines: bool,
    pub bytes: bool,
    /// Whether columns are counted in bytes.
    pub byte_columns: bool,
    /// Whether findings are printed.
    pub shows: bool,
    pub quiet: bool,
    pub counts: bool,
    pub names: bool,
    pub nul: bool,
    pub lists_files: bool,
    pub messages: bool,
    pub stats: bool,
    /// Whether a text may have been passed as a path.
    pub may_be_text: bool,
    pub style: Style,
    pub macros: Macros,
}

fn edition_of(year: Option<&str>) -> Edition {
    match year {
        Some("2015") => Edition::E2015,
        Some("2018") => Edition::E2018,
        Some("2024") => Edition::E2024,
        _ => Edition::E2021,
    }
}

/// Returns the number of lines that an option requests.
fn lines_of<A: Allocator + Copy>(args: &Args<'_, A>, name: &str) -> Option<usize> {
    number_in(args.last(name)?)
}

/// Returns the numbers of lines around findings that a call requests.
fn around_of<A: Allocator + Copy>(args: &Args<'_, A>) -> Option<Around> {
    let both = lines_of(args, "--context");
    let before = lines_of(args, "--before-context").or(both);
    let after = lines_of(args, "--after-context").or(both);
    if before.is_none() && after.is_none() {
        return None;
    }
    let (before, after) = (before.unwrap_or(0), after.unwrap_or(0));
    Some(Around { before, after })
}

impl<'a> Job<'a> {
    /// Reads the options of a call.
    pub(crate) fn of<A: Allocator + Copy>(
        args: &Args<'_, A>,
        lists: Lists<'a>,
        style: Style,
        has_colors: bool,
    ) -> Job<'a> {
        let mode = args.mode();
        let all = args.last("--macros") == Some("all");
        let macros = if all { Macros::All } else { Macros::Skip };
        let (quiet, counts) = (args.has("--quiet"), args.has("--count"));
        let names = args.has("--files-with-matches");
        Job {
            mode,
            lists,
            any_suffix: args.has("--any-suffix"),
            strays: args.has("--no-stray"),
            follows: mode == Mode::Bad && !all,
            edition: edition_of(args.last("--edition")),
            ignores_case: args.has("--ignore-case"),
            whole_words: args.has("--word"),
            as_written: args.has("--text"),
            form: match args.form() {
                "json" => Form::Json,
                "github" => Form::Github,
                _ => Form::Text,
            },
            color: match args.last("--color") {
                Some("always") => true,
                Some("never") => false,
                _ => has_colors,
            },
            around: around_of(args),
            lines: args.has("--lines"),
            bytes: args.has("--bytes"),
            byte_columns: args.last("--columns") == Some("bytes"),
            shows: !(quiet || counts || names || mode == Mode::Fix || mode == Mode::Diff),
            quiet,
            counts,
            names,
            nul: args.has("--null"),
            lists_files: args.has("--files"),
            messages: !args.has("--no-messages"),
            stats: args.has("--stats"),
            may_be_text: mode == Mode::List && args.last("--files-from").is_none(),
            style,
            macros,
        }
    }

    /// Whether literals are rewritten.
    pub(crate) fn rewrites(&self) -> bool {
        self.mode.is_among(REWRITING)
    }

    /// Returns the choice of the literals that are rewritten.
    pub(crate) fn choice(&self) -> Choice<'a> {
        let (macros, kinds) = (self.macros, self.lists.kinds);
        let kinds = if kinds.is_empty() { None } else { Some(kinds) };
        Choice { macros, kinds }
    }

    /// Whether the positions in a file, or else in standard input, are lines and columns.
    pub(crate) fn shows_lines(&self, is_file: bool) -> bool {
        !self.bytes && (self.lines || is_file)
    }

    /// Returns the column of a position, in characters or in bytes.
    pub(crate) fn column(&self, position: Position) -> usize {
        if self.byte_columns {
            position.byte_column()
        } else {
            position.column
        }
    }

    /// Appends the code of a colour, if the output has colours.
    pub(crate) fn push_color<A: Allocator>(&self, out: &mut String<A>, code: &str) -> Appended {
        if self.color {
            out.push_str(code)
        } else {
            Ok(())
        }
    }

    /// Whether errors with an identifier don't count.
    pub(crate) fn allows_error(&self, id: &str) -> bool
        ensures { IsTrue result → Allows self.now id.now }
    {
        is_among(self.lists.allowed, id)
    }

    /// Whether a finding doesn't count.
    pub(crate) fn allows(&self, finding: &Finding<'_>) -> bool {
        let allowed = self.lists.allowed;
        if allowed.is_empty() {
            return false;
        }
        if is_among(allowed, finding.id()) {
            return true;
        }
        match finding {
            Finding::Hidden(c) => allowed.iter().any(|id| character_of(id) == Some(*c)),
            _ => false,
        }
    }

    /// Whether literals of a kind count.
    pub(crate) fn wants(&self, kind: Option<Kind>) -> bool {
        let kinds = self.lists.kinds;
        kinds.is_empty() || kinds.iter().any(|wanted| *wanted == kind)
    }

    /// Returns the job for errors of a file, which are lines of text. The types of literals aren't checked, but stray characters
    /// are errors.
    pub(crate) fn for_errors(&self) -> Job<'a> {
        let mut job = *self;
        job.form = Form::Text;
        job.color = false;
        job.around = None;
        job.shows = self.messages;
        job.any_suffix = true;
        job.strays = true;
        job
    }

    /// Returns the exit status of a run without errors. `are_accepted` tells whether `--bad` accepts all literals.
    pub(crate) fn status(&self, findings: u64, are_accepted: bool) -> u8
        ensures { result ≡ 0 → self.now.mode ≡ Bad → IsFalse self.now.lists_files → IsTrue are_accepted }
    {
        if self.lists_files {
            return 0;
        }
        match self.mode {
            Mode::Bad => if findings == 0 && are_accepted { 0 } else { 1 },
            Mode::Invisible | Mode::Check | Mode::Diff => if findings == 0 { 0 } else { 1 },
            Mode::Find => if findings == 0 { 1 } else { 0 },
            _ => 0,
        }
    }
}
