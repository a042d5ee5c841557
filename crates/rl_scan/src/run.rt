//! Runs `rl_scan`: visits files, prints their findings, and determines the exit status.

ghost use Rattle.std.specs.Prelude.{◌≡◌, IfOk, IfSome, IsFalse, IsTrue};
ghost use Rattle.rl_files.specs.Trees.{string_texts};
ghost use Rattle.rl_files.specs.Walks.{given_waypoints, visited};
ghost use Rattle.rl_files.specs.declared.tree.PathError.TheVariants.{PathNotUtf8};
ghost use Rattle.rl_scan.specs.Accepted.{AcceptsAll, AreAccepted, IsAcceptedFile, IsAcceptedVisit};
ghost use Rattle.rl_scan.specs.Fixes.{Fixes, FixesSource};
ghost use Rattle.rl_scan.specs.declared.modes.Mode.TheVariants.{Bad};

use crate::args::{Args, without_mark};
use crate::errors::{both, report_end};
use crate::escapes::{Before, Escapes, push_text};
use crate::failure::{Appended, Done, Failure};
use crate::findings::report_findings;
use crate::job::{Job, Lists};
use crate::literal::integers_of;
use crate::modes::Mode;
use crate::options::row_named;
use crate::pages::page_of;
use crate::paths::{extensions_of, paths_of};
use crate::print::Page;
use crate::stats::Tally;
use crate::style::{kinds_of, style_of};
use rl_files::{PathError, Replace, Selection, Tree, Visit, Walk, WalkError};
use rl_program::{Ending, write_bytes};
use std::alloc::Allocator;
use std::io::Write;

/// The standard streams, and the properties of them that a call depends on.
#[derive(Drop)]
pub struct Console<'o, 'e, W, E> {
    /// Whether standard input isn't a file, a pipe or a socket.
    pub lacks_input: bool,
    /// Whether standard output displays colours.
    pub has_colors: bool,
    /// Standard output.
    pub out: &'o mut W,
    /// Standard error.
    pub err: &'e mut E,
}

/// A call that is being run: its job, its streams, and its counts.
#[derive(Drop)]
pub(crate) struct Call<'o, 'e, 'a, A: Allocator, W, E> {
    pub alloc: A,
    pub job: Job<'a>,
    pub out: &'o mut W,
    pub err: &'e mut E,
    pub tally: Tally,
}

impl<'o, 'e, 'a, A: Allocator + Copy, W: Write, E: Write> Call<'o, 'e, 'a, A, W, E> {
    /// Prints a line about a file on standard error, after the program's name and the file's path.
    pub(crate) fn complain(&mut self, path: &str, words: &str) -> Done<A> {
        if !self.job.messages {
            return Ok(());
        }
        let mut line = String::from_str(self.alloc, "rl_scan: ")?;
        push_text(&mut line, Escapes::Literal, Before::Other, path)?;
        line.push_str(": ")?;
        line.push_str(words)?;
        line.push('\n')?;
        write_bytes(self.err, line.as_bytes())?;
        Ok(())
    }

    /// Prints that a path can't be read or written.
    pub(crate) fn complain_why(&mut self, path: &str, why: PathError) -> Done<A> {
        let mut words = format!(in self.alloc; "{why}")?;
        if matches!(why, PathError::NotFound) && !path.is_empty() {
            let option = format!(in self.alloc; "--{path}")?;
            if row_named(option.as_str()).is_some() {
                write!(words, ": did you mean --{path}?")?;
            } else if self.job.may_be_text && !path.contains('/') && !path.contains('.') {
                words.push_str(": to search for a text, use --find TEXT")?;
            }
        }
        self.complain(without_mark(path), words.as_str())
    }

    /// Prints that a path can't be read, and counts it. A path that isn't UTF-8 is only skipped. Returns whether it is.
    fn report_unread(&mut self, path: &str, why: PathError) -> Result<bool, Failure<A>>
        ensures skipped { IfOk result (λ skipped. IsTrue skipped → why ≡ PathNotUtf8) }
    {
        self.complain_why(path, why)?;
        if matches!(why, PathError::PathNotUtf8) {
            return Ok(true);
        }
        self.tally.visited = self.tally.visited.saturating_add(1);
        self.tally.errors = self.tally.errors.saturating_add(1);
        Ok(false)
    }

    /// Appends a path of `--files`, `-l` or `-c`, with a mark after it.
    fn push_file(&self, out: &mut String<A>, path: &str, mark: char) -> Appended {
        self.job.push_color(out, "\x1b[35m")?;
        if self.job.nul {
            out.push_str(path)?;
        } else {
            push_text(out, Escapes::Literal, Before::Space, without_mark(path))?;
        }
        self.job.push_color(out, "\x1b[0m")?;
        out.push(if self.job.nul { '\0' } else { mark })
    }

    /// Prints the path of a file, or the number of its findings.
    fn print_count(&mut self, path: &str, count: u64) -> Done<A> {
        let mut line = String::new(self.alloc);
        let is_input = path == "-";
        let is_fix = self.job.mode == Mode::Fix && !is_input && !self.job.quiet;
        if self.job.counts || is_fix {
            if !is_input {
                self.push_file(&mut line, path, ':')?;
            }
            writeln!(line, "{count}")?;
        } else if self.job.names {
            self.push_file(&mut line, path, '\n')?;
        }
        write_bytes(self.out, line.as_bytes())?;
        Ok(())
    }

    /// Prints the findings of a source. Returns their number, and whether `--bad` accepts all literals.
    fn print_findings<'t>(
        &mut self,
        job: Job<'a>,
        path: &'t str,
        source: &'t str,
    ) -> Result<(u64, bool), Failure<A>>
        ensures { IfOk result (λ r. IsTrue r.1 → job.entry.mode ≡ Bad → AreAccepted job.entry source.now) }
    {
        let mut page = Page::new(self.alloc, &job, path, source, self.out);
        let (are_accepted, end) = report_findings(&mut page, job)?;
        page.close()?;
        let count = page.count;
        drop(page);
        if let Some(error) = end {
            let job = job.for_errors();
            let mut errors = Page::new(self.alloc, &job, path, source, self.err);
            report_end(&mut errors, job, error)?;
            errors.close()?;
            drop(errors);
            self.tally.errors = self.tally.errors.saturating_add(1);
        }
        Ok((count, are_accepted))
    }

    /// Counts the findings of a source, and prints their number or the path.
    fn add_findings(&mut self, path: &str, count: u64) -> Done<A> {
        if count == 0 {
            return Ok(());
        }
        self.tally.with_findings = self.tally.with_findings.saturating_add(1);
        self.tally.findings = self.tally.findings.saturating_add(count);
        self.print_count(path, count)
    }

    /// Reads a source, prints its findings, and counts them. Returns whether `--bad` accepts all literals.
    fn report_source<'t, F: Replace>(
        &mut self,
        job: Job<'a>,
        files: &mut F,
        path: &'t str,
        source: &'t str,
    ) -> Result<bool, Failure<A>>
        ensures fixes { FixesSource path.now source.now (F.handed files.old) (F.handed files.new) }
        ensures accepted { IfOk result (λ a. IsTrue a → job.entry.mode ≡ Bad → AreAccepted job.entry source.now) }
    {
        self.tally.visited = self.tally.visited.saturating_add(1);
        self.tally.read = self.tally.read.saturating_add(1);
        if job.rewrites() {
            let count = self.rewrite(files, path, source)?;
            self.add_findings(path, count)?;
            return Ok(false);
        }
        let (count, are_accepted) = self.print_findings(job, path, source)?;
        self.add_findings(path, count)?;
        Ok(are_accepted)
    }

    /// Reads a file, and prints and counts its findings. `--files` prints only the path. Returns whether `--bad` accepts all literals.
    fn report_file<T: Tree, F: Replace>(
        &mut self,
        job: Job<'a>,
        tree: &T,
        files: &mut F,
        path: &str,
    ) -> Result<bool, Failure<A>>
        ensures fixes { Fixes (T.holds tree.now) (F.handed files.old) (F.handed files.new) }
        ensures accepted { IfOk result (λ a. IsTrue a → job.entry.mode ≡ Bad
            → IfSome (T.holds tree.now) (λ w. IsAcceptedFile job.entry w path.now)) }
    {
        if job.lists_files {
            self.tally.visited = self.tally.visited.saturating_add(1);
            if self.job.quiet {
                return Ok(false);
            }
            let mut line = String::new(self.alloc);
            self.push_file(&mut line, path, '\n')?;
            write_bytes(self.out, line.as_bytes())?;
            return Ok(false);
        }
        let bytes = match tree.bytes(self.alloc, path) {
            Ok(bytes) => bytes,
            Err(why) => return self.report_unread(path, why),
        };
        match std::str::from_utf8(bytes.as_slice()) {
            Ok(source) => self.report_source(job, files, path, source),
            Err(error) => self.report_unread(path, PathError::NotUtf8(error.valid_up_to())),
        }
    }

    /// Reads the file that a walk returns, or prints why it can't be read. Returns whether `--bad` accepts all literals.
    fn report_visit<T: Tree, F: Replace>(
        &mut self,
        job: Job<'a>,
        tree: &T,
        files: &mut F,
        visit: Visit<A>,
    ) -> Result<bool, Failure<A>>
        ensures fixes { Fixes (T.holds tree.now) (F.handed files.old) (F.handed files.new) }
        ensures accepted { IfOk result (λ a. IsTrue a → job.entry.mode ≡ Bad
            → IfSome (T.holds tree.now) (λ w. IsAcceptedVisit job.entry w (visited visit))) }
    {
        match visit {
            Visit::File(path) => self.report_file(job, tree, files, path.as_str()),
            Visit::Failed(path, why) => self.report_unread(path.as_str(), why),
        }
    }

    /// Prints the findings of all files of a walk, and counts them. Returns whether `--bad` accepts all literals.
    #[tactic(auto, using(crate::proofs::FixLemmas::fixes_none, crate::proofs::FixLemmas::fixes_both))]
    fn report_files<T: Tree, F: Replace>(
        &mut self,
        tree: &T,
        files: &mut F,
        walk: &mut Walk<A>,
        selection: Selection<'_>,
    ) -> Result<bool, Failure<A>>
        ensures fixes { Fixes (T.holds tree.now) (F.handed files.old) (F.handed files.new) }
        ensures accepted { IfOk result (λ a. IsTrue a → self.old.job.mode ≡ Bad
            → AcceptsAll self.old.job (T.holds tree.now) selection.entry walk.old) }
    {
        let job = self.job;
        let mut are_accepted = true;
        for _ in 0..u64::MAX {
            match walk.next(self.alloc, selection, tree) {
                Ok(None) => return Ok(are_accepted),
                Ok(Some(visit)) => {
                    let is_accepted = self.report_visit(job, tree, files, visit)?;
                    are_accepted = both(is_accepted, are_accepted);
                }
                Err(WalkError::OutOfMemory) => return Err(Failure::Memory),
                Err(WalkError::TooManyDirectories) => break,
            }
        }
        Err(Failure::TooManyDirectories)
    }
}

/// Prints the findings of the selected files at `paths`, and the totals. Returns the exit status.
fn run_walk<A: Allocator + Copy, T: Tree, W: Write, E: Write, F: Replace>(
    call: &mut Call<'_, '_, '_, A, W, E>,
    selection: Selection<'_>,
    tree: &T,
    files: &mut F,
    paths: &mut Vec<String<A>, A>,
) -> Result<u8, Failure<A>>
    ensures fixes { Fixes (T.holds tree.now) (F.handed files.old) (F.handed files.new) }
    // With `--bad`, the status is 0 only if all literals of all files are accepted.
    ensures accepted { IfOk result (λ status. status ≡ 0 → call.old.job.mode ≡ Bad → IsFalse call.old.job.lists_files
        → AcceptsAll call.old.job (T.holds tree.now) selection.entry (given_waypoints (string_texts paths.old.items))) }
{
    let (alloc, job, has_paths) = (call.alloc, call.job, !paths.is_empty());
    let mut walk = Walk::of_paths(alloc, paths)?;
    let are_accepted = match call.report_files(tree, files, &mut walk, selection) {
        Ok(are_accepted) => are_accepted,
        Err(Failure::Closed) if job.mode == Mode::Fix => return Err(Failure::Write),
        Err(failure) => return Err(failure),
    };
    if job.stats {
        call.print_totals()?;
    }
    if has_paths && call.tally.visited == 0 {
        return Err(Failure::said(alloc, "there was no file to read"));
    }
    if call.tally.errors > 0 {
        return Ok(2);
    }
    Ok(job.status(call.tally.findings, are_accepted))
}

/// Prints the findings of the files at `paths`, and the totals. Returns the exit status.
fn run_call<A: Allocator + Copy, T: Tree, W: Write, E: Write, F: Replace>(
    call: &mut Call<'_, '_, '_, A, W, E>,
    args: &Args<'_, A>,
    tree: &T,
    files: &mut F,
    paths: &mut Vec<String<A>, A>,
) -> Result<u8, Failure<A>>
    ensures fixes { Fixes (T.holds tree.now) (F.handed files.old) (F.handed files.new) }
{
    let extensions = extensions_of(call.alloc, args)?;
    let excludes = args.all(call.alloc, "--exclude")?;
    let selection = Selection {
        all: args.has("--all"),
        extensions: extensions.as_slice(),
        excludes: excludes.as_slice(),
    };
    run_walk(call, selection, tree, files, paths)
}

/// Runs a call with the given options. Returns its exit status.
fn run_options<A: Allocator + Copy, T: Tree, W: Write, E: Write, F: Replace>(
    alloc: A,
    args: &Args<'_, A>,
    console: Console<'_, '_, W, E>,
    tree: &T,
    files: &mut F,
) -> Result<u8, Failure<A>>
    ensures fixes { Fixes (T.holds tree.now) (F.handed files.old) (F.handed files.new) }
{
    let style = style_of(alloc, args, tree)?;
    let (finds, allowed) = (args.all(alloc, "--find")?, args.all(alloc, "--allow")?);
    let numbers = integers_of(alloc, args.all(alloc, "--number")?.as_slice())?;
    let kinds = kinds_of(alloc, args.last("--only").unwrap_or(""))?;
    let lists = Lists {
        finds: finds.as_slice(),
        numbers: numbers.as_slice(),
        allowed: allowed.as_slice(),
        kinds: kinds.as_slice(),
    };
    let Console {
        lacks_input,
        has_colors,
        out,
        err,
    } = console;
    let job = Job::of(args, lists, style, has_colors);
    let mut paths = paths_of(alloc, args, tree, lacks_input || job.lists_files)?;
    let mut call = Call {
        alloc,
        job,
        out,
        err,
        tally: Tally::none(),
    };
    run_call(&mut call, args, tree, files, &mut paths)
}

/// Parses the arguments and runs the call. Returns its exit status.
fn parse_and_run<A: Allocator + Copy, T: Tree, W: Write, E: Write, F: Replace>(
    alloc: A,
    words: &[String<A>],
    console: Console<'_, '_, W, E>,
    tree: &T,
    files: &mut F,
) -> Result<u8, Failure<A>>
    ensures fixes { Fixes (T.holds tree.now) (F.handed files.old) (F.handed files.new) }
{
    let args = Args::parse(alloc, words)?;
    if args.mode() == Mode::Page {
        write_bytes(console.out, page_of(alloc, &args)?.as_bytes())?;
        return Ok(0);
    }
    run_options(alloc, &args, console, tree, files)
}

/// Runs `rl_scan` with the arguments `args`, of which the first is the program's name, and returns the result of the call. `tree` has
/// the files that are read, and `files` replaces files.
pub fn run_with_arguments<A: Allocator + Copy, T: Tree, W: Write, E: Write, F: Replace>(
    alloc: A,
    args: &[String<A>],
    console: Console<'_, '_, W, E>,
    tree: &T,
    files: &mut F,
) -> Ending<Failure<A>>
    ensures fixes { Fixes (T.holds tree.now) (F.handed files.old) (F.handed files.new) }
{
    let words = match args {
        [_, words @ ..] => words,
        [] => return Ending::Failed(Failure::NoArguments),
    };
    match parse_and_run(alloc, words, console, tree, files) {
        Ok(0) => Ending::Done,
        Ok(1) => Ending::FoundBad,
        Ok(_) => Ending::Reported,
        Err(Failure::Closed) => Ending::Closed,
        Err(failure) => Ending::Failed(failure),
    }
}
