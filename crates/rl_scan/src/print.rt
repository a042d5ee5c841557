//! Prints the findings of a source: as lines of text, as JSON objects, or as annotations for GitHub.

ghost use Rattle.std.specs.Prelude.{◌≡◌};

use crate::context::Context;
use crate::escapes::{Before, Escapes, push_number, push_property, push_text};
use crate::failure::{Appended, Done};
use crate::finding::{Finding, Place};
use crate::job::{Form, Job};
use crate::output::Output;
use crate::position::Position;
use std::alloc::Allocator;
use std::io::Write;

/// The findings of a source: their number, and their output.
#[derive(Drop)]
pub(crate) struct Page<'p, 'a, A: Allocator, W> {
    pub alloc: A,
    pub job: &'p Job<'a>,
    pub source: &'p str,
    /// The number of findings.
    pub count: u64,
    pub output: Output<'p, A, W>,
    /// A buffer for a line.
    pub line: String<A>,
    /// The path of the source, or `None` for standard input.
    path: Option<&'p str>,
    /// The start of each finding's output, which has the path. It is empty before the first finding.
    head: String<A>,
    /// The position of the last finding.
    position: Position,
    /// The lines around findings, if they are printed.
    context: Option<Context<'p>>,
}

/// Returns a path without `./` at its start. A path such as `.//a` stays, since the rest of it would be absolute.
pub(crate) fn without_dot_slash(path: &str) -> &str {
    match path.strip_prefix("./") {
        Some(rest) => if rest.starts_with('/') { path } else { rest },
        None => path,
    }
}

impl<'p, 'a, A: Allocator + Copy, W: Write> Page<'p, 'a, A, W> {
    /// Creates the page of a source. The path `-` is standard input.
    pub(crate) fn new(
        alloc: A,
        job: &'p Job<'a>,
        path: &'p str,
        source: &'p str,
        stream: &'p mut W,
    ) -> Page<'p, 'a, A, W>
        ensures { result.source.now ≡ source.now }
    {
        let position = Position::first(source);
        Page {
            alloc,
            job,
            source,
            count: 0,
            output: Output::new(alloc, stream),
            line: String::new(alloc),
            path: if path == "-" { None } else { Some(path) },
            head: String::new(alloc),
            position,
            context: job.around.map(|it| Context::new(source, position.at, it)),
        }
    }

    /// Counts a finding and prints it, unless it is allowed.
    pub(crate) fn report_finding(&mut self, place: Place, finding: Finding<'_>) -> Done<A> {
        if self.job.allows(&finding) {
            return Ok(());
        }
        self.count = self.count.saturating_add(1);
        if !self.job.shows {
            return Ok(());
        }
        if self.head.is_empty() {
            self.push_head()?;
        }
        match self.job.form {
            Form::Text => self.print_text(place, &finding)?,
            Form::Json => self.print_object(place, &finding)?,
            Form::Github => self.print_annotation(place, &finding)?,
        }
        self.output.send_if_full()
    }

    /// Writes the output that isn't written yet. It must be called after the last finding.
    pub(crate) fn close(&mut self) -> Done<A> {
        if let Some(context) = &mut self.context {
            context.print_owed(&mut self.output, self.source.len())?;
        }
        self.output.send()
    }

    /// Returns the description of the characters before the words of a finding.
    pub(crate) fn within(&self) -> Before {
        match self.job.form {
            Form::Github => Before::Annotation,
            Form::Text | Form::Json => Before::Other,
        }
    }

    /// Makes the start of each finding's output.
    fn push_head(&mut self) -> Appended {
        let Some(path) = self.path else {
            return Ok(());
        };
        match self.job.form {
            Form::Text => {
                self.job.push_color(&mut self.head, "\x1b[35m")?;
                push_text(&mut self.head, Escapes::Literal, Before::Space, path)?;
                self.job.push_color(&mut self.head, "\x1b[0m")?;
                self.head.push(':')
            }
            Form::Json => {
                self.head.push_str("\"path\":\"")?;
                push_text(&mut self.head, Escapes::Json, Before::Other, path)?;
                self.head.push_str("\",")
            }
            Form::Github => {
                self.head.push_str("file=")?;
                push_property(&mut self.head, without_dot_slash(path))?;
                self.head.push(',')
            }
        }
    }

    /// Appends the path and the position of a finding as the start of a line of text.
    fn push_text_start(&mut self, place: Place) -> Appended {
        let out = &mut self.output.text;
        out.push_str(self.head.as_str())?;
        self.job.push_color(out, "\x1b[32m")?;
        if self.job.shows_lines(self.path.is_some()) {
            push_number(out, self.position.line)?;
            out.push(':')?;
            push_number(out, self.job.column(self.position))?;
        } else {
            push_number(out, place.lo)?;
            out.push_str("..")?;
            push_number(out, place.hi)?;
        }
        self.job.push_color(out, "\x1b[0m")?;
        out.push_str(if self.path.is_some() { ": " } else { " " })
    }

    /// Prints a finding as a line of text, with the source's lines around it.
    fn print_text(&mut self, place: Place, finding: &Finding<'_>) -> Done<A> {
        if self.context.is_some() || self.job.shows_lines(self.path.is_some()) {
            self.position = self.position.moved(self.source, place.lo);
        }
        if let Some(context) = &mut self.context {
            context.print_owed(&mut self.output, self.position.line_at)?;
        }
        self.push_text_start(place)?;
        if matches!(finding, Finding::Error(_)) {
            self.job.push_color(&mut self.output.text, "\x1b[1;31m")?;
            self.output.text.push_str("error")?;
            self.job.push_color(&mut self.output.text, "\x1b[0m")?;
            self.output.text.push_str(": ")?;
        }
        self.print_words(finding)?;
        self.output.text.push('\n')?;
        if let Some(context) = &mut self.context {
            let at = self.position.line_at;
            context.print_finding(&mut self.output, &mut self.line, at, place)?;
        }
        Ok(())
    }

    /// Prints a finding as a JSON object.
    fn print_object(&mut self, place: Place, finding: &Finding<'_>) -> Done<A> {
        let start = self.position.moved(self.source, place.lo);
        let end = start.moved(self.source, place.hi);
        self.position = start;
        self.output.text.push('{')?;
        self.output.text.push_str(self.head.as_str())?;
        for (name, number) in [
            ("\"lo\":", place.lo),
            (",\"hi\":", place.hi),
            (",\"line\":", start.line),
            (",\"column\":", start.column),
            (",\"end_line\":", end.line),
            (",\"end_column\":", end.column),
            (",\"byte_column\":", start.byte_column()),
            (",\"end_byte_column\":", end.byte_column()),
        ] {
            self.output.text.push_str(name)?;
            push_number(&mut self.output.text, number)?;
        }
        self.print_members(finding)?;
        self.output.text.push_str("}\n")?;
        Ok(())
    }

    /// Prints a finding as an annotation.
    fn print_annotation(&mut self, place: Place, finding: &Finding<'_>) -> Done<A> {
        let start = self.position.moved(self.source, place.lo);
        let end = start.moved(self.source, place.hi);
        self.position = start;
        let is_notice = matches!(finding, Finding::Literal(_));
        let lead = if is_notice { "::notice " } else { "::error " };
        self.output.text.push_str(lead)?;
        self.output.text.push_str(self.head.as_str())?;
        for (name, number) in [
            ("line=", start.line),
            (",endLine=", end.line),
            (",col=", self.job.column(start)),
            (",endColumn=", self.job.column(end)),
        ] {
            self.output.text.push_str(name)?;
            push_number(&mut self.output.text, number)?;
        }
        self.output.text.push_str(",title=")?;
        self.output.text.push_str(finding.id())?;
        self.output.text.push_str("::")?;
        self.print_words(finding)?;
        self.output.text.push('\n')?;
        Ok(())
    }
}
