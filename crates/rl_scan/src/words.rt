//! Prints a finding itself: as words in a line, or as members of a JSON object.

use crate::escapes::Escapes;
use crate::failure::{Appended, Done};
use crate::finding::{Fault, Finding};
use crate::hidden::bidi_name;
use crate::literal::Literal;
use crate::print::Page;
use rl_program::label_of;
use rl_restyle::Rule;
use rl_syntax::Kind;
use std::alloc::Allocator;
use std::io::Write;

/// The maximum length, in bytes, of the text of an invalid literal in JSON.
const LONGEST: usize = 1024;

/// Appends the names of rules with a separator between them.
fn push_names<A: Allocator>(out: &mut String<A>, separator: &str, rules: &[Rule]) -> Appended {
    let mut is_first = true;
    for rule in rules {
        if !is_first {
            out.push_str(separator)?;
        }
        out.push_str(rule.name())?;
        is_first = false;
    }
    Ok(())
}

/// Returns the digits in the line of a number, which is its kind, its digits, and its suffix.
fn digits_in(line: &str) -> &str {
    let (_, rest) = line.split_once(' ').unwrap_or(("", ""));
    let (digits, _) = rest.split_once(' ').unwrap_or((rest, ""));
    digits
}

impl<'p, 'a, A: Allocator + Copy, W: Write> Page<'p, 'a, A, W> {
    /// Prints the words of a finding in a line.
    pub(crate) fn print_words(&mut self, finding: &Finding<'_>) -> Done<A> {
        let (within, escapes) = (self.within(), Escapes::Literal);
        match finding {
            Finding::Literal(literal) if self.job.as_written => {
                self.output.print(escapes, within, literal.text())
            }
            Finding::Literal(literal) => {
                self.line.clear();
                literal.push_line(self.alloc, &mut self.line)?;
                let line = self.line.as_str();
                self.output
                    .print(escapes, within, line.strip_suffix('\n').unwrap_or(line))
            }
            Finding::Error(fault) => {
                self.output.text.push_str(fault.message)?;
                if fault.piece.is_empty() && fault.literal.is_none() {
                    return Ok(());
                }
                self.output.text.push_str(": ")?;
                self.output.print(escapes, within, fault.piece)
            }
            Finding::Hidden(c) => {
                let (code, name) = (*c as u32, bidi_name(*c));
                write!(self.output.text, "U+{code:04X}{name}")?;
                Ok(())
            }
            Finding::Change { old, new, rules } => {
                self.output.print(Escapes::Numbers, within, old)?;
                self.output.text.push_str(" -> ")?;
                self.output.print(Escapes::Numbers, within, new)?;
                self.output.text.push_str(" [")?;
                push_names(&mut self.output.text, ", ", rules)?;
                self.output.text.push(']')?;
                Ok(())
            }
        }
    }

    /// Prints the value of a literal as JSON.
    fn print_value(&mut self, literal: &Literal<'_>) -> Done<A> {
        if let (Some(Kind::Str), Some((_, value))) = (literal.kind(), literal.plain_value()) {
            return self.output.print_json("", value);
        }
        match literal.kind() {
            None => self.output.text.push_str("null")?,
            Some(Kind::Bool) => self.output.text.push_str(literal.text())?,
            Some(Kind::Int | Kind::Float) => {
                self.line.clear();
                literal.push_line(self.alloc, &mut self.line)?;
                self.output.print_json("", digits_in(self.line.as_str()))?;
            }
            Some(Kind::Str | Kind::Char) => {
                let value = literal.value(self.alloc)?;
                let text = std::str::from_utf8(value.as_slice()).unwrap_or("");
                self.output.print_json("", text)?;
            }
            Some(Kind::ByteStr | Kind::CStr | Kind::Byte) => {
                self.output
                    .print_array(literal.value(self.alloc)?.as_slice())?;
            }
        }
        Ok(())
    }

    /// Prints the members of an error.
    fn print_fault(&mut self, fault: &Fault<'_>) -> Done<A> {
        match fault.literal {
            Some(text) if text.len() > LONGEST => self.output.text.push_str(",\"text\":null")?,
            Some(text) => self.output.print_json(",\"text\":", text)?,
            None => {}
        }
        self.output.print_json(",\"id\":", fault.id)?;
        self.output.print_json(",\"error\":", fault.message)?;
        if fault.piece.is_empty() && fault.literal.is_none() {
            return Ok(());
        }
        self.output.print_json(",\"piece\":", fault.piece)
    }

    /// Prints the members of a finding in a JSON object.
    pub(crate) fn print_members(&mut self, finding: &Finding<'_>) -> Done<A> {
        match finding {
            Finding::Literal(literal) => {
                self.output
                    .print_json(",\"kind\":", label_of(literal.kind()))?;
                self.output.print_json(",\"text\":", literal.text())?;
                self.output.text.push_str(",\"value\":")?;
                self.print_value(literal)?;
                self.output.print_json(",\"suffix\":", literal.suffix())
            }
            Finding::Error(fault) => self.print_fault(fault),
            Finding::Hidden(c) => {
                let (id, code, name) = (finding.id(), *c as u32, bidi_name(*c));
                write!(
                    self.output.text,
                    ",\"id\":\"{id}\",\"hidden\":\"U+{code:04X}{name}\""
                )?;
                Ok(())
            }
            Finding::Change { old, new, rules } => {
                self.output.print_json(",\"text\":", old)?;
                self.output.print_json(",\"new\":", new)?;
                self.output.text.push_str(",\"rules\":[")?;
                if !rules.is_empty() {
                    self.output.text.push('"')?;
                    push_names(&mut self.output.text, "\",\"", rules)?;
                    self.output.text.push('"')?;
                }
                self.output.text.push(']')?;
                Ok(())
            }
        }
    }
}
