//! Finds what a call prints of a source: its literals, its errors, or its invisible characters.

ghost use Rattle.std.specs.Prelude.{◌≡◌, IfOk, IsTrue};
ghost use Rattle.rl_scan.specs.Accepted.{AreAccepted};
ghost use Rattle.rl_scan.specs.declared.modes.Mode.TheVariants.{Bad};

use crate::errors::{next_token, report_errors};
use crate::failure::{Done, Failure};
use crate::finding::{Finding, Place};
use crate::hidden::report_hidden;
use crate::job::Job;
use crate::literal::Literal;
use crate::modes::Mode;
use crate::print::Page;
use crate::search::found_in;
use rl_lexer::{LexError, LexKind, SourceForm, SourceToken, Sources};
use std::alloc::Allocator;
use std::io::Write;

impl<'p, 'a, A: Allocator + Copy, W: Write> Page<'p, 'a, A, W> {
    /// Reports a literal if the call lists it.
    fn report_literal(&mut self, token: SourceToken<'_>) -> Done<A> {
        let literal = Literal::parse(token.text);
        if !self.job.wants(literal.kind()) {
            return Ok(());
        }
        let (lo, hi) = (token.lo, token.hi);
        if self.job.mode != Mode::Find {
            return self.report_finding(Place { lo, hi }, Finding::Literal(literal));
        }
        match found_in(self.alloc, self.job, &literal)? {
            Some(found) => self.report_finding(found.after(lo), Finding::Literal(literal)),
            None => Ok(()),
        }
    }

    /// Reports the literals of a source. Returns the error that ends the source.
    fn report_literals(&mut self) -> Result<Option<LexError>, Failure<A>> {
        let mut tokens = Sources::new(self.source);
        for _ in 0..u64::MAX {
            let Some(token) = next_token(&mut tokens, self.job.strays) else {
                break;
            };
            if token.is_literal() {
                self.report_literal(token)?;
            } else if self.job.strays && matches!(token.form, SourceForm::Stray) {
                return Ok(Some(LexError::new(LexKind::StrayCharacter, token.lo)));
            }
        }
        Ok(tokens.error())
    }
}

/// Reports the findings of a source. Returns whether `--bad` accepts its literals, and the error that ends the source, unless it is a
/// finding.
pub(crate) fn report_findings<A: Allocator + Copy, W: Write>(
    page: &mut Page<'_, '_, A, W>,
    job: Job<'_>,
) -> Result<(bool, Option<LexError>), Failure<A>>
    ensures { IfOk result (λ r. IsTrue r.0 → job.entry.mode ≡ Bad → AreAccepted job.entry page.old.source.now) }
{
    match job.mode {
        Mode::Bad => Ok((report_errors(page, job)?, None)),
        Mode::Invisible => {
            report_hidden(page)?;
            Ok((false, None))
        }
        _ => Ok((false, page.report_literals()?)),
    }
}
