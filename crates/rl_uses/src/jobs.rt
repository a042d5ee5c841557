//! The settings of a job: the required setting `name`, and the settings `tries` and `reports` with defaults.

ghost use Rattle.std.specs.Prelude.{ℕ, List, Bool, IfOk, IfErr, string_bytes};
ghost use Rattle.rl_attributes.specs.TextSettings.{list_of};
ghost use Rattle.rl_uses.specs.Jobs.{IsJob, IsJobText, IsJobOrMemory, RejectsJob, RejectsJobText};

use rl_attributes::{Attrs, Setting, SettingError, read};
use std::alloc::{Allocator, Global};

/// The setting `name`, the job's name, which is required.
const NAME: Setting = Setting {
    name: "name",
    expected: "a string",
};

/// The setting `tries`, how often the job is tried. Its default is 3.
const TRIES: Setting = Setting {
    name: "tries",
    expected: "an integer from 0 to 100",
};

/// The setting `reports`, whether the job reports its end. Its default is `false`.
const REPORTS: Setting = Setting {
    name: "reports",
    expected: "`true` or `false`",
};

/// A job's settings.
#[derive(Drop)]
pub struct Job<A: Allocator = Global> {
    /// The job's name.
    pub name: String<A>,
    /// How often the job is tried.
    pub tries: u64,
    /// Whether the job reports its end.
    pub reports: bool,
}

/// Returns the job's settings that the attributes `attrs` set.
fn job_of<A: Allocator + Copy>(alloc: A, attrs: &Attrs<A>) -> Result<Job<A>, SettingError<A>>
    ensures set { IfOk result (λ job. IsJob (list_of attrs.now) (string_bytes job.name) job.tries job.reports) }
    ensures exactly { (name : List ℕ) (tries : ℕ) (reports : Bool) → IsJob (list_of attrs.now) name tries reports
        → IsJobOrMemory name tries reports result }
    ensures rejected { IfErr result (RejectsJob attrs.now) }
{
    match attrs.check(&[NAME, TRIES, REPORTS]) {
        Err(error) => return Err(error),
        Ok(()) => {}
    }
    let name = match attrs.required_string(alloc, NAME) {
        Err(error) => return Err(error),
        Ok(name) => name,
    };
    let tries = match attrs.unsigned_or(TRIES, 100, 3) {
        Err(error) => return Err(error),
        Ok(tries) => tries,
    };
    match attrs.bool_or(REPORTS, false) {
        Err(error) => Err(error),
        Ok(reports) => Ok(Job {
            name,
            tries,
            reports,
        }),
    }
}

/// Parses the whole text `text` as a job's settings, for example `name = "a", tries = 5`.
///
/// # Errors
///
/// Returns the errors of [`read`], [`Attrs::check`] and [`Attrs::required_string`]. Otherwise returns the error of a value that
/// isn't as its setting expects, at the value.
pub fn read_job<A: Allocator + Copy>(
    alloc: A,
    text: &str,
    file: u32,
) -> Result<Job<A>, SettingError<A>>
    // On success the text is a job's settings, and the result has their values.
    ensures set { IfOk result (λ job. IsJobText text.now file (string_bytes job.name) job.tries job.reports) }
    // If the text is a job's settings, the result has their values, or an allocation failed.
    ensures exactly { (name : List ℕ) (tries : ℕ) (reports : Bool) → IsJobText text.now file name tries reports
        → IsJobOrMemory name tries reports result }
    // Why the text is rejected, and where the error is.
    ensures rejected { IfErr result (RejectsJobText text.now file) }
{
    match read(alloc, text, file) {
        Ok(attrs) => job_of(alloc, &attrs),
        Err(error) => Err(SettingError::Text(error)),
    }
}
