//! The words of `evview`, and the job that they name.
#![tactic(auto)]

ghost use Rattle.std.specs.Prelude.{◌≡◌, [], None, Ok, IfOk, IfSome, map, option_map, string_bytes};
ghost use Rattle.view_words.specs.JobValue.{IsJob, IsViewJob, job_value, view_value};
ghost use Rattle.view_words.specs.Usage.{usage_text};
ghost use Rattle.view_words.specs.Words.{command_job, job_of};

mod arguments;
mod clock;
mod form;
mod jobs;

pub use arguments::PROGRAM;
use arguments::found_in;
use call_words::named;
pub use clock::DayClock;
pub use form::PlanForm;
use job_telling::{Told, told_by};
use jobs::job_in;
use std::alloc::{AllocError, Global};

/// The words of the job that shows a plan: the file of the instance, another one with the plan, the
/// limit on the time of each route in place of the instance's, in units of time, the number of the
/// one route that is shown, counted from 0, which form the plan has, whether times are shown as
/// they are scaled, the clock by which is told when something happens, the file with the names of
/// places, and the files into which the pictures, the schedule, as JSON and as CSV, and a map are
/// written.
#[derive(Drop)]
pub struct ViewWords {
    pub file: String,
    pub plan: String,
    pub limit: Option<u64>,
    pub route: Option<u64>,
    pub form: PlanForm,
    pub exact: bool,
    pub clock: Option<DayClock>,
    pub places: Option<String>,
    pub svg: Option<String>,
    pub json: Option<String>,
    pub csv: Option<String>,
    pub map: Option<String>,
}

/// A job of the program.
#[derive(Drop)]
pub enum Job {
    /// A plan is shown.
    View(ViewWords),
    /// People are told of the program alone.
    Tell(Told),
}

/// The job of the words, which stand behind the program's name: `--help` or `--version` alone, or
/// what [`command_job`] reads. `None` comes exactly where they name none. No words at all are no
/// job, and take no memory.
pub fn job_words(alloc: Global, words: &[String]) -> Result<Option<Job>, AllocError>
    ensures job { IfOk result
        (λ job. option_map job_value job ≡ job_of (map string_bytes words.now)) }
    ensures is { IfOk result (λ job. IfSome job IsJob) }
    ensures no_words { words.now ≡ [] → result ≡ Ok None }
{
    match told_by(words) {
        Some(told) => Ok(Some(Job::Tell(told))),
        None => match command_job(alloc, words)? {
            Some(job) => Ok(Some(Job::View(job))),
            None => Ok(None),
        },
    }
}

/// The job of showing a plan, read by one `clap` command: `FILE
/// PLAN [--limit N] [--route N] [--partial] [--fixed [--charge N]] [--exact] [--begin HH:MM --unit
/// U] [--places FILE] [--svg OUT] [--json OUT] [--csv OUT] [--map OUT]`. `None` comes exactly where
/// the words are no such job.
///
/// Options stand anywhere before a word `--`, each at most once; the value is the next word or
/// follows a `=`. A name that begins with `-` and has more behind it is given after `--`. Numbers
/// are written without leading zeros, and are at most 10^18. HH:MM is a time of day from 00:00 to
/// 23:59; U is `s`, `min` or `h`, or with `/N` behind it one of N parts of that, N from 1 to 10^9;
/// both are given or neither. `--charge` is given beside `--fixed` alone, `--fixed` without
/// `--partial`, and `--map` beside `--places` alone. The names of files are
/// different texts. No words at all are no job, and take no memory.
fn command_job(alloc: Global, words: &[String]) -> Result<Option<ViewWords>, AllocError>
    ensures job { IfOk result
        (λ job. option_map view_value job ≡ command_job (map string_bytes words.now)) }
    ensures is { IfOk result (λ job. IfSome job IsViewJob) }
    ensures no_words { words.now ≡ [] → result ≡ Ok None }
{
    if words.is_empty() {
        return Ok(None);
    }
    let named = named(alloc, PROGRAM, words)?;
    match found_in(alloc, named.as_slice()) {
        Ok(Some(matches)) => job_in(alloc, &matches),
        Ok(None) => Ok(None),
        Err(AllocError) => Err(AllocError),
    }
}

/// The usage text: how the program is called.
pub fn usage() -> &'static str
    ensures { result.now ≡ usage_text }
{
    "evview FILE PLAN [--limit N] [--route N] [--partial] [--fixed [--charge N]] [--exact] [--begin HH:MM --unit U] [--places FILE] [--svg OUT] [--json OUT] [--csv OUT] [--map OUT]\n"
}
