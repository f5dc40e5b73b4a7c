//! The words of `evgap`, and the job that they name.
#![tactic(auto)]

ghost use Rattle.std.specs.Prelude.{◌≡◌, [], None, Ok, IfOk, IfSome, map, option_map, string_bytes};
ghost use Rattle.gap_words.specs.JobValue.{IsJob, job_value};
ghost use Rattle.gap_words.specs.Usage.{usage_text};
ghost use Rattle.gap_words.specs.Words.{command_job, job_of};

mod arguments;
mod jobs;

pub use arguments::PROGRAM;
use arguments::found_in;
use call_words::named;
use job_telling::{Told, told_by};
use jobs::job_in;
use std::alloc::{AllocError, Global};

/// The words of the job `plan`: the file of the instance, another one into which the plan is
/// written, a third one for the proof, the limit on the time of each route in place of the
/// instance's, in units of time, how many seconds the search may take, a fourth file with the plan
/// to begin with, or that there is none, the seed of the first plan, the effort for it, and how
/// many nodes of a tree the search may look at, at least one, where a tree is to be grown.
#[derive(Drop)]
pub struct PlanWords {
    pub file: String,
    pub plan: String,
    pub proof: String,
    pub limit: Option<u64>,
    pub seconds: Option<u64>,
    pub start: Option<String>,
    pub seed: u64,
    pub effort: Option<u64>,
    pub nodes: Option<u64>,
}

/// The words of the job `check`: the file of the instance, another one with the plan, a third one
/// with the proof, and the limit on the time of each route in place of the instance's, in units of
/// time.
#[derive(Drop)]
pub struct CheckWords {
    pub file: String,
    pub plan: String,
    pub proof: String,
    pub limit: Option<u64>,
}

/// A job of the program.
#[derive(Drop)]
pub enum Job {
    /// A fleet is planned, and its plan and a proof of a close bound are written.
    Plan(PlanWords),
    /// The plan of a file and the proof of another are judged.
    Check(CheckWords),
    /// People are told of the program alone.
    Tell(Told),
}

/// The job of the words, which stand behind the program's name: `--help` or `--version` alone, or
/// what [`command_job`] reads. `None` comes exactly where they name none. No words at all are no
/// job, and take no memory.
pub fn job_words(alloc: Global, words: &[String]) -> Result<Option<Job>, AllocError>
    ensures job { IfOk result
        (λ job. option_map job_value job ≡ job_of (map string_bytes words.now)) }
    ensures is { IfOk result (λ job. IfSome job IsJob) }
    ensures no_words { words.now ≡ [] → result ≡ Ok None }
{
    match told_by(words) {
        Some(told) => Ok(Some(Job::Tell(told))),
        None => command_job(alloc, words),
    }
}

/// The job of a command, read by one `clap` command: `plan
/// FILE PLAN PROOF [--limit N] [--seconds N] [--start PLAN0] [--seed N] [--effort N] [--nodes N]`
/// or `check FILE PLAN PROOF [--limit N]`. `None` comes exactly where the words are no such job.
/// Without `--seed` the seed is 1.
///
/// Options stand anywhere before a word `--`, each at most once; the value is the next word or
/// follows a `=`. A name that begins with `-` and has more behind it is given after `--`. Numbers
/// are written without leading zeros, and are at most 10^18, that of `--effort` at most 30, that of
/// `--nodes` at least 1. The names of files are different texts. No words at all are no job, and
/// take no memory.
fn command_job(alloc: Global, words: &[String]) -> Result<Option<Job>, AllocError>
    ensures job { IfOk result
        (λ job. option_map job_value job ≡ command_job (map string_bytes words.now)) }
    ensures is { IfOk result (λ job. IfSome job IsJob) }
    ensures no_words { words.now ≡ [] → result ≡ Ok None }
{
    if words.is_empty() {
        return Ok(None);
    }
    let named = named(alloc, PROGRAM, words)?;
    match found_in(alloc, named.as_slice()) {
        Ok(Some(matches)) => job_in(alloc, &matches),
        Ok(None) => Ok(None),
        Err(AllocError) => Err(AllocError),
    }
}

/// The usage text: how the program is called, a line a command.
pub fn usage() -> &'static str
    ensures { result.now ≡ usage_text }
{
    "evgap plan FILE PLAN PROOF [--limit N] [--seconds N] [--start PLAN0] [--seed N] [--effort N] [--nodes N]\n\
     evgap check FILE PLAN PROOF [--limit N]\n"
}
