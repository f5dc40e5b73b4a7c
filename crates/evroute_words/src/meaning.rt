//! What people are told of a job: what its cause means, and what stands in its files.

use crate::commands::COMMANDS;
use crate::names::{names_of, no_names};
use crate::rejected::{certificate, mixed, route};
use command_line::Job;
use evroute_causes::Cause;
use plain_words::{
    Failed, JobNames, Sentence, left_behind, long_proof, refused, rejected_plan, told_refusal,
    unwritable, wrong_word,
};
use proof_words::{rejected_near, told_reach};
use std::alloc::{AllocError, Global};
use std::rt::Files;

/// What people are told before a long search: which of its files can't be written.
pub fn told_in_front<R: Files>(
    alloc: Global,
    files: &R,
    job: &Job,
) -> Result<Option<String>, AllocError> {
    unwritable(alloc, files, &names_of(job))
}

/// What people are told behind a job that put a text: what its cause means, which customer is out
/// of reach, or that a certificate is too long to be read again. `words` stand behind the program's
/// name, and `job` is the one that they name.
pub fn told_behind<R: Files>(
    alloc: Global,
    files: &R,
    words: &[String],
    job: Option<&Job>,
    cause: Option<Cause>,
) -> Result<Option<String>, AllocError> {
    let names = names_or_none(job);
    let told = match cause {
        Some(Cause::Refused(refusal)) => told_refusal(alloc, files, &names, refusal)?,
        Some(Cause::NoFleet) => told_reach(alloc, files, &names)?,
        Some(cause) => in_words(alloc, words, job, cause)?,
        None => None,
    };
    if told.is_some() || !is_behind_files(cause) {
        return Ok(told);
    }
    long_proof(alloc, files, &names)
}

/// What people are told where the output failed to which an answer with this cause was to go.
pub fn left_by_output(
    alloc: Global,
    job: Option<&Job>,
    cause: Option<Cause>,
) -> Result<Option<String>, AllocError> {
    if is_behind_files(cause) {
        left_behind(alloc, &names_or_none(job), Failed::Output)
    } else {
        Ok(None)
    }
}

/// What people are told where a file failed, which is changed or not.
pub fn left_by_file(
    alloc: Global,
    job: Option<&Job>,
    failed: Failed<'_>,
) -> Result<Option<String>, AllocError> {
    left_behind(alloc, &names_or_none(job), failed)
}

/// The names of a job, or none.
fn names_or_none(job: Option<&Job>) -> JobNames<'_> {
    match job {
        Some(job) => names_of(job),
        None => no_names(),
    }
}

/// Whether an answer with this cause is put behind the files of a job: a refusal, a broken rule, a
/// customer out of reach and the usage text come where none is written.
fn is_behind_files(cause: Option<Cause>) -> bool {
    match cause {
        None | Some(Cause::NoFleet) => true,
        Some(_) => false,
    }
}

/// What a cause means, in words with the names of the files: what a rule says of them, or which of
/// the program's words is wrong. `None` where there is no plan of the fleet, and where no word is
/// wrong.
pub fn in_words(
    alloc: Global,
    words: &[String],
    job: Option<&Job>,
    cause: Cause,
) -> Result<Option<String>, AllocError> {
    if cause == Cause::Words {
        return wrong_word(alloc, "evroute", COMMANDS, words);
    }
    match meaning_of(cause) {
        Some(sentence) => Ok(Some(sentence.told(alloc, &names_or_none(job))?)),
        None => Ok(None),
    }
}

/// What a cause means. `None` where it is told otherwise: which word is wrong, or which customer is
/// out of reach.
fn meaning_of(cause: Cause) -> Option<Sentence> {
    match cause {
        Cause::Words | Cause::NoFleet => None,
        Cause::Refused(refusal) => refused(refusal),
        Cause::Kinds(kind) => Some(Sentence::one(
            "{file of kind}: its nodes, customers or denominator differ from those of the first \
             file",
            kind,
        )),
        Cause::Plan(fault) => Some(rejected_plan(fault)),
        Cause::Certificate(verdict) => certificate(verdict),
        Cause::Route(verdict) => route(verdict),
        Cause::Near(verdict) => rejected_near(verdict),
        Cause::Mixed(verdict) => mixed(verdict),
        Cause::Alone(node) => Some(Sentence::one(
            "{FILE}: no route of its own serves customer {1} within the limit",
            node,
        )),
    }
}
