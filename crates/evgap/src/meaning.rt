//! What people are told that a cause means, and the files that a job reads and writes, by name.

use crate::commands::COMMANDS;
use crate::trees::rejected_tree;
use evgap_run::Cause;
use gap_words::Job;
pub(crate) use plain_words::Failed;
use plain_words::{
    Instances, JobNames, Sentence, left_behind, long_proof, refused, rejected_plan, told_refusal,
    wrong_word,
};
use proof_words::{rejected_near, told_reach};
use std::alloc::{AllocError, Global};
use std::rt::Files;
use tree_text::BoundVerdict;

/// What is said where the clock ended the moves.
const MOVES_ENDED: &str =
    "the clock ended the moves of single customers: it isn't known whether one \
    makes the plan cheaper";

/// What people are told behind a job that put a text: which word is wrong, what its cause means,
/// which customer is out of reach, or that the proof is too long to be read again. `words` stand
/// behind the program's name, and `job` is the one that they name.
pub(crate) fn told_behind<R: Files>(
    alloc: Global,
    files: &R,
    words: &[String],
    job: Option<&Job>,
    cause: Option<Cause>,
) -> Result<Option<String>, AllocError> {
    let Some(job) = job else {
        return wrong_word(alloc, "evgap", COMMANDS, words);
    };
    let Some(names) = names_of(job) else {
        return Ok(None);
    };
    match cause {
        Some(Cause::Refused(refusal)) => told_refusal(alloc, files, &names, refusal),
        Some(Cause::NoFleet) => told_reach(alloc, files, &names),
        Some(Cause::MovesEnded) => told_ended(alloc, files, &names),
        Some(cause) => match meaning_of(cause) {
            Some(sentence) => Ok(Some(sentence.told(alloc, &names)?)),
            None => Ok(None),
        },
        None => long_proof(alloc, files, &names),
    }
}

/// What is said where the clock ended the moves, and that the proof is too long, where it is.
fn told_ended<R: Files>(
    alloc: Global,
    files: &R,
    names: &JobNames<'_>,
) -> Result<Option<String>, AllocError> {
    let told = MOVES_ENDED;
    match long_proof(alloc, files, names)? {
        Some(long) => Ok(Some(format!(in alloc; "{told}\nevgap: {long}")?)),
        None => Ok(Some(format!(in alloc; "{told}")?)),
    }
}

/// What stands in the files of a job where a file or the output failed; where it was the output,
/// an answer with this cause was to go to it.
pub(crate) fn told_left(
    alloc: Global,
    job: Option<&Job>,
    cause: Option<Cause>,
    failed: Failed<'_>,
) -> Result<Option<String>, AllocError> {
    let Some(names) = job.and_then(|job| names_of(job)) else {
        return Ok(None);
    };
    match failed {
        Failed::Output if !is_behind_files(cause) => Ok(None),
        _ => left_behind(alloc, &names, failed),
    }
}

/// Whether an answer with this cause is put behind the files of a job: a refusal, a broken rule and
/// the usage text come where none is written.
fn is_behind_files(cause: Option<Cause>) -> bool {
    match cause {
        None | Some(Cause::NoFleet) | Some(Cause::Alone(_)) | Some(Cause::MovesEnded) => true,
        Some(_) => false,
    }
}

/// What a cause means. `None` where it is told otherwise: which word is wrong, or which customer is
/// out of reach.
fn meaning_of(cause: Cause) -> Option<Sentence> {
    match cause {
        Cause::Words | Cause::NoFleet | Cause::MovesEnded => None,
        Cause::Refused(refusal) => refused(refusal),
        Cause::Plan(fault) => Some(rejected_plan(fault)),
        Cause::Proof(verdict) => rejected_proof(verdict),
        Cause::Alone(node) => Some(Sentence::one(
            "{FILE}: no route of its own serves customer {1} within the limit",
            node,
        )),
    }
}

/// What the broken rule of a proof of a bound means.
fn rejected_proof(verdict: BoundVerdict) -> Option<Sentence> {
    match verdict {
        BoundVerdict::Near(verdict) => rejected_near(verdict),
        BoundVerdict::Tree(verdict) => rejected_tree(verdict),
    }
}

/// What a job reads and writes; `None` where it is that people are told of the program alone.
fn names_of(job: &Job) -> Option<JobNames<'_>> {
    match job {
        Job::Plan(job) => Some(JobNames {
            instances: Instances::One(job.file.as_str()),
            limit: job.limit,
            route: None,
            plan: job.start.as_ref().map(|name| name.as_str()),
            proof: None,
            proof_is: "a proof of a bound",
            writes: [Some(job.plan.as_str()), Some(job.proof.as_str())],
            has_search: true,
            judge: Some("evgap check"),
        }),
        Job::Check(job) => Some(JobNames {
            instances: Instances::One(job.file.as_str()),
            limit: job.limit,
            route: None,
            plan: Some(job.plan.as_str()),
            proof: Some(job.proof.as_str()),
            proof_is: "a proof of a bound",
            writes: [None, None],
            has_search: false,
            judge: None,
        }),
        Job::Tell(_) => None,
    }
}
