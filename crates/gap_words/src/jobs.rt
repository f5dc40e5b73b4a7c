//! The job of what the command finds.

ghost use Rattle.std.specs.Prelude.{◌≡◌, ◌∷◌, [], IfOk, IfSome, option_map, string_bytes};
ghost use Rattle.clap.specs.Walk.{texts};
ghost use Rattle.call_words.specs.Matches.{rows_in};
ghost use Rattle.call_words.specs.Names.{are_different};
ghost use Rattle.gap_words.specs.JobValue.{AnswersJob, IsJob};
ghost use Rattle.gap_words.specs.Words.{all_names, check_of, effort_in, job_in, job_of_command, nodes_in, plan_of, says_no_search, seconds_in, seed_in};

use crate::{CheckWords, Job, PlanWords};
use call_words::{GREATEST_VALUE, are_different, first_of, limit_in, number_of, optional_number};
use clap::ArgMatches;
use std::alloc::{AllocError, Global};

/// The greatest effort for the first plan.
const GREATEST_EFFORT: u64 = 30;

/// The number of seconds, where it is given; `None` where its value is no number of them.
fn seconds_in(matches: &ArgMatches<'_>) -> Option<Option<u64>>
    ensures { result ≡ seconds_in (rows_in matches.now) }
{
    optional_number(first_of(matches, "seconds"), GREATEST_VALUE)
}

/// The seed, 1 where none is given; `None` where its value is no number.
fn seed_in(matches: &ArgMatches<'_>) -> Option<u64>
    ensures { result ≡ seed_in (rows_in matches.now) }
{
    match first_of(matches, "seed") {
        Some(word) => number_of(word, GREATEST_VALUE),
        None => Some(1),
    }
}

/// The effort, where it is given; `None` where its value is no number of at most 30.
fn effort_in(matches: &ArgMatches<'_>) -> Option<Option<u64>>
    ensures { result ≡ effort_in (rows_in matches.now) }
{
    optional_number(first_of(matches, "effort"), GREATEST_EFFORT)
}

/// How many nodes of a tree the search may look at, where it is given; `None` where its value is no
/// number of them, or 0.
fn nodes_in(matches: &ArgMatches<'_>) -> Option<Option<u64>>
    ensures { result ≡ nodes_in (rows_in matches.now) }
{
    let Some(nodes) = optional_number(first_of(matches, "nodes"), GREATEST_VALUE) else {
        return None;
    };
    match nodes {
        Some(0) => None,
        _ => Some(nodes),
    }
}

/// Whether nothing is said of how plans are sought.
fn says_no_search(matches: &ArgMatches<'_>) -> bool
    ensures { result ≡ says_no_search (rows_in matches.now) }
{
    first_of(matches, "seconds").is_none()
        && first_of(matches, "start").is_none()
        && first_of(matches, "seed").is_none()
        && first_of(matches, "effort").is_none()
        && first_of(matches, "nodes").is_none()
}

/// The job of what the command finds.
pub(crate) fn job_in(alloc: Global, matches: &ArgMatches<'_>) -> Result<Option<Job>, AllocError>
    ensures job { AnswersJob result (job_in (rows_in matches.now)) }
    ensures is { IfOk result (λ job. IfSome job IsJob) }
{
    let Some(command) = first_of(matches, "command") else {
        return Ok(None);
    };
    match matches.get_strs("rest") {
        Some(rest) => job_of_command(alloc, command, rest, matches),
        None => job_of_command(alloc, command, &[], matches),
    }
}

/// The job of a command, of the words behind it and of the options.
fn job_of_command(
    alloc: Global,
    command: &str,
    rest: &[&str],
    matches: &ArgMatches<'_>,
) -> Result<Option<Job>, AllocError>
    ensures job { AnswersJob result
        (job_of_command command.now (texts rest.now) (rows_in matches.now)) }
    ensures is { IfOk result (λ job. IfSome job IsJob) }
{
    match command {
        "plan" => plan_job(alloc, rest, matches),
        "check" => check_job(alloc, rest, matches),
        _ => Ok(None),
    }
}

/// The job of planning a fleet on the instance of a file, with a close bound, and of writing the
/// plan and the proof into two others.
fn plan_job(
    alloc: Global,
    rest: &[&str],
    matches: &ArgMatches<'_>,
) -> Result<Option<Job>, AllocError>
    ensures job { AnswersJob result (plan_of (texts rest.now) (rows_in matches.now)) }
    ensures is { IfOk result (λ job. IfSome job IsJob) }
{
    let [file, plan, proof] = rest else {
        return Ok(None);
    };
    let start = first_of(matches, "start");
    if !all_differ(start, file, plan, proof) {
        return Ok(None);
    }
    let (Some(limit), Some(seconds)) = (limit_in(matches), seconds_in(matches)) else {
        return Ok(None);
    };
    let (Some(seed), Some(effort)) = (seed_in(matches), effort_in(matches)) else {
        return Ok(None);
    };
    let Some(nodes) = nodes_in(matches) else {
        return Ok(None);
    };
    Ok(Some(Job::Plan(PlanWords {
        file: String::from_str(alloc, file)?,
        plan: String::from_str(alloc, plan)?,
        proof: String::from_str(alloc, proof)?,
        limit,
        seconds,
        start: owned(alloc, start)?,
        seed,
        effort,
        nodes,
    })))
}

/// Whether no two of the names of the files are the same text.
fn all_differ(start: Option<&str>, file: &str, plan: &str, proof: &str) -> bool
    ensures { result ≡ are_different (all_names (option_map (λ text. text.now) start.entry)
        (file.now ∷ plan.now ∷ proof.now ∷ [])) }
{
    match start {
        Some(start) => are_different(&[start, file, plan, proof]),
        None => are_different(&[file, plan, proof]),
    }
}

/// A text of one's own, where there is one.
fn owned(alloc: Global, text: Option<&str>) -> Result<Option<String>, AllocError>
    ensures { IfOk result (λ own. option_map (λ s. string_bytes s) own
        ≡ option_map (λ t. t.now) text.entry) }
{
    match text {
        Some(text) => Ok(Some(String::from_str(alloc, text)?)),
        None => Ok(None),
    }
}

/// The job of judging the plan of a file and the proof of another over the instance of a third.
fn check_job(
    alloc: Global,
    rest: &[&str],
    matches: &ArgMatches<'_>,
) -> Result<Option<Job>, AllocError>
    ensures job { AnswersJob result (check_of (texts rest.now) (rows_in matches.now)) }
    ensures is { IfOk result (λ job. IfSome job IsJob) }
{
    let [file, plan, proof] = rest else {
        return Ok(None);
    };
    if !says_no_search(matches) || !are_different(rest) {
        return Ok(None);
    }
    let Some(limit) = limit_in(matches) else {
        return Ok(None);
    };
    Ok(Some(Job::Check(CheckWords {
        file: String::from_str(alloc, file)?,
        plan: String::from_str(alloc, plan)?,
        proof: String::from_str(alloc, proof)?,
        limit,
    })))
}
