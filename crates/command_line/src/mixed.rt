//! The words of `mixed` and `check-mixed`.

ghost use Rattle.std.specs.Prelude.{◌≡◌, IfOk, map, option_map, string_bytes};
ghost use Rattle.clap.specs.Walk.{texts};
ghost use Rattle.command_line.specs.JobValue.{AnswersJob, mixed_value};
ghost use Rattle.call_words.specs.Matches.{rows_in};
ghost use Rattle.command_line.specs.Words.{are_few, check_mixed_of, mixed_of, mixed_words_of};

use crate::matches::gives_only;
use crate::{Job, MixedWords};
use call_words::{are_different, limit_in};
use clap::ArgMatches;
use std::alloc::{AllocError, Global};

/// The most files of instances, one a kind of vehicles.
const MOST_KINDS: usize = 8;

/// The job of planning a fleet of several kinds of vehicles on the instances of files, and of
/// writing its plan and a proof into two others.
pub(crate) fn mixed_job(
    alloc: Global,
    rest: &[&str],
    matches: &ArgMatches<'_>,
) -> Result<Option<Job>, AllocError>
    ensures { AnswersJob result (mixed_of (texts rest.now) (rows_in matches.now)) }
{
    match mixed_words(alloc, rest, matches) {
        Ok(Some(words)) => Ok(Some(Job::Mixed(words))),
        Ok(None) => Ok(None),
        Err(AllocError) => Err(AllocError),
    }
}

/// The job of judging a plan of such a fleet and a proof.
pub(crate) fn check_mixed_job(
    alloc: Global,
    rest: &[&str],
    matches: &ArgMatches<'_>,
) -> Result<Option<Job>, AllocError>
    ensures { AnswersJob result (check_mixed_of (texts rest.now) (rows_in matches.now)) }
{
    match mixed_words(alloc, rest, matches) {
        Ok(Some(words)) => Ok(Some(Job::CheckMixed(words))),
        Ok(None) => Ok(None),
        Err(AllocError) => Err(AllocError),
    }
}

/// The words of both jobs.
fn mixed_words(
    alloc: Global,
    rest: &[&str],
    matches: &ArgMatches<'_>,
) -> Result<Option<MixedWords>, AllocError>
    ensures { IfOk result (λ found.
        option_map mixed_value found ≡ mixed_words_of (texts rest.now) (rows_in matches.now)) }
{
    let [plan, cert, files @ ..] = rest else {
        return Ok(None);
    };
    if !gives_only(matches, &["limit"]) || !are_few(files) || !are_different(rest) {
        return Ok(None);
    }
    let Some(limit) = limit_in(matches) else {
        return Ok(None);
    };
    Ok(Some(MixedWords {
        plan: String::from_str(alloc, plan)?,
        cert: String::from_str(alloc, cert)?,
        files: owned(alloc, files)?,
        limit,
    }))
}

/// Whether there is a file, and no more than the most.
fn are_few(files: &[&str]) -> bool
    ensures { result ≡ are_few (texts files.now) }
{
    !files.is_empty() && files.len() <= MOST_KINDS
}

/// The names, each in a text of its own.
fn owned(alloc: Global, names: &[&str]) -> Result<Vec<String>, AllocError>
    ensures { IfOk result (λ all. map string_bytes all.items ≡ texts names.now) }
{
    let mut all = Vec::new(alloc);
    for name in names {
        all.push(String::from_str(alloc, name)?)?;
    }
    Ok(all)
}
