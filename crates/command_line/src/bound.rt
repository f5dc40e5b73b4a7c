//! The words of `bound` and `check-bound`.

ghost use Rattle.std.specs.Prelude.{◌≡◌, IfOk, option_map};
ghost use Rattle.clap.specs.Walk.{texts};
ghost use Rattle.command_line.specs.JobValue.{AnswersJob};
ghost use Rattle.call_words.specs.Matches.{rows_in};
ghost use Rattle.command_line.specs.Words.{bound_of, check_bound_of};

use crate::matches::{gives_only, near_in};
use crate::{BoundCheckWords, BoundWords, Job};
use call_words::{are_different, limit_in};
use clap::ArgMatches;
use std::alloc::{AllocError, Global};

/// The job of finding what no fleet plan on the instance of a file costs less than, and of writing
/// into another what shows it.
pub(crate) fn bound_job(
    alloc: Global,
    rest: &[&str],
    matches: &ArgMatches<'_>,
) -> Result<Option<Job>, AllocError>
    ensures { AnswersJob result (bound_of (texts rest.now) (rows_in matches.now)) }
{
    let [file, cert] = rest else {
        return Ok(None);
    };
    if !gives_only(matches, &["near", "limit"]) || !are_different(rest) {
        return Ok(None);
    }
    let (Some(near), Some(limit)) = (near_in(matches), limit_in(matches)) else {
        return Ok(None);
    };
    Ok(Some(Job::Bound(BoundWords {
        file: String::from_str(alloc, file)?,
        cert: String::from_str(alloc, cert)?,
        near,
        limit,
    })))
}

/// The job of judging what a file says of the cost of fleet plans on the instance of another.
pub(crate) fn check_bound_job(
    alloc: Global,
    rest: &[&str],
    matches: &ArgMatches<'_>,
) -> Result<Option<Job>, AllocError>
    ensures { AnswersJob result (check_bound_of (texts rest.now) (rows_in matches.now)) }
{
    let [file, cert] = rest else {
        return Ok(None);
    };
    if !gives_only(matches, &["limit"]) || !are_different(rest) {
        return Ok(None);
    }
    let Some(limit) = limit_in(matches) else {
        return Ok(None);
    };
    Ok(Some(Job::CheckBound(BoundCheckWords {
        file: String::from_str(alloc, file)?,
        cert: String::from_str(alloc, cert)?,
        limit,
    })))
}
