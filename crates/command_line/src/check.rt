//! The words of `check`.

ghost use Rattle.std.specs.Prelude.{◌≡◌, IfOk, option_map};
ghost use Rattle.clap.specs.Walk.{texts};
ghost use Rattle.command_line.specs.JobValue.{AnswersJob};
ghost use Rattle.call_words.specs.Matches.{rows_in};
ghost use Rattle.command_line.specs.Words.{check_of};

use crate::matches::gives_only;
use crate::{CheckWords, Job};
use call_words::{are_different, limit_in};
use clap::ArgMatches;
use std::alloc::{AllocError, Global};

/// The job of judging the plan of a file and the certificate of another over the instance of a
/// third.
pub(crate) fn check_job(
    alloc: Global,
    rest: &[&str],
    matches: &ArgMatches<'_>,
) -> Result<Option<Job>, AllocError>
    ensures { AnswersJob result (check_of (texts rest.now) (rows_in matches.now)) }
{
    let [file, plan, cert] = rest else {
        return Ok(None);
    };
    if !gives_only(matches, &["limit"]) || !are_different(rest) {
        return Ok(None);
    }
    let Some(limit) = limit_in(matches) else {
        return Ok(None);
    };
    Ok(Some(Job::Check(CheckWords {
        file: String::from_str(alloc, file)?,
        plan: String::from_str(alloc, plan)?,
        cert: String::from_str(alloc, cert)?,
        limit,
    })))
}
