//! The words of `improve`.

ghost use Rattle.std.specs.Prelude.{◌≡◌, IfOk, option_map};
ghost use Rattle.clap.specs.Walk.{texts};
ghost use Rattle.command_line.specs.JobValue.{AnswersJob};
ghost use Rattle.call_words.specs.Matches.{rows_in};
ghost use Rattle.command_line.specs.Words.{improve_of};

use crate::matches::gives_only;
use crate::{ImproveWords, Job};
use call_words::{are_different, limit_in};
use clap::ArgMatches;
use std::alloc::{AllocError, Global};

/// The job of making the plan of a file cheaper on the instance of another, and of writing what
/// becomes of it into a third.
pub(crate) fn improve_job(
    alloc: Global,
    rest: &[&str],
    matches: &ArgMatches<'_>,
) -> Result<Option<Job>, AllocError>
    ensures { AnswersJob result (improve_of (texts rest.now) (rows_in matches.now)) }
{
    let [file, plan, outfile] = rest else {
        return Ok(None);
    };
    if !gives_only(matches, &["limit"]) || !are_different(rest) {
        return Ok(None);
    }
    let Some(limit) = limit_in(matches) else {
        return Ok(None);
    };
    Ok(Some(Job::Improve(ImproveWords {
        file: String::from_str(alloc, file)?,
        plan: String::from_str(alloc, plan)?,
        outfile: String::from_str(alloc, outfile)?,
        limit,
    })))
}
