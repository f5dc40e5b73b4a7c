//! The words of `fixed`.

ghost use Rattle.std.specs.Prelude.{◌≡◌, IfOk, option_map};
ghost use Rattle.clap.specs.Walk.{texts};
ghost use Rattle.command_line.specs.JobValue.{AnswersJob};
ghost use Rattle.call_words.specs.Matches.{rows_in};
ghost use Rattle.command_line.specs.Words.{fixed_of};

use crate::matches::{charge_in, gives_only};
use crate::{FixedWords, Job, Options};
use call_words::limit_in;
use clap::ArgMatches;
use std::alloc::{AllocError, Global};

/// The job of charging a route of a file.
pub(crate) fn fixed_job(
    alloc: Global,
    rest: &[&str],
    matches: &ArgMatches<'_>,
) -> Result<Option<Job>, AllocError>
    ensures { AnswersJob result (fixed_of (texts rest.now) (rows_in matches.now)) }
{
    let [file, route] = rest else {
        return Ok(None);
    };
    if !gives_only(matches, &["limit", "charge"]) {
        return Ok(None);
    }
    let (Some(limit), Some(charge)) = (limit_in(matches), charge_in(matches)) else {
        return Ok(None);
    };
    Ok(Some(Job::Fixed(FixedWords {
        file: String::from_str(alloc, file)?,
        route: String::from_str(alloc, route)?,
        options: Options { limit, charge },
    })))
}
