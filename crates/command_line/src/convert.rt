//! The words of `convert`.

ghost use Rattle.std.specs.Prelude.{◌≡◌, IfOk, option_map};
ghost use Rattle.clap.specs.Walk.{texts};
ghost use Rattle.command_line.specs.JobValue.{AnswersJob};
ghost use Rattle.call_words.specs.Matches.{rows_in};
ghost use Rattle.command_line.specs.Words.{convert_of};

use crate::matches::{digits_in, gives_only};
use crate::{ConvertWords, Job};
use call_words::are_different;
use clap::ArgMatches;
use std::alloc::{AllocError, Global};

/// The job of making the decimals of a file whole, into another.
pub(crate) fn convert_job(
    alloc: Global,
    rest: &[&str],
    matches: &ArgMatches<'_>,
) -> Result<Option<Job>, AllocError>
    ensures { AnswersJob result (convert_of (texts rest.now) (rows_in matches.now)) }
{
    let [file, outfile] = rest else {
        return Ok(None);
    };
    if !gives_only(matches, &["time-digits", "energy-digits"]) || !are_different(rest) {
        return Ok(None);
    }
    let Some(time_digits) = digits_in(matches, "time-digits") else {
        return Ok(None);
    };
    let Some(energy_digits) = digits_in(matches, "energy-digits") else {
        return Ok(None);
    };
    Ok(Some(Job::Convert(ConvertWords {
        file: String::from_str(alloc, file)?,
        outfile: String::from_str(alloc, outfile)?,
        time_digits,
        energy_digits,
    })))
}
