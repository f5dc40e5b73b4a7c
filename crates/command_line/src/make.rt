//! The words of `make`.

ghost use Rattle.std.specs.Prelude.{◌≡◌, IfOk, option_map};
ghost use Rattle.clap.specs.Walk.{texts};
ghost use Rattle.command_line.specs.JobValue.{AnswersJob};
ghost use Rattle.call_words.specs.Matches.{rows_in};
ghost use Rattle.call_words.specs.Numbers.{number_of};
ghost use Rattle.command_line.specs.Words.{make_of, most_count};

use crate::matches::gives_only;
use crate::{Job, MakeWords};
use call_words::number_of;
use clap::ArgMatches;
use std::alloc::{AllocError, Global};

/// The greatest number that an instance is made from.
const GREATEST_SEED: u64 = u64::MAX;

/// The greatest count of customers or stations.
const GREATEST_COUNT: u64 = u32::MAX as u64;

/// The job of making an instance from a number.
pub(crate) fn make_job(
    alloc: Global,
    rest: &[&str],
    matches: &ArgMatches<'_>,
) -> Result<Option<Job>, AllocError>
    ensures { AnswersJob result (make_of (texts rest.now) (rows_in matches.now)) }
{
    let [seed, customers, stations, outfile] = rest else {
        return Ok(None);
    };
    if !gives_only(matches, &[]) {
        return Ok(None);
    }
    let Some(seed) = number_of(seed, GREATEST_SEED) else {
        return Ok(None);
    };
    let Some(customers) = count_of(customers) else {
        return Ok(None);
    };
    let Some(stations) = count_of(stations) else {
        return Ok(None);
    };
    Ok(Some(Job::Make(MakeWords {
        seed,
        customers,
        stations,
        outfile: String::from_str(alloc, outfile)?,
    })))
}

/// The whole word as a count of customers or stations.
fn count_of(word: &str) -> Option<u32>
    ensures { result ≡ number_of most_count word.now }
{
    let count = number_of(word, GREATEST_COUNT)?;
    Some(count as u32)
}
