//! The words of `prove` and `check-route`.

ghost use Rattle.std.specs.Prelude.{◌≡◌, IfOk, option_map};
ghost use Rattle.clap.specs.Walk.{texts};
ghost use Rattle.command_line.specs.JobValue.{AnswersJob, proof_value};
ghost use Rattle.call_words.specs.Matches.{rows_in};
ghost use Rattle.command_line.specs.Words.{check_route_of, proof_of, prove_of};

use crate::matches::{charge_in, gives_only};
use crate::{Job, Options, ProofWords};
use call_words::{are_different, limit_in};
use clap::ArgMatches;
use std::alloc::{AllocError, Global};

/// The job of charging a route of a file, and of writing into another what shows that no charge is
/// faster.
pub(crate) fn prove_job(
    alloc: Global,
    rest: &[&str],
    matches: &ArgMatches<'_>,
) -> Result<Option<Job>, AllocError>
    ensures { AnswersJob result (prove_of (texts rest.now) (rows_in matches.now)) }
{
    match proof_words(alloc, rest, matches) {
        Ok(Some(words)) => Ok(Some(Job::Prove(words))),
        Ok(None) => Ok(None),
        Err(AllocError) => Err(AllocError),
    }
}

/// The job of judging what a file says of the charge of a route of another.
pub(crate) fn check_route_job(
    alloc: Global,
    rest: &[&str],
    matches: &ArgMatches<'_>,
) -> Result<Option<Job>, AllocError>
    ensures { AnswersJob result (check_route_of (texts rest.now) (rows_in matches.now)) }
{
    match proof_words(alloc, rest, matches) {
        Ok(Some(words)) => Ok(Some(Job::CheckRoute(words))),
        Ok(None) => Ok(None),
        Err(AllocError) => Err(AllocError),
    }
}

/// The words of both jobs.
fn proof_words(
    alloc: Global,
    rest: &[&str],
    matches: &ArgMatches<'_>,
) -> Result<Option<ProofWords>, AllocError>
    ensures { IfOk result (λ found.
        option_map proof_value found ≡ proof_of (texts rest.now) (rows_in matches.now)) }
{
    let [file, route, cert] = rest else {
        return Ok(None);
    };
    if !gives_only(matches, &["limit", "charge"]) || !are_different(&[*file, *cert]) {
        return Ok(None);
    }
    let (Some(limit), Some(charge)) = (limit_in(matches), charge_in(matches)) else {
        return Ok(None);
    };
    Ok(Some(ProofWords {
        file: String::from_str(alloc, file)?,
        route: String::from_str(alloc, route)?,
        cert: String::from_str(alloc, cert)?,
        options: Options { limit, charge },
    }))
}
