//! The words of `fleet`.

ghost use Rattle.std.specs.Prelude.{◌≡◌, IfOk, option_map};
ghost use Rattle.clap.specs.Walk.{texts};
ghost use Rattle.command_line.specs.JobValue.{AnswersJob};
ghost use Rattle.call_words.specs.Matches.{rows_in};
ghost use Rattle.command_line.specs.Words.{fleet_of};

use crate::matches::{gives_only, nodes_in};
use crate::{FleetWords, Job};
use call_words::{are_different, limit_in};
use clap::ArgMatches;
use std::alloc::{AllocError, Global};

/// The job of planning a fleet on the instance of a file, and of writing its plan and a certificate
/// into two others.
pub(crate) fn fleet_job(
    alloc: Global,
    rest: &[&str],
    matches: &ArgMatches<'_>,
) -> Result<Option<Job>, AllocError>
    ensures { AnswersJob result (fleet_of (texts rest.now) (rows_in matches.now)) }
{
    let [file, plan, cert] = rest else {
        return Ok(None);
    };
    if !gives_only(matches, &["limit", "nodes"]) || !are_different(rest) {
        return Ok(None);
    }
    let (Some(limit), Some(nodes)) = (limit_in(matches), nodes_in(matches)) else {
        return Ok(None);
    };
    Ok(Some(Job::Fleet(FleetWords {
        file: String::from_str(alloc, file)?,
        plan: String::from_str(alloc, plan)?,
        cert: String::from_str(alloc, cert)?,
        limit,
        nodes,
    })))
}
