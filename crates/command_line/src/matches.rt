//! The job of what the command finds.

ghost use Rattle.std.specs.Prelude.{◌≡◌, IfOk, codes, is_none, option_map};
ghost use Rattle.clap.specs.Words.{first_of};
ghost use Rattle.clap.specs.Walk.{texts};
ghost use Rattle.command_line.specs.JobValue.{AnswersJob};
ghost use Rattle.call_words.specs.Matches.{gives_own, limit_in, rows_in};
ghost use Rattle.command_line.specs.Words.{charge_in, digits_in, gives_only, job_in, job_of_command, near_in, nodes_in};

use crate::Job;
use crate::bound::{bound_job, check_bound_job};
use crate::check::check_job;
use crate::convert::convert_job;
use crate::fixed::fixed_job;
use crate::fleet::fleet_job;
use crate::improve::improve_job;
use crate::make::make_job;
use crate::mixed::{check_mixed_job, mixed_job};
use crate::proof::{check_route_job, prove_job};
use call_words::{GREATEST_VALUE, first_of, gives_own, optional_number, required_number};
use clap::ArgMatches;
use std::alloc::{AllocError, Global};

/// The greatest number of digits.
const GREATEST_DIGITS: u64 = 1_000_000_000;

/// The most other customers of a near set.
const GREATEST_NEAR: u64 = 1_000_000_000;

/// The options of all commands.
const OPTIONS: [&str; 6] = [
    "limit",
    "charge",
    "nodes",
    "time-digits",
    "energy-digits",
    "near",
];

/// Whether no option is given but some of these.
pub(crate) fn gives_only(matches: &ArgMatches<'_>, own: &[&str]) -> bool
    ensures { result ≡ gives_only (texts own.now) (rows_in matches.now) }
{
    gives_own(matches, own, &OPTIONS)
}

/// The level at the start, where it is given; `None` where its value is no number of one.
pub(crate) fn charge_in(matches: &ArgMatches<'_>) -> Option<Option<u64>>
    ensures { result ≡ charge_in (rows_in matches.now) }
{
    optional_number(first_of(matches, "charge"), GREATEST_VALUE)
}

/// How many nodes a search may look at, where it is given; `None` where its value is no number of
/// one, or 0.
pub(crate) fn nodes_in(matches: &ArgMatches<'_>) -> Option<Option<u64>>
    ensures { result ≡ nodes_in (rows_in matches.now) }
{
    let Some(nodes) = optional_number(first_of(matches, "nodes"), GREATEST_VALUE) else {
        return None;
    };
    match nodes {
        Some(0) => None,
        _ => Some(nodes),
    }
}

/// The number of digits that has to be given by an option.
pub(crate) fn digits_in(matches: &ArgMatches<'_>, name: &str) -> Option<u32>
    ensures { result ≡ digits_in name.now (rows_in matches.now) }
{
    let number = required_number(first_of(matches, name), GREATEST_DIGITS)?;
    Some(number as u32)
}

/// How many other customers stand in a near set at most, which has to be given.
pub(crate) fn near_in(matches: &ArgMatches<'_>) -> Option<u32>
    ensures { result ≡ near_in (rows_in matches.now) }
{
    let number = required_number(first_of(matches, "near"), GREATEST_NEAR)?;
    Some(number as u32)
}

/// The job of what the command finds.
pub(crate) fn job_in(alloc: Global, matches: &ArgMatches<'_>) -> Result<Option<Job>, AllocError>
    ensures { AnswersJob result (job_in (rows_in matches.now)) }
{
    let Some(command) = first_of(matches, "command") else {
        return Ok(None);
    };
    match matches.get_strs("rest") {
        Some(rest) => job_of_command(alloc, command, rest, matches),
        None => job_of_command(alloc, command, &[], matches),
    }
}

/// The job of a command, of the words behind it and of the options.
fn job_of_command(
    alloc: Global,
    command: &str,
    rest: &[&str],
    matches: &ArgMatches<'_>,
) -> Result<Option<Job>, AllocError>
    ensures { AnswersJob result
        (job_of_command command.now (texts rest.now) (rows_in matches.now)) }
{
    match command {
        "fixed" => fixed_job(alloc, rest, matches),
        "fleet" => fleet_job(alloc, rest, matches),
        "check" => check_job(alloc, rest, matches),
        "convert" => convert_job(alloc, rest, matches),
        "make" => make_job(alloc, rest, matches),
        "bound" => bound_job(alloc, rest, matches),
        "check-bound" => check_bound_job(alloc, rest, matches),
        "prove" => prove_job(alloc, rest, matches),
        "check-route" => check_route_job(alloc, rest, matches),
        "improve" => improve_job(alloc, rest, matches),
        "mixed" => mixed_job(alloc, rest, matches),
        "check-mixed" => check_mixed_job(alloc, rest, matches),
        _ => Ok(None),
    }
}
