//! The job of what the command finds.

ghost use Rattle.std.specs.Prelude.{◌≡◌, IfOk, IfSome, option_map, string_bytes};
ghost use Rattle.call_words.specs.Matches.{rows_in};
ghost use Rattle.call_words.specs.Names.{are_different, is_listed};
ghost use Rattle.view_words.specs.JobValue.{AnswersJob, IsViewJob, names_in};
ghost use Rattle.view_words.specs.Clocks.{IsDayClock};
ghost use Rattle.view_words.specs.Words.{charge_in, clock_in, flag_in, form_in, given_names, has_places, job_in, route_in, view_of};

use crate::ViewWords;
use crate::clock::{DayClock, clock_of};
use crate::form::{PlanForm, form_of};
use call_words::{GREATEST_VALUE, first_of, limit_in, optional_number};
use clap::ArgMatches;
use std::alloc::{AllocError, Global};

/// The number of the route that is shown, where it is given; `None` where its value is no number of
/// one.
fn route_in(matches: &ArgMatches<'_>) -> Option<Option<u64>>
    ensures { result ≡ route_in (rows_in matches.now) }
{
    optional_number(first_of(matches, "route"), GREATEST_VALUE)
}

/// Whether the flag of this name stands among the words.
fn flag_in(matches: &ArgMatches<'_>, name: &str) -> bool
    ensures { result ≡ flag_in name.now (rows_in matches.now) }
{
    match first_of(matches, name) {
        Some(value) => value == "true",
        None => false,
    }
}

/// The level at which the vehicle of a route starts, where it is given; `None` where its value is
/// no number of one.
fn charge_in(matches: &ArgMatches<'_>) -> Option<Option<u64>>
    ensures { result ≡ charge_in (rows_in matches.now) }
{
    optional_number(first_of(matches, "charge"), GREATEST_VALUE)
}

/// The form of the plan; `None` where the words for it don't go together.
fn form_in(matches: &ArgMatches<'_>) -> Option<PlanForm>
    ensures { result ≡ form_in (rows_in matches.now) }
{
    let Some(charge) = charge_in(matches) else {
        return None;
    };
    form_of(
        flag_in(matches, "partial"),
        flag_in(matches, "fixed"),
        charge,
    )
}

/// The clock, where it is given; `None` where its words are no clock.
fn clock_in(matches: &ArgMatches<'_>) -> Option<Option<DayClock>>
    ensures value { result ≡ clock_in (rows_in matches.now) }
    ensures is { IfSome result (λ clock. IfSome clock IsDayClock) }
{
    clock_of(first_of(matches, "begin"), first_of(matches, "unit"))
}

/// The job of what the command finds.
pub(crate) fn job_in(
    alloc: Global,
    matches: &ArgMatches<'_>,
) -> Result<Option<ViewWords>, AllocError>
    ensures job { AnswersJob result (job_in (rows_in matches.now)) }
    ensures is { IfOk result (λ job. IfSome job IsViewJob) }
{
    let (Some(file), Some(plan)) = (first_of(matches, "file"), first_of(matches, "plan")) else {
        return Ok(None);
    };
    view_job(alloc, file, plan, matches)
}

/// The job of showing the plan of a file on the instance of another.
fn view_job(
    alloc: Global,
    file: &str,
    plan: &str,
    matches: &ArgMatches<'_>,
) -> Result<Option<ViewWords>, AllocError>
    ensures job { AnswersJob result (view_of file.now plan.now (rows_in matches.now)) }
    ensures is { IfOk result (λ job. IfSome job IsViewJob) }
{
    let (svg, json) = (first_of(matches, "svg"), first_of(matches, "json"));
    let (csv, places) = (first_of(matches, "csv"), first_of(matches, "places"));
    let map = first_of(matches, "map");
    if !given_differ(&[svg, json, csv, map, places, Some(file), Some(plan)]) {
        return Ok(None);
    }
    if !has_places(map, places) {
        return Ok(None);
    }
    let (Some(limit), Some(route)) = (limit_in(matches), route_in(matches)) else {
        return Ok(None);
    };
    let (Some(form), Some(clock)) = (form_in(matches), clock_in(matches)) else {
        return Ok(None);
    };
    Ok(Some(ViewWords {
        file: String::from_str(alloc, file)?,
        plan: String::from_str(alloc, plan)?,
        limit,
        route,
        form,
        exact: flag_in(matches, "exact"),
        clock,
        places: owned(alloc, places)?,
        svg: owned(alloc, svg)?,
        json: owned(alloc, json)?,
        csv: owned(alloc, csv)?,
        map: owned(alloc, map)?,
    }))
}

/// Whether there is a file of places where a map is asked for.
fn has_places(map: Option<&str>, places: Option<&str>) -> bool
    ensures { result ≡ has_places (option_map (λ text. text.now) map.entry)
        (option_map (λ text. text.now) places.entry) }
{
    map.is_none() || places.is_some()
}

/// Whether no two of the names that are given are the same text.
fn given_differ(names: &[Option<&str>]) -> bool
    ensures { result ≡ are_different (given_names (names_in names.now)) }
{
    match names {
        [] => true,
        [name, others @ ..] => match name {
            None => given_differ(others),
            Some(name) => !is_given(name, others) && given_differ(others),
        },
    }
}

/// Whether a text is among the names that are given.
fn is_given(text: &str, names: &[Option<&str>]) -> bool
    ensures { result ≡ is_listed text.now (given_names (names_in names.now)) }
{
    match names {
        [] => false,
        [name, others @ ..] => match name {
            None => is_given(text, others),
            Some(name) => *name == text || is_given(text, others),
        },
    }
}

/// A text of one's own, where there is one.
fn owned(alloc: Global, text: Option<&str>) -> Result<Option<String>, AllocError>
    ensures { IfOk result (λ own. option_map (λ s. string_bytes s) own
        ≡ option_map (λ t. t.now) text.entry) }
{
    match text {
        Some(text) => Ok(Some(String::from_str(alloc, text)?)),
        None => Ok(None),
    }
}
