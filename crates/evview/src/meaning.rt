//! What people are told that a cause means, and the files that a job reads and writes, by name.

use crate::commands::COMMANDS;
use evview_run::Cause;
use place_names::{EntryFault, PlacesFault};
pub(crate) use plain_words::Failed;
use plain_words::{
    Instances, JobNames, Sentence, left_in, rejected_plan, told_refusal, wrong_word,
};
use std::alloc::{AllocError, Global};
use std::rt::Files;
use view_words::{Job, ViewWords};

/// What people are told behind a job that put a text: which word is wrong, or what its cause means.
/// `words` stand behind the program's name, and `job` is the one that they name.
pub(crate) fn told_behind<R: Files>(
    alloc: Global,
    files: &R,
    words: &[String],
    job: Option<&Job>,
    cause: Option<Cause>,
) -> Result<Option<String>, AllocError> {
    let Some(job) = job else {
        let wrong = wrong_word(alloc, "evview", COMMANDS, words)?;
        return wrong_or_clock(alloc, wrong, words);
    };
    let Job::View(job) = job else {
        return Ok(None);
    };
    let names = names_of(job);
    let sentence = match cause {
        Some(Cause::Refused(refusal)) => return told_refusal(alloc, files, &names, refusal),
        Some(Cause::Number(number)) => Sentence::about(
            "{PLAN}: there is no route {1}, counted from 0",
            number,
        ),
        Some(Cause::Places(fault)) => refused_places(fault),
        Some(Cause::Plan(fault)) => rejected_plan(fault),
        Some(Cause::Time(_)) => Sentence::plain(
            "{PLAN}: the route takes another time than this one, which is told of it",
        ),
        Some(Cause::Words) | None => return Ok(None),
    };
    Ok(Some(sentence.told(alloc, &names)?))
}

/// What the broken rule of a file of places means.
fn refused_places(fault: PlacesFault) -> Sentence {
    match fault {
        PlacesFault::TooLong => Sentence::plain("{CERT}: the file is longer than 2^26 bytes"),
        PlacesFault::NotJson => Sentence::plain("{CERT}: the bytes are no JSON text"),
        PlacesFault::NoList => Sentence::plain(
            "{CERT}: the top value is no object with an array under places",
        ),
        PlacesFault::Entry(index, wrong) => Sentence::one(
            "{CERT}: entry {1} of places, counted from 0, {word}",
            index,
        ).saying(words_of_entry(wrong)),
        PlacesFault::Count(count) => Sentence::one(
            "{CERT}: it has {1} places, and {FILE} another number of nodes",
            count,
        ),
    }
}

/// What is wrong with an entry of a file of places.
fn words_of_entry(wrong: EntryFault) -> &'static str {
    match wrong {
        EntryFault::NoObject => "is no object",
        EntryFault::Name => "has no text under name",
        EntryFault::Character => {
            "has a name with a control character, the end of a line, or U+FFFE or U+FFFF"
        }
        EntryFault::X => "has no whole number of 64 bits under x",
        EntryFault::Y => "has no whole number of 64 bits under y",
    }
}

/// What is wrong with words that name no job: what was found, or else the form of the plan, or
/// their clock, where they have words of one.
fn wrong_or_clock(
    alloc: Global,
    wrong: Option<String>,
    words: &[String],
) -> Result<Option<String>, AllocError> {
    if wrong.is_some() {
        return Ok(wrong);
    }
    if let Some(told) = form_alone(words) {
        return Ok(Some(String::from_str(alloc, told)?));
    }
    if !words.iter().any(|word| is_of_clock(word.as_str())) {
        return map_alone(alloc, words);
    }
    Ok(Some(String::from_str(
        alloc,
        "--begin is a time of day from 00:00 to 23:59, --unit is s, min or h, or one of them \
with /N behind it, N from 1 to 1000000000, and both are given or neither",
    )?))
}

/// What is wrong with words for the form of the plan, where that is it.
fn form_alone(words: &[String]) -> Option<&'static str> {
    let is_given = |name: &str| words.iter().any(|word| word.starts_with(name));
    if is_given("--charge") && !is_given("--fixed") {
        Some("--charge asks for --fixed: a fleet plan begins with full batteries")
    } else if is_given("--partial") && is_given("--fixed") {
        Some("PLAN is a part of a plan, --partial, or what fixed puts, --fixed, and not both")
    } else {
        None
    }
}

/// What is wrong with words of a map.
fn map_alone(alloc: Global, words: &[String]) -> Result<Option<String>, AllocError> {
    if !words.iter().any(|word| word.starts_with("--map")) {
        return Ok(None);
    }
    Ok(Some(String::from_str(alloc, "--map asks for --places FILE, the places by node")?))
}

/// Whether a word is an option of the clock.
fn is_of_clock(word: &str) -> bool {
    word.starts_with("--begin") || word.starts_with("--unit")
}

/// What stands in the files of a job where a file or the output failed; where it was the output,
/// an answer with this cause was to go to it.
pub(crate) fn told_left(
    alloc: Global,
    job: Option<&Job>,
    cause: Option<Cause>,
    failed: Failed<'_>,
) -> Result<Option<String>, AllocError> {
    match (job, failed) {
        (Some(Job::View(_)), Failed::Output) if cause.is_some() => Ok(None),
        (Some(Job::View(job)), _) => left_in(alloc, &written_by(job), failed),
        _ => Ok(None),
    }
}

/// The files that a job writes, in order.
fn written_by(job: &ViewWords) -> [Option<&str>; 4] {
    [
        job.svg.as_ref().map(|name| name.as_str()),
        job.json.as_ref().map(|name| name.as_str()),
        job.csv.as_ref().map(|name| name.as_str()),
        job.map.as_ref().map(|name| name.as_str()),
    ]
}

/// What a job reads.
fn names_of(job: &ViewWords) -> JobNames<'_> {
    JobNames {
        instances: Instances::One(job.file.as_str()),
        limit: job.limit,
        route: None,
        plan: Some(job.plan.as_str()),
        // The sentences of a file of places name it so.
        proof: job.places.as_ref().map(|name| name.as_str()),
        proof_is: "places",
        // More than two may be written: `written_by` has them all.
        writes: [None, None],
        has_search: false,
        judge: None,
    }
}
