//! The words of the program.

use crate::files::{run_with, shelf_with, words_of};
use evview_run::Status;
use std::alloc::Global;
use view_words::{Job, PlanForm, ViewWords, job_words, usage};

/// The name of a file, or a dash where there is none.
fn name_or_dash(name: &Option<String>) -> &str {
    match name {
        Some(name) => name.as_str(),
        None => "-",
    }
}

/// The form of the plan in short, with the level at the start, where it is given.
fn told_form(alloc: Global, form: PlanForm) -> Option<String> {
    match form {
        PlanForm::Fleet => String::from_str(alloc, "fleet").ok(),
        PlanForm::Part => String::from_str(alloc, "part").ok(),
        PlanForm::Fixed { charge: None } => String::from_str(alloc, "fixed").ok(),
        PlanForm::Fixed {
            charge: Some(level),
        } => format!(in alloc; "fixed+{level}").ok(),
    }
}

/// The job in short: its limit and its route, or 0 where there is none, which form the plan has,
/// whether times are shown as they are scaled, the file with the names of places, and the files
/// that are written.
fn told(alloc: Global, job: &ViewWords) -> Option<String> {
    let limit = job.limit.unwrap_or(0);
    let route = job.route.unwrap_or(0);
    let form = told_form(alloc, job.form)?;
    let exact = job.exact;
    let clock = match job.clock {
        Some(clock) => format!(in alloc; "{}+{}/{}", clock.begin, clock.seconds, clock.parts).ok()?,
        None => String::from_str(alloc, "-").ok()?,
    };
    let places = name_or_dash(&job.places);
    let svg = name_or_dash(&job.svg);
    let json = name_or_dash(&job.json);
    let csv = name_or_dash(&job.csv);
    let map = name_or_dash(&job.map);
    format!(in alloc;
        "{limit} {route} {form} {exact} {clock} {places} {svg} {json} {csv} {map}"
    ).ok()
}

/// What the words of a line name, in short; `None` where they name no job.
fn named(alloc: Global, line: &str) -> Option<String> {
    let words = words_of(alloc, line).ok()?;
    let job = job_words(alloc, words.as_slice()).ok()??;
    match &job {
        Job::View(job) => told(alloc, job),
        Job::Tell(told) => format!(in alloc; "{told:?}").ok(),
    }
}

#[test]
fn words_name_a_job_or_none(rt: HostRuntime) {
    let alloc = rt.alloc();
    for &(line, want) in &[
        ("A P", "0 0 fleet false - - - - - -"),
        ("A P --limit 5 --route 7", "5 7 fleet false - - - - - -"),
        ("--exact A --route=0 P", "0 0 fleet true - - - - - -"),
        ("A --partial P", "0 0 part false - - - - - -"),
        ("A P --fixed", "0 0 fixed false - - - - - -"),
        (
            "A P --charge 5 --exact --fixed",
            "0 0 fixed+5 true - - - - - -",
        ),
        ("A P --svg S", "0 0 fleet false - - S - - -"),
        ("A --json J P --svg=S --exact", "0 0 fleet true - - S J - -"),
        (
            "A P --limit 1000000000000000000",
            "1000000000000000000 0 fleet false - - - - - -",
        ),
        (
            "A P --csv C --json J --svg S",
            "0 0 fleet false - - S J C -",
        ),
        (
            "A P --begin 07:30 --unit min",
            "0 0 fleet false 450+60/1 - - - - -",
        ),
        (
            "A P --begin 00:00 --unit=h/100 --exact",
            "0 0 fleet true 0+3600/100 - - - - -",
        ),
        (
            "A P --unit s/1000000000 --begin 23:59",
            "0 0 fleet false 1439+1/1000000000 - - - - -",
        ),
        ("A P --places N", "0 0 fleet false - N - - - -"),
        ("A P --map M --places N", "0 0 fleet false - N - - - M"),
        ("A", ""),
        ("A P Q", ""),
        ("A A", ""),
        ("A P --svg P", ""),
        ("A P --json A", ""),
        ("A P --svg S --json S", ""),
        ("A P --csv S --json J --svg S", ""),
        ("A P --csv A", ""),
        ("A P --csv", ""),
        ("A P --places P", ""),
        ("A P --map M", ""),
        ("A P --places N --map N", ""),
        ("A P --places S --svg S", ""),
        ("A P --limit 1000000000000000001", ""),
        ("A P --route 01", ""),
        ("A P --route -1", ""),
        ("A P --exact --exact", ""),
        ("A P --exact=1", ""),
        ("A P --partial --partial", ""),
        ("A P --charge 5", ""),
        ("A P --partial --charge 5", ""),
        ("A P --partial --fixed", ""),
        ("A P --fixed --fixed", ""),
        ("A P --fixed --charge 05", ""),
        ("A P --fixed --charge", ""),
        ("A P --begin 07:30", ""),
        ("A P --unit min", ""),
        ("A P --begin 7:30 --unit min", ""),
        ("A P --begin 24:00 --unit min", ""),
        ("A P --begin 07:60 --unit min", ""),
        ("A P --begin 07:30 --unit m", ""),
        ("A P --begin 07:30 --unit min/", ""),
        ("A P --begin 07:30 --unit min/0", ""),
        ("A P --begin 07:30 --unit h/1000000001", ""),
        ("A P --seconds 1", ""),
        ("--help", "Help"),
        ("--version", "Version"),
        ("--help --help", ""),
        ("A P --version", ""),
        ("-- --help", ""),
        ("--version=", ""),
    ] {
        let named = named(alloc, line);
        let told = named.as_ref().map(|text| text.as_str()).unwrap_or("");
        assert_eq!(rt; told, want, "{line}");
    }
    assert!(rt; usage().starts_with("evview FILE PLAN "));
}

#[test]
fn usage_and_version_are_told(rt: HostRuntime) {
    let alloc = rt.alloc();
    // No call of the shelf is made: the first one would fail.
    let mut shelf = shelf_with(alloc, "", "", &[0]).expect(&rt, "memory");
    for &(line, put) in &[("--help", usage()), ("--version", "evview 0.1.0\n")] {
        let ended = run_with(alloc, line, &mut shelf, &[]).expect(&rt, "memory");
        assert_eq!(rt; ended.0, Status::Done, "{line}");
        assert_eq!(rt; ended.1.as_slice(), put.as_bytes(), "{line}");
    }
    let ended = run_with(alloc, "--version", &mut shelf, &[0]).expect(&rt, "memory");
    assert_eq!(rt; ended.0, Status::Fault);
}
