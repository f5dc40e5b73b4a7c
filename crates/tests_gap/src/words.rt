//! The words of the program.

use crate::files::{run_with, shelf_with, words_of};
use evgap_run::Status;
use gap_words::{Job, job_words, usage};
use std::alloc::Global;

/// What the words of a line name, in short: of `plan` the limit, the seconds, the plan to begin
/// with, the seed, the effort and the nodes, of `check` the limit; `None` where they name no job.
fn named(alloc: Global, line: &str) -> Option<String> {
    let words = words_of(alloc, line).ok()?;
    let job = job_words(alloc, words.as_slice()).ok()??;
    match job {
        Job::Plan(words) => {
            let start = match &words.start {
                Some(start) => start.as_str(),
                None => "-",
            };
            let limit = words.limit.unwrap_or(0);
            let seconds = words.seconds.unwrap_or(0);
            let seed = words.seed;
            let effort = words.effort.unwrap_or(99);
            let nodes = words.nodes.unwrap_or(0);
            format!(in alloc; "plan {limit} {seconds} {start} {seed} {effort} {nodes}").ok()
        }
        Job::Check(words) => {
            let limit = words.limit.unwrap_or(0);
            format!(in alloc; "check {limit}").ok()
        }
        Job::Tell(told) => format!(in alloc; "{told:?}").ok(),
    }
}

#[test]
fn words_name_a_job_or_none(rt: HostRuntime) {
    let alloc = rt.alloc();
    for &(line, want) in &[
        ("plan A P Q", "plan 0 0 - 1 99 0"),
        ("plan A P Q --limit 5", "plan 5 0 - 1 99 0"),
        ("plan --seconds=7 A P Q --start S", "plan 0 7 S 1 99 0"),
        ("plan A P Q --seed 8 --effort 30", "plan 0 0 - 8 30 0"),
        ("plan A P Q --effort=0", "plan 0 0 - 1 0 0"),
        ("plan A P Q --nodes 1", "plan 0 0 - 1 99 1"),
        (
            "plan A P Q --nodes=1000000000000000000",
            "plan 0 0 - 1 99 1000000000000000000",
        ),
        ("check A P Q", "check 0"),
        (
            "check A P Q --limit 1000000000000000000",
            "check 1000000000000000000",
        ),
        ("check A P Q --seconds 1", ""),
        ("check A P Q --start S", ""),
        ("check A P Q --seed 1", ""),
        ("check A P Q --effort 1", ""),
        ("check A P Q --nodes 1", ""),
        ("plan A P Q --effort 31", ""),
        ("plan A P Q --seed 1000000000000000001", ""),
        ("plan A P Q --seed 01", ""),
        ("check A P", ""),
        ("plan A P Q --limit 1000000000000000001", ""),
        ("plan A P Q --seconds 01", ""),
        ("plan A P P", ""),
        ("plan A P Q --start Q", ""),
        ("plan A P Q --nodes 0", ""),
        ("plan A P Q --nodes 03", ""),
        ("plan A P Q --nodes 1000000000000000001", ""),
        ("plan A P Q --nodes 2 --nodes 2", ""),
        ("plan A P Q R", ""),
        ("bound A P Q", ""),
        ("--help", "Help"),
        ("--version", "Version"),
        ("--help A", ""),
        ("--version --version", ""),
        ("plan A P Q --help", ""),
        ("-- --help", ""),
        ("--version=", ""),
    ] {
        let named = named(alloc, line);
        let told = named.as_ref().map(|text| text.as_str()).unwrap_or("");
        assert_eq!(rt; told, want, "{line}");
    }
    assert!(rt; usage().starts_with("evgap plan "));
}

#[test]
fn usage_and_version_are_told(rt: HostRuntime) {
    let alloc = rt.alloc();
    // No call of the shelf is made: the first one would fail.
    let mut shelf = shelf_with(alloc, "", "", "", &[0]).expect(&rt, "memory");
    for &(line, put) in &[("--help", usage()), ("--version", "evgap 0.1.0\n")] {
        let ended = run_with(alloc, line, &mut shelf, &[]).expect(&rt, "memory");
        assert_eq!(rt; ended.0, Status::Done, "{line}");
        assert_eq!(rt; ended.1.as_slice(), put.as_bytes(), "{line}");
    }
    let ended = run_with(alloc, "--version", &mut shelf, &[0]).expect(&rt, "memory");
    assert_eq!(rt; ended.0, Status::Fault);
}
