//! The jobs that lines of words name.

use command_line::{Job, MixedWords, ProofWords, job_words, usage};
use std::alloc::{AllocError, Global};
use std::process::Abort;

/// The words of a line, in which they are parted by single spaces.
fn words_of(alloc: Global, line: &str) -> Result<Vec<String>, AllocError> {
    let mut words = Vec::new(alloc);
    for word in line.split(' ') {
        words.push(String::from_str(alloc, word)?)?;
    }
    Ok(words)
}

/// What the job of a line is, in one line.
fn job_text(alloc: Global, line: &str) -> Result<String, AllocError> {
    let words = words_of(alloc, line)?;
    match job_words(alloc, words.as_slice())? {
        Some(Job::Fixed(job)) => {
            let options = job.options;
            format!(in alloc;
                "fixed {} {} {:?} {:?}",
                job.file, job.route, options.limit, options.charge
            )
        }
        Some(Job::Fleet(job)) => {
            format!(in alloc;
                "fleet {} {} {} {:?} {:?}",
                job.file, job.plan, job.cert, job.limit, job.nodes
            )
        }
        Some(Job::Check(job)) => {
            format!(in alloc;
                "check {} {} {} {:?}",
                job.file, job.plan, job.cert, job.limit
            )
        }
        Some(Job::Convert(job)) => {
            format!(in alloc;
                "convert {} {} {} {}",
                job.file, job.outfile, job.time_digits, job.energy_digits
            )
        }
        Some(Job::Make(job)) => {
            format!(in alloc;
                "make {} {} {} {}",
                job.seed, job.customers, job.stations, job.outfile
            )
        }
        Some(Job::Bound(job)) => {
            format!(in alloc;
                "bound {} {} {} {:?}",
                job.file, job.cert, job.near, job.limit
            )
        }
        Some(Job::CheckBound(job)) => {
            format!(in alloc; "check-bound {} {} {:?}", job.file, job.cert, job.limit)
        }
        Some(Job::Prove(job)) => proof_text(alloc, "prove", &job),
        Some(Job::CheckRoute(job)) => proof_text(alloc, "check-route", &job),
        Some(Job::Improve(job)) => {
            format!(in alloc;
                "improve {} {} {} {:?}",
                job.file, job.plan, job.outfile, job.limit
            )
        }
        Some(Job::Mixed(job)) => kinds_text(alloc, "mixed", &job),
        Some(Job::CheckMixed(job)) => kinds_text(alloc, "check-mixed", &job),
        None => String::from_str(alloc, "none"),
    }
}

/// What a job on several kinds of vehicles is, in one line.
fn kinds_text(alloc: Global, command: &str, job: &MixedWords) -> Result<String, AllocError> {
    let mut text = format!(in alloc; "{command} {} {}", job.plan, job.cert)?;
    for file in &job.files {
        text.push(' ')?;
        text.push_str(file.as_str())?;
    }
    format!(in alloc; "{text} {:?}", job.limit)
}

/// What a job of proving or of judging a proof is, in one line.
fn proof_text(alloc: Global, command: &str, job: &ProofWords) -> Result<String, AllocError> {
    let options = job.options;
    format!(in alloc;
        "{command} {} {} {} {:?} {:?}",
        job.file, job.route, job.cert, options.limit, options.charge
    )
}

/// The line names this job, or the test fails.
fn assert_job(rt: &impl Abort, alloc: Global, line: &str, wanted: &str) {
    let job = job_text(alloc, line).expect(rt, "memory");
    assert_eq!(rt; job.as_str(), wanted, "{line}");
}

#[test]
fn words_name_jobs_on_one_route(rt: HostRuntime) {
    for &(line, wanted) in &[
        ("fixed A 0,1,0", "fixed A 0,1,0 None None"),
        (
            "--limit 22 fixed A --charge=0 0,1,0",
            "fixed A 0,1,0 Some(22) Some(0)",
        ),
        (
            "fixed A --limit=1000000000000000000 0,1,0",
            "fixed A 0,1,0 Some(1000000000000000000) None",
        ),
        ("fixed - -- --limit", "fixed - --limit None None"),
        ("-- fixed -A -1", "fixed -A -1 None None"),
        ("fixed A A", "fixed A A None None"),
        ("fixed A 0,1,0 -- --limit 22", "none"),
        ("fixed A 0,1,0 --limit 22 --limit 22", "none"),
        ("fixed A 0,1,0 --limit 022", "none"),
        ("fixed A 0,1,0 --limit=", "none"),
        ("fixed A 0,1,0 --limit -1", "none"),
        ("fixed A 0,1,0 --limit 1000000000000000001", "none"),
        ("fixed A 0,1,0 --nodes 1", "none"),
        ("fixed A 0,1,0 --lim 1", "none"),
        ("fixed -A 0,1,0", "none"),
        ("fixed A", "none"),
        ("fixed A 0,1,0 --near 2", "none"),
        ("--help", "none"),
        ("fixed A 0,1,0 -h", "none"),
        ("help", "none"),
        ("", "none"),
    ] {
        assert_job(&rt, rt.alloc(), line, wanted);
    }
}

#[test]
fn words_name_jobs_that_check_a_plan(rt: HostRuntime) {
    for &(line, wanted) in &[
        ("check A P Q", "check A P Q None"),
        ("check A --limit 3 P Q", "check A P Q Some(3)"),
        ("check A P Q --charge 3", "none"),
        ("check A A Q", "none"),
        ("check A P A", "none"),
        ("check A P P", "none"),
        ("check A P", "none"),
        ("check A P Q R", "none"),
        ("check A P Q --nodes 1", "none"),
        ("check A P Q --near 2", "none"),
    ] {
        assert_job(&rt, rt.alloc(), line, wanted);
    }
}

#[test]
fn words_name_jobs_that_plan_a_fleet(rt: HostRuntime) {
    for &(line, wanted) in &[
        ("fleet A P Q", "fleet A P Q None None"),
        (
            "fleet --nodes 1000000000000000000 A P --limit=0 Q",
            "fleet A P Q Some(0) Some(1000000000000000000)",
        ),
        ("fleet A P Q --nodes 1", "fleet A P Q None Some(1)"),
        ("fleet A P Q --nodes 0", "none"),
        ("fleet A P Q --nodes 01", "none"),
        ("fleet A P Q --nodes 1000000000000000001", "none"),
        ("fleet A P Q --nodes 1 --nodes 1", "none"),
        ("fleet A P Q --charge 1", "none"),
        ("fleet A P Q --time-digits 1", "none"),
        ("fleet A A Q", "none"),
        ("fleet A P A", "none"),
        ("fleet A P P", "none"),
        ("fleet A P", "none"),
        ("fleet A P Q R", "none"),
        ("fleet A P Q --near 2", "none"),
    ] {
        assert_job(&rt, rt.alloc(), line, wanted);
    }
}

#[test]
fn words_name_jobs_that_convert_and_make(rt: HostRuntime) {
    for &(line, wanted) in &[
        (
            "convert A W --time-digits 2 --energy-digits 0 --nodes 1",
            "none",
        ),
        ("make 1 1 0 M --nodes 1", "none"),
        (
            "convert A W --time-digits 2 --energy-digits=1000000000",
            "convert A W 2 1000000000",
        ),
        (
            "convert A W --time-digits 2 --energy-digits 1000000001",
            "none",
        ),
        ("convert A W --time-digits 2", "none"),
        ("convert A A --time-digits 2 --energy-digits 0", "none"),
        (
            "make 18446744073709551615 4294967295 0 M",
            "make 18446744073709551615 4294967295 0 M",
        ),
        ("make 18446744073709551616 1 0 M", "none"),
        ("make 1 4294967296 0 M", "none"),
        ("make 1 1 00 M", "none"),
        ("make 1 1 0 M --limit 1", "none"),
        ("make 1 1 0", "none"),
        ("make 1 1 0 M --near 2", "none"),
    ] {
        assert_job(&rt, rt.alloc(), line, wanted);
    }
}

#[test]
fn words_name_jobs_on_a_bound(rt: HostRuntime) {
    for &(line, wanted) in &[
        ("bound A C --near 2", "bound A C 2 None"),
        ("bound --limit=7 A --near 0 C", "bound A C 0 Some(7)"),
        ("bound A C --near 1000000000", "bound A C 1000000000 None"),
        ("bound A C --near 1000000001", "none"),
        ("bound A C --near 02", "none"),
        ("bound A C --near=", "none"),
        ("bound A C", "none"),
        ("bound A C --limit 7", "none"),
        ("bound A C --near 2 --near 2", "none"),
        ("bound A C --near 2 --nodes 3", "none"),
        ("bound A A --near 2", "none"),
        ("bound A --near 2", "none"),
        ("bound A P C --near 2", "none"),
        ("check-bound A C", "check-bound A C None"),
        ("check-bound A --limit 7 C", "check-bound A C Some(7)"),
        ("check-bound A C --near 2", "none"),
        ("check-bound A A", "none"),
        ("check-bound A", "none"),
    ] {
        assert_job(&rt, rt.alloc(), line, wanted);
    }
}

#[test]
fn words_name_jobs_on_a_proof_of_a_route(rt: HostRuntime) {
    for &(line, wanted) in &[
        ("prove A 0,1,0 C --near 2", "none"),
        ("prove A 0,1,0 C", "prove A 0,1,0 C None None"),
        (
            "check-route A --charge 3 0,1,0 C --limit=4",
            "check-route A 0,1,0 C Some(4) Some(3)",
        ),
        ("prove A A C", "prove A A C None None"),
        ("prove A C C", "prove A C C None None"),
        ("prove A 0,1,0 A", "none"),
        ("check-route A 0,1,0 A", "none"),
        ("prove A 0,1,0", "none"),
        ("prove A 0,1,0 C --nodes 3", "none"),
    ] {
        assert_job(&rt, rt.alloc(), line, wanted);
    }
}

#[test]
fn words_name_jobs_that_improve_a_plan(rt: HostRuntime) {
    for &(line, wanted) in &[
        ("improve A P O --near 2", "none"),
        ("improve A P O", "improve A P O None"),
        ("improve A --limit 3 P O", "improve A P O Some(3)"),
        ("improve A P O --nodes 3", "none"),
        ("improve A A O", "none"),
        ("improve A P A", "none"),
        ("improve A P P", "none"),
        ("improve A P", "none"),
        ("improve A P O Q", "none"),
    ] {
        assert_job(&rt, rt.alloc(), line, wanted);
    }
}

#[test]
fn words_name_jobs_on_several_kinds(rt: HostRuntime) {
    for &(line, wanted) in &[
        ("mixed P Q A", "mixed P Q A None"),
        ("mixed P Q B A --limit 12", "mixed P Q B A Some(12)"),
        (
            "mixed P --limit=0 Q 1 2 3 4 5 6 7 8",
            "mixed P Q 1 2 3 4 5 6 7 8 Some(0)",
        ),
        ("check-mixed P Q A B", "check-mixed P Q A B None"),
        (
            "--limit 3 check-mixed P -- Q -A",
            "check-mixed P Q -A Some(3)",
        ),
        ("mixed P Q", "none"),
        ("mixed P", "none"),
        ("mixed P Q 1 2 3 4 5 6 7 8 9", "none"),
        ("mixed P Q A B A", "none"),
        ("mixed P P A", "none"),
        ("mixed P Q A P", "none"),
        ("check-mixed P Q Q", "none"),
        ("mixed P Q A --nodes 1", "none"),
        ("mixed P Q A --near 1", "none"),
        ("check-mixed P Q A --charge 1", "none"),
    ] {
        assert_job(&rt, rt.alloc(), line, wanted);
    }
}

#[test]
fn the_usage_text_begins_with_one_route(rt: HostRuntime) {
    assert!(rt; usage().starts_with("evroute fixed FILE ROUTE"));
}
