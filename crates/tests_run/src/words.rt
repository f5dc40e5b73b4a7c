//! What people are told beside the output.

use certificate_check::Verdict;
use certificate_parts::CertText;
use charge_curve::CurveFault;
use command_line::{Job, job_words};
use ev_outside::MemoryShelf;
use ev_text::TextFault;
use evroute_causes::Cause;
use evroute_words::{in_words, left_by_file, left_by_output, told_behind};
use instance_reader::{Key, Part, Place, ReadFault};
use job_listeners::{OutOfMemory, most_memory};
use mixed_model::MixedVerdict;
use near_proof::NearVerdict;
use plain_words::{Failed, Instances, broken_json};
use plan_check::PlanFault;
use refusal_lines::Refusal;
use route_plan::{PlanText, RouteFault, WalkFault};
use route_proof::RouteVerdict;
use std::alloc::{AllocError, Global};
use std::process::Abort;

/// The cause where an instance is no JSON text.
const NO_JSON: Cause = Cause::Refused(Refusal::Instance(ReadFault::NotJson));

/// The cause where a certificate or a proof is of another version.
const OTHER_VERSION: Cause = Cause::Refused(Refusal::Certificate(CertText::Version));

/// The cause where the text of a plan ends too early.
const SHORT_PLAN: Cause = Cause::Refused(Refusal::Plan(PlanText::Bad {
    fault: TextFault::End { at: 7 },
}));

/// Words, which are parted by blanks.
fn parted(alloc: Global, words: &str) -> Result<Vec<String>, AllocError> {
    let mut list = Vec::new(alloc);
    for word in words.split_ascii_whitespace() {
        list.push(String::from_str(alloc, word)?)?;
    }
    Ok(list)
}

/// What is said of a cause for these words, which are parted by blanks.
fn said(alloc: Global, words: &str, cause: Cause) -> Result<String, AllocError> {
    let list = parted(alloc, words)?;
    let job = job_words(alloc, list.as_slice())?;
    match in_words(alloc, list.as_slice(), job.as_ref(), cause)? {
        Some(text) => Ok(text),
        None => Ok(String::new(alloc)),
    }
}

/// This is said of a cause for these words, or the test fails.
fn assert_said(rt: &impl Abort, alloc: Global, words: &str, cause: Cause, want: &str) {
    let found = said(alloc, words, cause).expect(rt, "memory");
    assert_eq!(rt; found.as_str(), want, "at {words}");
}

#[test]
fn refusals_are_told_with_the_file(rt: HostRuntime) {
    for &(words, cause, want) in &[
        (
            "fixed --limit 5 shop.json 0,1,0",
            Cause::Refused(Refusal::Instance(ReadFault::Kind {
                place: Place {
                    key: Key::MaxQ,
                    i: None,
                    part: None,
                    j: None,
                },
            })),
            "shop.json: max_q is of another kind than it must be (evroute convert makes decimals \
             whole)",
        ),
        (
            "fleet a b c",
            NO_JSON,
            "a: no JSON text (in UTF-8, without a byte order mark)",
        ),
        (
            "fixed a 0,1,0",
            Cause::Refused(Refusal::Instance(ReadFault::Level {
                place: Place {
                    key: Key::Breaks,
                    i: Some(3),
                    part: Some(Part::Charge),
                    j: Some(1),
                },
            })),
            "a: breakpoints_by_type/3/charge/1 is more than the battery holds",
        ),
        (
            "fixed a 0,1,0",
            Cause::Refused(Refusal::Instance(ReadFault::BadCurve {
                index: 0,
                fault: CurveFault::Rise { index: 2 },
            })),
            "a: breakpoints_by_type/0 doesn't rise at point 2",
        ),
        (
            "fixed a 0,1,0",
            Cause::Refused(Refusal::Instance(ReadFault::BadCurve {
                index: 1,
                fault: CurveFault::Short { last: 9 },
            })),
            "a: breakpoints_by_type/1 ends at 9, below a full battery",
        ),
        (
            "fixed a 0,1,0 --limit 5",
            Cause::Refused(Refusal::Limit(5)),
            "the limit 5 times the denominator of a is past 10^18",
        ),
        ("check a b c", SHORT_PLAN, "b: ends too early, at byte 7"),
        (
            "check a b --limit=3 c",
            OTHER_VERSION,
            "c: a certificate of another version",
        ),
        (
            "check-route a 0,1,0 c",
            OTHER_VERSION,
            "c: a proof of another version",
        ),
        (
            "check-route a 0,1,0 c",
            Cause::Route(RouteVerdict::Step {
                label: 0,
                node: 2,
                via: true,
            }),
            "c: the step from label 0 to the station at node 2 leads to no listed label",
        ),
        (
            "check-bound a c",
            OTHER_VERSION,
            "c: a proof of a bound of another version",
        ),
        (
            "check-bound a c --limit 3",
            Cause::Near(NearVerdict::Start),
            "c: no listed label covers a vehicle that starts",
        ),
        (
            "check-bound a c",
            Cause::Near(NearVerdict::Step { label: 1, node: 7 }),
            "c: the step from label 1 to node 7 leads to no listed label",
        ),
        (
            "check-bound a c",
            Cause::Near(NearVerdict::End { label: 4 }),
            "c: from label 4 a vehicle comes home for less than its services' prices",
        ),
        (
            "check-bound a c",
            Cause::Near(NearVerdict::Bound),
            "c: the bound is not the sum of the prices, or none is shown",
        ),
        (
            "check-bound a c",
            Cause::Near(NearVerdict::Tight { customer: 3 }),
            "c: the route listed for customer 3 doesn't show that its price can't be higher",
        ),
        ("check-bound a c", Cause::Near(NearVerdict::Accepted), ""),
        ("bound a c --near 3", Cause::NoFleet, ""),
        (
            "fixed a 0,1",
            Cause::Refused(Refusal::Route(RouteFault::Ends)),
            "the route 0,1 doesn't begin and end at the depot, node 0",
        ),
        (
            "make 0 1 1 a",
            Cause::Refused(Refusal::Maker),
            "SEED is from 1 to 2147483646, and there are 1 to 399 customers and stations, at \
             least one of them a customer",
        ),
    ] {
        assert_said(&rt, rt.alloc(), words, cause, want);
    }
}

#[test]
fn jobs_on_several_kinds_are_told_with_their_files(rt: HostRuntime) {
    for &(cause, want) in &[
        (
            Cause::Kinds(1),
            "b: its nodes, customers or denominator differ from those of the first file",
        ),
        (
            NO_JSON,
            "a or b: no JSON text (in UTF-8, without a byte order mark)",
        ),
        (SHORT_PLAN, "p: ends too early, at byte 7"),
        (
            OTHER_VERSION,
            "q: a proof for kinds of vehicles of another version",
        ),
        (
            Cause::Plan(PlanFault::Unserved { customer: 5 }),
            "p: customer 5 is served by no route",
        ),
        (
            Cause::Mixed(MixedVerdict::Start { kind: 0 }),
            "q: kind 0 lists no label of a vehicle that starts",
        ),
        (
            Cause::Mixed(MixedVerdict::Step {
                kind: 1,
                label: 0,
                node: 7,
            }),
            "q: kind 1: the step from label 0 to node 7 leads to no listed label",
        ),
        (
            Cause::Mixed(MixedVerdict::End { kind: 1, label: 4 }),
            "q: kind 1: from label 4 a vehicle comes home for less than its customers' prices",
        ),
        (
            Cause::Mixed(MixedVerdict::Bound),
            "q: its prices don't show the bound",
        ),
        (
            Cause::Mixed(MixedVerdict::Root),
            "q: the root is neither the least cost of a fractional cover, nor a basis that is too \
             wide, nor none where no fleet serves all",
        ),
        (Cause::Mixed(MixedVerdict::Accepted), ""),
    ] {
        assert_said(
            &rt,
            rt.alloc(),
            "check-mixed p q a b --limit 3",
            cause,
            want,
        );
    }
}

#[test]
fn broken_rules_are_told_with_the_file(rt: HostRuntime) {
    for &(cause, want) in &[
        (
            Cause::Plan(PlanFault::Walk {
                route: 0,
                fault: WalkFault::Empty { at: 7 },
            }),
            "b: route 0, at stop 7, both counted from 0, arrives with less than the reserve, or at \
             home with less than it must",
        ),
        (
            Cause::Plan(PlanFault::Walk {
                route: 2,
                fault: WalkFault::Ends,
            }),
            "b: route 2, counted from 0, doesn't begin and end at the depot, each time without \
             charging there",
        ),
        (
            Cause::Plan(PlanFault::Unserved { customer: 5 }),
            "b: customer 5 is served by no route",
        ),
        (
            Cause::Certificate(Verdict::Bound { leaf: 0 }),
            "c: the section of leaf 0 doesn't show the bound",
        ),
        (
            Cause::Alone(3),
            "a: no route of its own serves customer 3 within the limit",
        ),
    ] {
        assert_said(&rt, rt.alloc(), "check a b c", cause, want);
    }
}

#[test]
fn a_wrong_word_is_named(rt: HostRuntime) {
    for &(words, want) in &[
        ("", ""),
        ("--help", ""),
        ("fixed -h", ""),
        ("--limit 5", "no command is named"),
        ("fix a 0,1,0", "fix is no command"),
        ("fixed a 0,1,0 --foot 3", "--foot is no option of fixed"),
        (
            "fixed a 0,1,0 --limit 5.5",
            "--limit 5.5: no whole number of at most 1000000000000000000",
        ),
        ("fixed a 0,1,0 --limit", "--limit needs a number behind it"),
        (
            "fixed a 0,1,0 --limit 1 --limit=2",
            "--limit is given twice",
        ),
        (
            "convert a b --time-digits 1",
            "convert needs --energy-digits N",
        ),
        (
            "fleet a b c --nodes 0",
            "--nodes 0: the number is at least 1",
        ),
        (
            "fleet a b c --nodes=x",
            "--nodes x: no whole number of at most 1000000000000000000",
        ),
        ("bound a b", "bound needs --near N"),
        (
            "bound a b --near 1.5",
            "--near 1.5: no whole number of at most 1000000000",
        ),
        (
            "bound a b --near 1000000001",
            "--near 1000000001: no whole number of at most 1000000000",
        ),
        ("bound a a --near 1", "a is named twice"),
        ("fleet a b c --near 1", "--near is no option of fleet"),
        (
            "check-bound a b --near 1",
            "--near is no option of check-bound",
        ),
        (
            "check a b",
            "check takes 3 names behind it, and 2 are given",
        ),
        ("check a b a", "a is named twice"),
        (
            "mixed p q",
            "mixed takes 3 to 10 names behind it, and 2 are given",
        ),
        (
            "check-mixed p q 1 2 3 4 5 6 7 8 9",
            "check-mixed takes 3 to 10 names behind it, and 11 are given",
        ),
        ("mixed p q a q", "q is named twice"),
        ("mixed p q a --nodes 1", "--nodes is no option of mixed"),
        (
            "make 1 x 0 m",
            "CUSTOMERS x: no whole number of at most 4294967295",
        ),
    ] {
        assert_said(&rt, rt.alloc(), words, Cause::Words, want);
    }
}

/// What is told of the bytes of a file `A` that is no JSON text, or nothing.
fn told_of(alloc: Global, bytes: &[u8]) -> Result<Option<String>, AllocError> {
    let mut shelf = MemoryShelf::new(alloc, Vec::new(alloc));
    shelf.set("A", bytes)?;
    broken_json(alloc, &mut shelf, Instances::One("A"))
}

#[test]
fn a_text_that_is_no_json_is_told_by_its_byte(rt: HostRuntime) {
    let cases: &[(&[u8], &str)] = &[
        (b"{", "A: the JSON text ends too early, at byte 1"),
        (b"", "A: the JSON text ends too early, at byte 0"),
        (b"{\"a\":\n [1, 2,, 3]}", "A: no JSON text from byte 13 on"),
        (b"{\"a\":1}\n\nx", "A: no JSON text from byte 9 on"),
        (b"{\"a\": \"\xff\"}", "A: no JSON text from byte 7 on"),
        (
            b"\xef\xbb\xbf{}",
            "A: begins with a byte order mark, which no JSON text has",
        ),
    ];
    for &(bytes, want) in cases {
        let told = told_of(rt.alloc(), bytes).expect(&rt, "memory");
        assert_eq!(rt; told.expect(&rt, "words").as_str(), want);
    }
    let told = told_of(rt.alloc(), b"{}").expect(&rt, "memory");
    assert!(rt; told.is_none());
}

/// An instance that is no regular file, as a device, isn't read once more.
#[test]
fn what_is_told_behind_a_job_reads_no_device(rt: HostRuntime) {
    let alloc = rt.alloc();
    for &(words, cause, want) in &[
        (
            "fleet /dev/null b c",
            Some(NO_JSON),
            "/dev/null: no JSON text (in UTF-8, without a byte order mark)",
        ),
        (
            "fleet /proc/self/status b c",
            Some(NO_JSON),
            "/proc/self/status: no JSON text from byte 0 on",
        ),
        ("fleet a b c", None, ""),
    ] {
        let list = parted(alloc, words).expect(&rt, "memory");
        let job = job_words(alloc, list.as_slice()).expect(&rt, "memory");
        let told = told_behind(alloc, &rt, list.as_slice(), job.as_ref(), cause);
        let told = told.expect(&rt, "memory");
        let told = told.unwrap_or(String::new(alloc));
        assert_eq!(rt; told.as_str(), want, "{words}");
    }
}

/// The job of these words, which are parted by blanks.
fn job_of(alloc: Global, words: &str) -> Result<Option<Job>, AllocError> {
    job_words(alloc, parted(alloc, words)?.as_slice())
}

/// What a failure leaves is told so, or the test fails.
fn assert_left(
    rt: &impl Abort,
    words: &str,
    told: Result<Option<String>, AllocError>,
    want: Option<&str>,
) {
    let told = told.expect(rt, "memory");
    assert_eq!(rt; told.as_ref().map(|told| told.as_str()), want, "{words}");
}

#[test]
fn what_a_failed_file_leaves_is_told(rt: HostRuntime) {
    let alloc = rt.alloc();
    for &(words, failed, want) in &[
        (
            "fleet a --limit 3 b c",
            Failed::File("b"),
            Some("b may hold a part, and is to be written again, c is as it was before"),
        ),
        (
            "fleet a b c",
            Failed::File("c"),
            Some("b is whole, c may hold a part, and is to be written again"),
        ),
        (
            "fleet a b c",
            Failed::Unchanged("c"),
            Some("b is whole, c wasn't written"),
        ),
        (
            "fleet a b c",
            Failed::Unchanged("b"),
            Some("b wasn't written, c is as it was before"),
        ),
        ("fleet a b c", Failed::File("a"), None),
        (
            "improve a b c",
            Failed::File("c"),
            Some("c may hold a part, and is to be written again"),
        ),
        ("improve a b c", Failed::File("b"), None),
        (
            "bound a c --near 2",
            Failed::File("c"),
            Some("c may hold a part, and is to be written again"),
        ),
        ("bound a c --near 2", Failed::File("a"), None),
        ("check-bound a c", Failed::File("c"), None),
        (
            "mixed p q a b",
            Failed::File("q"),
            Some("p is whole, q may hold a part, and is to be written again"),
        ),
        ("mixed p q a b", Failed::File("a"), None),
        ("check-mixed p q a b", Failed::File("p"), None),
        (
            "convert a b --time-digits 0 --energy-digits 0",
            Failed::File("b"),
            Some("b may hold a part, and is to be written again"),
        ),
        ("check a b c", Failed::File("b"), None),
        ("fleet a b c", Failed::Asked, Some("no file was written")),
    ] {
        let job = job_of(alloc, words).expect(&rt, "memory");
        assert_left(&rt, words, left_by_file(alloc, job.as_ref(), failed), want);
    }
}

#[test]
fn what_a_failed_output_leaves_is_told(rt: HostRuntime) {
    let alloc = rt.alloc();
    for &(words, cause, want) in &[
        (
            "fleet a b c",
            Some(Cause::NoFleet),
            Some("b is whole, c is whole"),
        ),
        ("fleet a b c", Some(NO_JSON), None),
        ("bound --near 2 a c", None, Some("c is whole")),
        (
            "mixed --limit 3 p q a b",
            None,
            Some("p is whole, q is whole"),
        ),
        ("mixed p q a b", Some(Cause::Kinds(1)), None),
        ("make 1 1 0 c", None, Some("c is whole")),
        ("improve a b c", Some(Cause::Alone(1)), None),
        ("fixed a 0,1,0", None, None),
    ] {
        let job = job_of(alloc, words).expect(&rt, "memory");
        assert_left(&rt, words, left_by_output(alloc, job.as_ref(), cause), want);
    }
}

#[test]
fn the_most_memory_is_read(rt: HostRuntime) {
    for &(status, want) in &[
        (
            "Name:\tevroute\nVmPeak:\t    5120 kB\nVmHWM:\t 1263616 kB\nVmRSS:\t    1024 kB\n",
            Some(1_263_616),
        ),
        ("VmHWM:\t    3072 kB", Some(3072)),
        ("VmHWM: 1024000 kB", Some(1_024_000)),
        ("VmHWM:\t kB\nVmHWM: 7 kB\n", None),
        ("Name:\tevroute\nVmRSS:\t    1024 kB\n", None),
        ("VmHWM:", None),
        ("", None),
    ] {
        let found = most_memory(status.as_bytes());
        assert_eq!(rt; found, want, "{status}");
    }
}

#[test]
fn the_most_memory_is_told(rt: HostRuntime) {
    let alloc = rt.alloc();
    for &(kilobytes, want) in &[
        (1_263_616, "out of memory after 1,234 MB"),
        (3072, "out of memory after 3 MB"),
        (1_024_000, "out of memory after 1,000 MB"),
    ] {
        let told = format!(in alloc; "{}", OutOfMemory { kilobytes }).expect(&rt, "memory");
        assert_eq!(rt; told.as_str(), want);
    }
}
