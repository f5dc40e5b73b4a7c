use crate::files::{CHARGED, certificate_with, run_on, run_with, shelf_with};
use evroute_run::Status;
use std::alloc::{AllocError, Global};
use std::process::Abort;
use worked_instances::{ONE_STATION, PLUG_TIME, RESERVE};

/// A fleet plan of the instance with a reserve.
const RESERVED: &str = "evroute plan 1\nroutes 1\nroute 0 1 v2+4 0\n";

/// A certificate of the instance with a reserve.
const RESERVE_SHOWN: &str =
    "evroute certificate 2\nlevels 1 0\nbound 46\nroot exact 1 1\nshare 1 0 1 v2+4 0\nsections 1\nsection 1 0 5\nprices 46\nlabel 0 0 - 10:0\nlabel 1 1 1 4:20\nlabel 0 2 - 7:16 8:17 10:29\nlabel 1 2 1 2:26 8:32 10:44\nlabel 1 1 1 5:22 6:23 8:35\nleaf 0\n";

/// A certificate of the instance with a time to plug in.
const PLUG_TIME_SHOWN: &str =
    "evroute certificate 1\nbound 45\nroot exact 1 1\nshare 1 0 v2+1 1 0\nsections 1\nsection 1 0 5\nprices 45\nlabel 0 0 - 10:0\nlabel 1 1 1 4:20\nlabel 0 2 - 7:16 8:19 10:31\nlabel 1 2 1 2:26 8:32 10:44\nlabel 1 1 1 5:22 6:25 8:37\nleaf 0\n";

/// What `check` answers of a certificate.
fn judged(
    alloc: Global,
    instance: &str,
    plan: &str,
    certificate: &[u8],
) -> Result<(Status, Vec<u8>), AllocError> {
    let mut shelf = shelf_with(alloc, instance, plan, &[])?;
    shelf.set("Q", certificate)?;
    run_with(alloc, "check A P Q", &mut shelf, &[])
}

/// `check` ends and puts so, or the test fails.
fn assert_judged(
    rt: &impl Abort,
    alloc: Global,
    files: (&str, &str, &str),
    status: Status,
    put: &str,
) {
    let (instance, plan, certificate) = files;
    let ended = judged(alloc, instance, plan, certificate.as_bytes()).expect(rt, "memory");
    assert_eq!(rt; ended.0, status, "{put}");
    assert_eq!(rt; ended.1.as_slice(), put.as_bytes());
}

#[test]
fn a_section_without_weight_or_with_pairs_shows_nothing_at_a_leaf(rt: HostRuntime) {
    let alloc = rt.alloc();
    let text = certificate_with(alloc, "43").expect(&rt, "memory");
    for &(other, put) in &[
        ("section 0 0 5\nprices 0", "rejected certificate 5 leaf 0\n"),
        (
            "section 1 1 5\nprices 43\npair 0 1",
            "rejected certificate 4 leaf 0\n",
        ),
    ] {
        let part = "section 1 0 5\nprices 43";
        let text = text.replace(alloc, part, other).expect(&rt, "memory");
        let files = (ONE_STATION, CHARGED, text.as_str());
        assert_judged(&rt, alloc, files, Status::Negative, put);
    }
}

#[test]
fn a_certificate_belongs_to_its_instance(rt: HostRuntime) {
    let alloc = rt.alloc();
    let text = certificate_with(alloc, "43").expect(&rt, "memory");
    let (status, put) = (Status::Negative, "rejected certificate 6\n");
    assert_judged(&rt, alloc, (PLUG_TIME, CHARGED, text.as_str()), status, put);
    for &(files, status, put) in &[
        (
            (PLUG_TIME, CHARGED, PLUG_TIME_SHOWN),
            Status::Done,
            "accepted\ncost 45/2\nbound 45/2\ngap 0/2\n",
        ),
        (
            (RESERVE, RESERVED, RESERVE_SHOWN),
            Status::Done,
            "accepted\ncost 46/2\nbound 46/2\ngap 0/2\n",
        ),
        (
            (RESERVE, CHARGED, RESERVE_SHOWN),
            Status::Negative,
            "rejected plan 1 route 0 walk 4 at 3\n",
        ),
        (
            (ONE_STATION, CHARGED, RESERVE_SHOWN),
            Status::Refused,
            "refused certificate 3\n",
        ),
    ] {
        assert_judged(&rt, alloc, files, status, put);
    }
}

#[test]
fn no_certificate_with_one_byte_changed_shows_more(rt: HostRuntime) {
    let alloc = rt.alloc();
    let text = certificate_with(alloc, "43").expect(&rt, "memory");
    let mut shelf = shelf_with(alloc, ONE_STATION, CHARGED, &[]).expect(&rt, "memory");
    for at in 0..text.len() {
        let mut bytes = Vec::from_slice(alloc, text.as_bytes()).expect(&rt, "memory");
        bytes[at] = b'9';
        shelf.set("Q", bytes.as_slice()).expect(&rt, "memory");
        let (status, put) = run_with(alloc, "check A P Q", &mut shelf, &[]).expect(&rt, "memory");
        assert!(rt; shows_no_more(status, put.as_slice()), "{at}");
    }
}

/// Whether the answer is that of the certificate as it stands, or a refusal of another one.
fn shows_no_more(status: Status, put: &[u8]) -> bool {
    match status {
        Status::Done => put == ACCEPTED.as_bytes(),
        Status::Negative => put.starts_with(b"rejected certificate "),
        _ => put.starts_with(b"refused certificate "),
    }
}

/// What is put of the certificate as it stands.
const ACCEPTED: &str = "accepted\ncost 43/2\nbound 43/2\ngap 0/2\n";
