//! Certificates are read, judged and written.

use crate::asserting::assert_text;
use bound_certificate::{push_certificate, read_certificate};
use certificate_check::{Verdict, check_certificate};
use instance_reader::{Instance, read_instance};
use std::alloc::Global;
use worked_instances::ONE_STATION;

/// A certificate of the instance with one station.
const ACCEPTED: &str =
    "evroute certificate 1\nbound 43\nroot exact 1 1\nshare 1 0 v2+1 1 0\nsections 1\nsection 1 0 5\nprices 43\nlabel 0 0 - 10:0\nlabel 1 1 1 4:20\nlabel 0 2 - 7:16 8:17 10:29\nlabel 1 2 1 2:26 8:32 10:44\nlabel 1 1 1 5:22 6:23 8:35\nleaf 0\n";

/// The same with a root that lists a basis, which isn't too wide.
const NARROW: &str =
    "evroute certificate 1\nbound 43\nroot wide 1\ncolumn 0 v2+1 1 0\nbasis 0\nsections 1\nsection 1 0 5\nprices 43\nlabel 0 0 - 10:0\nlabel 1 1 1 4:20\nlabel 0 2 - 7:16 8:17 10:29\nlabel 1 2 1 2:26 8:32 10:44\nlabel 1 1 1 5:22 6:23 8:35\nleaf 0\n";

/// The text of what is read of a certificate.
fn again(alloc: Global, inst: &Instance, text: &str) -> Option<Vec<u8>> {
    if inst.customers().len() > 128 {
        return None;
    }
    let certificate = read_certificate(alloc, inst, text.as_bytes()).ok()?;
    let mut out = Vec::new(alloc);
    push_certificate(alloc, &mut out, inst, &certificate).ok()?;
    Some(out)
}

/// What the judge says of a certificate.
fn judged(alloc: Global, inst: &Instance, text: &str) -> Option<Verdict> {
    if inst.customers().len() > 128 {
        return None;
    }
    let certificate = read_certificate(alloc, inst, text.as_bytes()).ok()?;
    check_certificate(alloc, inst, &certificate).ok()
}

#[test]
fn certificates_are_read_judged_and_written(rt: HostRuntime) {
    let alloc = rt.alloc();
    let inst = read_instance(alloc, ONE_STATION.as_bytes()).expect(&rt, "an instance");
    for &(text, verdict) in &[(ACCEPTED, Verdict::Accepted), (NARROW, Verdict::Root)] {
        assert_text(&rt, again(alloc, &inst, text), text);
        assert!(rt; judged(alloc, &inst, text) == Some(verdict));
    }
}
