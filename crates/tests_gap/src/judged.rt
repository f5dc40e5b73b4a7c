//! The judge of plans and proofs, on what anybody may have written.

use crate::files::{assert_run, shelf_with};
use evgap_run::Status;
use std::alloc::Global;
use std::process::Abort;
use worked_instances::{NO_STATION, ONE_STATION, TWO_CUSTOMERS};

/// A plan of the one customer without a station.
const OUT: &str = "evroute plan 1\nroutes 1\nroute 0 1 0\n";

/// A plan file that holds no plan.
const NONE: &str = "evroute plan 1\nnone\n";

/// A proof that no fleet plan of the one customer without a station costs less than 8.
const EIGHT: &str =
    "evroute near 1\nbound 8\nsection 1 2\nprices 8\nnear 1\nlabel 0 - 0 0 10:0\nlabel 1 1 1 8 9:4\ntight 0 1 0\n";

/// A proof that two customers can't be served within a limit of 7.
const NOWHERE: &str =
    "evroute near 1\nbound none\nsection 0 3\nprices 1 0\nnear 1,2\nnear 1,2\nlabel 0 - 0 0 10:0\nlabel 1 1 1 1 9:4\nlabel 2 2 1 0 9:4\n";

/// A tree of one leaf that shows that no fleet plan of the one customer with a station costs less
/// than 43 halves.
const TREE: &str =
    "evroute near tree 1\nbound 43\nleaf\nsection 1 5\nprices 43\nnear 1\nlabel 0 - 0 10:0\nlabel 1 1 43 4:20\nlabel 2 * - 0 7:16 8:17 10:29\nlabel 2 * 1 43 2:26 8:32 10:44\nlabel 1 1 43 5:22 6:23 8:35\n";

/// The judge ends and puts so on this plan and this proof, of which a piece is another one, or the
/// test fails.
fn assert_judged(
    rt: &impl Abort,
    alloc: Global,
    line: &str,
    files: (&str, &str, &str),
    pieces: (&str, &str),
    status: Status,
    put: &str,
) {
    let (instance, plan, proof) = files;
    let proof = proof
        .replacen(alloc, pieces.0, pieces.1, 1)
        .expect(rt, "memory");
    let mut shelf = shelf_with(alloc, instance, plan, proof.as_str(), &[]).expect(rt, "memory");
    assert_run(rt, alloc, line, &mut shelf, status, put);
}

#[test]
fn plans_and_proofs_are_judged(rt: HostRuntime) {
    let alloc = rt.alloc();
    for &(line, files, pieces, status, put) in &[
        (
            "check A P Q",
            (NO_STATION, OUT, EIGHT),
            ("", ""),
            Status::Done,
            "accepted\ncost 8/1\nbound 8/1\ngap 0/1\ngap 0.00 %\n",
        ),
        (
            "check A P Q",
            (NO_STATION, NONE, EIGHT),
            ("", ""),
            Status::Done,
            "accepted\ncost none\nbound 8/1\ngap none\n",
        ),
        (
            "check A P Q --limit 7",
            (TWO_CUSTOMERS, NONE, NOWHERE),
            ("", ""),
            Status::Done,
            "accepted\ncost none\nbound none\ngap none\n",
        ),
        (
            "check A P Q",
            (NO_STATION, OUT, EIGHT),
            ("10:0", "9:0"),
            Status::Negative,
            "rejected near 1\n",
        ),
        (
            "check A P Q",
            (NO_STATION, OUT, EIGHT),
            ("bound 8", "bound 9"),
            Status::Negative,
            "rejected near 4\n",
        ),
        (
            "check A P Q",
            (NO_STATION, OUT, EIGHT),
            ("8\nsection 1 2\nprices 8", "0\nsection 1 2\nprices 0"),
            Status::Negative,
            "rejected near 5 customer 1\n",
        ),
        (
            "check A P Q",
            (TWO_CUSTOMERS, OUT, NOWHERE),
            ("", ""),
            Status::Negative,
            "rejected plan 3 customer 2\n",
        ),
        (
            "check A P Q",
            (ONE_STATION, NONE, TREE),
            ("", ""),
            Status::Done,
            "accepted\ncost none\nbound 43/2\ngap none\n",
        ),
        (
            "check A P Q",
            (ONE_STATION, NONE, TREE),
            ("10:0", "9:0"),
            Status::Negative,
            "rejected tree 1 leaf 0\n",
        ),
        (
            "check A P Q",
            (ONE_STATION, NONE, TREE),
            ("bound 43", "bound 44"),
            Status::Negative,
            "rejected tree 4 leaf 0\n",
        ),
        (
            "check A P Q",
            (ONE_STATION, OUT, TREE),
            ("tree 1", "tree 2"),
            Status::Refused,
            "refused certificate 3\n",
        ),
        (
            "check A P Q",
            (NO_STATION, OUT, EIGHT),
            ("evroute near 1", "evroute near 2"),
            Status::Refused,
            "refused certificate 3\n",
        ),
        (
            "check A Q P",
            (NO_STATION, OUT, EIGHT),
            ("", ""),
            Status::Refused,
            "refused plan 3 at 0\n",
        ),
        (
            "check P A Q",
            (NO_STATION, OUT, EIGHT),
            ("", ""),
            Status::Refused,
            "refused instance 2\n",
        ),
        (
            "check A P B",
            (NO_STATION, OUT, EIGHT),
            ("", ""),
            Status::Fault,
            "",
        ),
    ] {
        assert_judged(&rt, alloc, line, files, pieces, status, put);
    }
}
