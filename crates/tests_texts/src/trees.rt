//! A tree over near sections is read, written and judged; one with a fault is refused or rejected.
//! It and a near proof are judged as proofs of either kind.

use crate::asserting::assert_text;
use instance_reader::{Instance, read_instance};
use near_tree::{TreeVerdict, check_tree};
use std::alloc::Global;
use tree_text::{
    CertText, check_bound_proof, push_bound_proof, push_bound_verdict, push_tree, read_bound_proof,
    read_tree,
};
use worked_instances::ONE_STATION;

/// A tree of one leaf, which shows that no fleet plan on the instance with one station costs less
/// than 43.
const TREE: &str =
    "evroute near tree 1\nbound 43\nleaf\nsection 1 5\nprices 43\nnear 1\nlabel 0 - 0 10:0\nlabel 1 1 43 4:20\nlabel 2 * - 0 7:16 8:17 10:29\nlabel 2 * 1 43 2:26 8:32 10:44\nlabel 1 1 43 5:22 6:23 8:35\n";

/// Each plan enters the only customer, so a count of 0 is out of the range of this set.
const NO_ENTRY: &str = "evroute near tree 1\nbound 43\nentries 0 1\nleaf\n";

/// The tree without a label for the start.
const NO_START: &str =
    "evroute near tree 1\nbound 43\nleaf\nsection 1 4\nprices 43\nnear 1\nlabel 1 1 43 4:20\nlabel 2 * - 0 7:16 8:17 10:29\nlabel 2 * 1 43 2:26 8:32 10:44\nlabel 1 1 43 5:22 6:23 8:35\n";

/// The tree without a label for the station behind the customer.
const NO_STATION: &str =
    "evroute near tree 1\nbound 43\nleaf\nsection 1 4\nprices 43\nnear 1\nlabel 0 - 0 10:0\nlabel 1 1 43 4:20\nlabel 2 * - 0 7:16 8:17 10:29\nlabel 1 1 43 5:22 6:23 8:35\n";

/// The tree with a price that no route pays.
const TOO_DEAR: &str =
    "evroute near tree 1\nbound 43\nleaf\nsection 1 5\nprices 44\nnear 1\nlabel 0 - 0 10:0\nlabel 1 1 44 4:20\nlabel 2 * - 0 7:16 8:17 10:29\nlabel 2 * 1 44 2:26 8:32 10:44\nlabel 1 1 44 5:22 6:23 8:35\n";

/// The tree with a greater bound.
const TOO_HIGH: &str =
    "evroute near tree 1\nbound 44\nleaf\nsection 1 5\nprices 43\nnear 1\nlabel 0 - 0 10:0\nlabel 1 1 43 4:20\nlabel 2 * - 0 7:16 8:17 10:29\nlabel 2 * 1 43 2:26 8:32 10:44\nlabel 1 1 43 5:22 6:23 8:35\n";

/// A near proof of the same bound.
const NEAR: &str =
    "evroute near 1\nbound 43\nsection 1 5\nprices 43\nnear 1\nlabel 0 - 0 0 10:0\nlabel 1 1 1 43 4:20\nlabel 2 - 0 0 7:16 8:17 10:29\nlabel 2 1 1 43 2:26 8:32 10:44\nlabel 1 1 1 43 5:22 6:23 8:35\ntight 0 v2+1 1 0\n";

/// What is read of the tree, as a text.
fn tree_again(alloc: Global, inst: &Instance) -> Option<Vec<u8>> {
    let proof = read_tree(alloc, inst, TREE.as_bytes()).ok()?;
    let mut out = Vec::new(alloc);
    push_tree(alloc, &mut out, inst, &proof).ok()?;
    Some(out)
}

/// Why a text is no tree.
fn refusal(alloc: Global, inst: &Instance, text: &str) -> Option<CertText> {
    match read_tree(alloc, inst, text.as_bytes()) {
        Ok(_) => None,
        Err(fault) => Some(fault),
    }
}

/// The text of the proof of a bound that is read of a text, and the lines of its verdict.
fn judged(alloc: Global, inst: &Instance, text: &str) -> Option<Vec<u8>> {
    let Ok(proof) = read_bound_proof(alloc, inst, text.as_bytes()) else {
        return None;
    };
    let Ok(verdict) = check_bound_proof(alloc, inst, &proof) else {
        return None;
    };
    let mut out = Vec::new(alloc);
    push_bound_proof(alloc, &mut out, inst, &proof).ok()?;
    push_bound_verdict(alloc, &mut out, inst, &proof, &verdict).ok()?;
    Some(out)
}

#[test]
fn a_proof_of_a_bound_is_read_written_and_judged(rt: HostRuntime) {
    let alloc = rt.alloc();
    let inst = read_instance(alloc, ONE_STATION.as_bytes()).expect(&rt, "an instance");
    for text in &[TREE, NEAR] {
        let mut want = Vec::from_slice(alloc, text.as_bytes()).expect(&rt, "memory");
        want.extend_from_slice(b"accepted\nbound 43/2\n")
            .expect(&rt, "memory");
        let found = judged(alloc, &inst, text).expect(&rt, "a proof");
        assert_eq!(rt; found.as_slice(), want.as_slice());
    }
}

#[test]
fn a_tree_is_read_and_written(rt: HostRuntime) {
    let alloc = rt.alloc();
    let inst = read_instance(alloc, ONE_STATION.as_bytes()).expect(&rt, "an instance");
    assert_text(&rt, tree_again(alloc, &inst), TREE);
    let fault = refusal(alloc, &inst, NO_ENTRY).expect(&rt, "a refusal");
    assert_eq!(rt; fault, CertText::Range { at: 37 });
}

/// What is found of the tree of a text; `None` where it is none, or memory is refused.
fn verdict(alloc: Global, inst: &Instance, text: &str) -> Option<TreeVerdict> {
    let Ok(tree) = read_tree(alloc, inst, text.as_bytes()) else {
        return None;
    };
    check_tree(alloc, inst, &tree).ok()
}

#[test]
fn trees_are_judged_by_each_rule(rt: HostRuntime) {
    let alloc = rt.alloc();
    let inst = read_instance(alloc, ONE_STATION.as_bytes()).expect(&rt, "an instance");
    for &(text, want) in &[
        (TREE, TreeVerdict::Accepted),
        (NO_START, TreeVerdict::Start { leaf: 0 }),
        (
            NO_STATION,
            TreeVerdict::Step {
                leaf: 0,
                label: 1,
                node: 2,
            },
        ),
        (TOO_DEAR, TreeVerdict::Home { leaf: 0, label: 4 }),
        (TOO_HIGH, TreeVerdict::Bound { leaf: 0 }),
    ] {
        assert_eq!(rt; verdict(alloc, &inst, text), Some(want));
    }
}
