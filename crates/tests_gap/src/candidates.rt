//! The proof that is made of candidates of which some are rejected, or aren't read.

use evgap_run::{Never, Nobody};
use gap_search::{BoundProof, GapOptions, Recreation, close_gap, proof_of_candidates};
use instance_reader::{Instance, read_instance};
use near_text::read_near;
use std::alloc::Global;
use worked_instances::TWO_CUSTOMERS;

/// The text of a proof on two customers by near sets of each customer alone: it is in its ranges,
/// and is rejected, as it has no labels.
const WITHOUT_LABELS: &str =
    "evroute near 1\nbound 0\nsection 1 0\nprices 0 0\nnear 1\nnear 2\ntight 0 1 0\ntight 0 2 0\n";

/// What a candidate is.
#[derive(Clone, Copy, Debug)]
enum Kind {
    /// Its text is read, and it has no labels.
    Rejected,
    /// A weight of 2 may not stand in a text.
    Unread,
    /// A search found it.
    Found,
}

/// Whether a proof is a tree, and its bound.
type Told = (bool, Option<u128>);

/// A candidate; `None` says nothing.
fn candidate(alloc: Global, inst: &Instance, kind: Kind) -> Option<BoundProof> {
    if inst.customers().len() > 128 {
        return None;
    }
    let mut proof = read_near(alloc, inst, WITHOUT_LABELS.as_bytes()).ok()?;
    match kind {
        Kind::Rejected => Some(BoundProof::Near(proof)),
        Kind::Unread => {
            proof.weight = 2;
            Some(BoundProof::Near(proof))
        }
        Kind::Found => found(alloc, inst),
    }
}

/// The proof that a search finds; `None` says nothing.
fn found(alloc: Global, inst: &Instance) -> Option<BoundProof> {
    let options = GapOptions {
        recreation: Recreation {
            seed: 1,
            effort: None,
        },
        nodes: None,
        ends_moves: false,
    };
    let outcome = close_gap(
        alloc,
        inst,
        None,
        options,
        &mut Never {},
        &mut Nobody::new(),
    )
    .ok()?;
    Some(outcome.proof)
}

/// What is made of candidates of these kinds; `None` says nothing.
fn made_of(alloc: Global, kinds: &[Kind]) -> Option<Told> {
    let inst = read_instance(alloc, TWO_CUSTOMERS.as_bytes()).ok()?;
    let mut candidates = Vec::new(alloc);
    for kind in kinds {
        candidates.push(candidate(alloc, &inst, *kind)?).ok()?;
    }
    let proof = proof_of_candidates(alloc, &inst, &candidates).ok()?;
    Some((matches!(&proof, BoundProof::Tree(_)), proof.bound()))
}

#[test]
fn the_first_candidate_that_is_accepted_is_taken(rt: HostRuntime) {
    let alloc = rt.alloc();
    let best = made_of(alloc, &[Kind::Found]).expect(&rt, "a proof");
    assert!(rt; !best.0 && best.1 > Some(0));
    let told = made_of(alloc, &[Kind::Rejected, Kind::Unread, Kind::Found]);
    assert_eq!(rt; told, Some(best));
}

#[test]
fn where_none_is_accepted_the_bound_is_0(rt: HostRuntime) {
    let alloc = rt.alloc();
    assert_eq!(rt; made_of(alloc, &[]), Some((true, Some(0))));
    let told = made_of(alloc, &[Kind::Rejected, Kind::Unread]);
    assert_eq!(rt; told, Some((true, Some(0))));
}
