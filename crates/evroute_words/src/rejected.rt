//! What broken rules of certificates, and of the proofs of routes and of fleets of several kinds of
//! vehicles mean: a sentence for each. Kinds of vehicles are counted from 0, in the order of their
//! files. What is accepted breaks none.

use certificate_check::Verdict;
use mixed_model::MixedVerdict;
use plain_words::{Sentence, stop_of, words_of_walk};
use route_plan::WalkFault;
use route_proof::RouteVerdict;

/// What the broken rule of a certificate means.
pub(crate) fn certificate(verdict: Verdict) -> Option<Sentence> {
    match verdict {
        Verdict::Accepted => None,
        Verdict::Start { section } => Some(Sentence::one(
            "{CERT}: section {1} lists no label of a vehicle that starts",
            section,
        )),
        Verdict::Step {
            section,
            label,
            node,
        } => Some(Sentence::three(
            "{CERT}: section {1}: the step from label {2} to node {3} leads to no listed label",
            section,
            label,
            node,
        )),
        Verdict::End { section, label } => Some(Sentence::two(
            "{CERT}: section {1}: from label {2} a vehicle comes home for less than its \
             customers' prices",
            section,
            label,
        )),
        Verdict::Pairs { leaf } => Some(Sentence::one(
            "{CERT}: leaf {1} of the tree allows a pair that its section forbids",
            leaf,
        )),
        Verdict::Bound { leaf } => Some(Sentence::one(
            "{CERT}: the section of leaf {1} doesn't show the bound",
            leaf,
        )),
        Verdict::Root => Some(Sentence::plain(
            "{CERT}: the root is neither the least cost of a fractional cover, nor a basis that \
             is too wide, nor none where no fleet serves all",
        )),
    }
}

/// What the broken rule of the proof of a route means.
pub(crate) fn route(verdict: RouteVerdict) -> Option<Sentence> {
    match verdict {
        RouteVerdict::Accepted => None,
        RouteVerdict::Plan { fault } => Some(route_walk(fault)),
        RouteVerdict::Other => Some(Sentence::plain("{CERT}: its plan is one of another route")),
        RouteVerdict::Start => Some(Sentence::plain(
            "{CERT}: no listed label covers a vehicle that starts",
        )),
        RouteVerdict::Step {
            label,
            node,
            via: false,
        } => Some(Sentence::two(
            "{CERT}: the step from label {1} to node {2}, the next of the route, leads to no \
             listed label",
            label,
            node,
        )),
        RouteVerdict::Step {
            label,
            node,
            via: true,
        } => Some(Sentence::two(
            "{CERT}: the step from label {1} to the station at node {2} leads to no listed label",
            label,
            node,
        )),
        RouteVerdict::End { label } => Some(Sentence::one(
            "{CERT}: from label {1} a vehicle comes home sooner than the plan, or within the \
             limit where there is none",
            label,
        )),
    }
}

/// What the broken rule of the walk along the plan of a proof means.
fn route_walk(fault: WalkFault) -> Sentence {
    match stop_of(fault) {
        Some(at) => Sentence::one(
            "{CERT}: its plan, at stop {1}, counted from 0, {word}",
            at,
        ).saying(words_of_walk(fault)),
        None => Sentence::worded("{CERT}: its plan {word}", words_of_walk(fault)),
    }
}

/// What the broken rule of a proof for kinds of vehicles means.
pub(crate) fn mixed(verdict: MixedVerdict) -> Option<Sentence> {
    match verdict {
        MixedVerdict::Accepted => None,
        MixedVerdict::Start { kind } => Some(Sentence::one(
            "{CERT}: kind {1} lists no label of a vehicle that starts",
            kind,
        )),
        MixedVerdict::Step { kind, label, node } => Some(Sentence::three(
            "{CERT}: kind {1}: the step from label {2} to node {3} leads to no listed label",
            kind,
            label,
            node,
        )),
        MixedVerdict::End { kind, label } => Some(Sentence::two(
            "{CERT}: kind {1}: from label {2} a vehicle comes home for less than its customers' \
             prices",
            kind,
            label,
        )),
        MixedVerdict::Bound => Some(Sentence::plain("{CERT}: its prices don't show the bound")),
        MixedVerdict::Root => Some(Sentence::plain(
            "{CERT}: the root is neither the least cost of a fractional cover, nor a basis that \
             is too wide, nor none where no fleet serves all",
        )),
    }
}
