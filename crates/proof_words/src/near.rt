//! What broken rules of proofs of bounds by near routes mean: a sentence for each. What is accepted
//! breaks none.

use near_proof::NearVerdict;
use plain_words::Sentence;

/// What the broken rule of a near proof means.
pub fn rejected_near(verdict: NearVerdict) -> Option<Sentence> {
    match verdict {
        NearVerdict::Accepted => None,
        NearVerdict::Start => Some(Sentence::plain(
            "{CERT}: no listed label covers a vehicle that starts",
        )),
        NearVerdict::Step { label, node } => Some(Sentence::two(
            "{CERT}: the step from label {1} to node {2} leads to no listed label",
            label,
            node,
        )),
        NearVerdict::End { label } => Some(Sentence::one(
            "{CERT}: from label {1} a vehicle comes home for less than its services' prices",
            label,
        )),
        NearVerdict::Bound => Some(Sentence::plain(
            "{CERT}: the bound is not the sum of the prices, or none is shown",
        )),
        NearVerdict::Tight { customer } => Some(Sentence::one(
            "{CERT}: the route listed for customer {1} doesn't show that its price can't be \
             higher",
            customer,
        )),
    }
}
