//! What a search for a close gap answers.

use route_improve::Improved;
use tree_text::BoundProof;

/// A fleet plan, or why none is held, and a proof of what no fleet plan costs less than.
#[derive(Drop)]
pub struct GapOutcome {
    /// The plan; or the least node of a customer whom no route of his own reaches, where none is
    /// held.
    pub plan: Improved,
    /// The proof, whose bound is scaled by the instance's denominator; without a bound there is no
    /// fleet plan.
    pub proof: BoundProof,
}
