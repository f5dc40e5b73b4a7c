//! The labels of a proof, by the states of a search.

ghost use Rattle.std.specs.Prelude.{◌≡◌, IfOk, map};
ghost use Rattle.fixed_certificate.specs.Labels.{label_of};

use route_proof::RouteLabel;
use route_steps::State;
use std::alloc::{AllocError, Global};

/// The labels of states.
pub(crate) fn labels_of(alloc: Global, states: Vec<State>) -> Result<Vec<RouteLabel>, AllocError>
    ensures { IfOk result (λ labels. labels.items ≡ map label_of states.items) }
{
    states.into_iter().map(label_of).collect(alloc)
}

/// The label of a state.
fn label_of(state: State) -> RouteLabel
    ensures { result ≡ label_of state }
{
    RouteLabel {
        passed: state.passed,
        node: state.node,
        value: state.value,
    }
}
