//! A proof that a charged route is a fastest one, or that no plan of the route is feasible: what
//! shows it, found together with the plan.
#![tactic(auto)]

mod labels;
mod proving;

pub use proving::prove_route;
pub use route_proof::{
    RouteLabel, RouteProof, RouteVerdict, check_route, push_proof, push_route_verdict, read_proof,
};
