//! Fleets of several kinds of vehicles, as many of each kind as one likes: what a plan of such a
//! fleet is, what shows that none costs less than a bound, and that it does; whether kinds agree;
//! the judge of plans (`plan_judge.rt`) and their texts (`plan_text`), and the judge of proofs
//! (`judge.rt`), which know nothing of a search. With one kind such proofs are certificates.
#![tactic(auto)]

mod agreement;
mod examples;
mod judge;
mod kinds;
mod laws;
mod one_kind;
mod one_kind_proofs;
mod plan_judge;
mod plan_laws;
mod plan_text;
mod proof;
mod refusal;
mod root;
mod routes;
mod verdict;

pub use agreement::kinds_agree;
pub use examples::{a_kind_that_is_left_out_is_missed, two_kinds_of_vehicles};
pub use judge::check_mixed;
pub use laws::{
    accepted_bounds_are_true, accepted_proofs_break_no_rule, accepted_roots_are_true,
    exact_roots_are_least_covers,
};
pub use one_kind::{one_kind_covers_are_fractional_covers, one_kind_plans_are_fleet_plans};
pub use one_kind_proofs::one_kind_proofs_are_certificates;
pub use plan_check::PlanFault;
pub use plan_judge::check_mixed_plan;
pub use plan_laws::mixed_plans_break_no_rule;
pub use plan_text::{
    mixed_plan_faults_are_first, push_mixed_plan, read_mixed_plan, texts_spell_mixed_plans,
};
pub use proof::{MixedProof, MixedRoot, MixedRoute, MixedShare};
pub use refusal::push_kinds_refusal;
pub use route_plan::PlanText;
pub use verdict::MixedVerdict;
