//! Planning a fleet of several kinds of vehicles, as many of each kind as one likes: prices at
//! which no route of any kind earns (column generation: Desaulniers, Desrosiers, Solomon 2005), a
//! proof by them of a bound on what such a fleet costs, and a plan. It hands on the calls for such
//! plans and proofs: whether kinds agree, the judges and the texts.
#![tactic(auto)]

mod bound;
mod earners;
mod greedy;
mod held;
mod kept;
mod listed;
mod outcome;
mod own;
mod partition;
mod planning;
mod root;
mod searched;
mod seeking;
mod whole;

pub use mixed_model::{
    MixedProof, MixedRoot, MixedRoute, MixedShare, MixedVerdict, PlanFault, PlanText, check_mixed,
    check_mixed_plan, kinds_agree, push_kinds_refusal, push_mixed_plan, read_mixed_plan,
};
pub use mixed_text::{CertText, push_mixed, push_mixed_verdict, read_mixed};
pub use outcome::MixedOutcome;
pub use planning::{plan_mixed, plan_mixed_watched};
pub use price_loop::{RisingProgress, RoundProgress, RoundWatcher};
