//! Proofs that a charged route is a fastest one, or that no plan of it is feasible: labels that
//! cover whatever a vehicle may come to (completeness of forward labels: Irnich, Desaulniers 2005;
//! with a battery level as a resource: Froger, Mendoza, Jabali, Laporte 2019). Their text, both
//! ways, and their judge ([`check_route`], in `judge.rt` and the files that it stands on), which
//! knows nothing of the search that found them.
//!
//! Whether labels are closed is tested step by step: the values that one step of a label leads to
//! are made as any search makes them, and each of their levels below the bar has to be covered by a
//! listed label.
#![tactic(auto)]

mod asking;
mod ends;
mod fault;
mod judge;
mod judged;
mod laws;
mod links;
mod plan;
mod proof;
mod quick;
mod reading;
mod steps;
mod text_laws;
mod verdict;
mod verdict_text;
mod writing;

pub use certificate_parts::CertText;
pub use fault::RouteLabelFault;
pub use judge::{check_route, first_fault};
pub use laws::{closed_labels_are_true, closed_where_no_rule_is_broken};
pub use proof::{RouteLabel, RouteProof};
pub use reading::read_proof;
pub use text_laws::{
    proof_faults_are_first, texts_mean_one_proof, texts_spell_proofs, written_proofs_are_read,
};
pub use verdict::RouteVerdict;
pub use verdict_text::push_route_verdict;
pub use writing::push_proof;
