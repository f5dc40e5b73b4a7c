//! Proofs of bounds of either kind: by near routes, or by a tree over near sections.

mod judging;
mod laws;
mod proof;
mod reading;
mod writing;

pub use judging::{BoundVerdict, check_bound_proof, push_bound_verdict};
pub use laws::{
    a_shown_bound_is_true, accepted_bound_proofs_break_no_rule, bound_proofs_are_read,
    bound_texts_mean_one_proof, proofs_have_no_fault,
};
pub use proof::BoundProof;
pub use reading::{BoundText, read_bound_proof};
pub use writing::push_bound_proof;
